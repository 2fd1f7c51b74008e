//! Plays scripts whose answers are those of the Rust, stored by compare/stored.py.
#![tactic(auto)]

use std::{fs, io};

// Unlike `Sheet::print` it writes nothing to standard error: some lines cannot be read, on purpose.
fn main(rt: HostRuntime) -> io::Result<()> {
    let text = fs::read_to_string(&rt, "scripts.txt")?;
    let sheet = player::run(rt.alloc(), text.as_str())?;
    rt.print(sheet.answers.as_str())
}
