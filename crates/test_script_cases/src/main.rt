//! Plays the worked cases and input at every limit, digests of bytes, and a bale's transcript over SHA-256 on both ends.
#![tactic(auto)]

use std::{fs, io};

/// Prints the answers; fails if one of them is `bad-line`.
fn play(rt: &HostRuntime, path: &str) -> io::Result<()> {
    let text = fs::read_to_string(rt, path)?;
    let sheet = player::run(rt.alloc(), text.as_str())?;
    if sheet.print(rt)? {
        Ok(())
    } else {
        Err(io::Error::from(io::ErrorKind::InvalidData))
    }
}

/// Prints the tables; fails if the script is refused.
fn rehearse(rt: &HostRuntime, path: &str) -> io::Result<()> {
    let text = fs::read_to_string(rt, path)?;
    match player::agree(rt.alloc(), text.as_str()) {
        Ok(table) => rt.print(table.as_str()),
        Err(_) => Err(io::Error::from(io::ErrorKind::InvalidData)),
    }
}

fn main(rt: HostRuntime) -> io::Result<()> {
    play(&rt, "worked.txt")?;
    play(&rt, "limits.txt")?;
    play(&rt, "multi.txt")?;
    play(&rt, "transcripts.txt")?;
    play(&rt, "hashes.txt")?;
    rehearse(&rt, "bale-sha256.txt")
}
