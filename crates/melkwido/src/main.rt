//! The program: plays a script, or shows the prover's and the verifier's run of it.
#![tactic(auto)]

ghost use Rattle.std.specs.Prelude.{◌≡◌, if◌then◌else◌};
ghost use Rattle.std.specs.Process.{exit_status};

use std::process::ExitCode;
use std::{env, fs, io};

const HELP: &str = "melkwido plays scripts of challenger calls

  melkwido run [FILE]     one answer line for each call
  melkwido agree [FILE]   the prover's run and the verifier's, side by side
  melkwido help           this text

A script has one call to a line. FILE is its path; - or none is standard input.

  make duplex DOMAIN PERM WIDTH RATE           DOMAIN: bytes babybear koalabear goldilocks
  make multi SAMPLED SPONGE PERM WIDTH RATE    SAMPLED, SPONGE: domains
  make serial SAMPLED duplex PERM WIDTH RATE   PERM: mirror ladder:R
  make serial SAMPLED hash HASHER HEX          HASHER: sha256 sha3-256
  make hash HASHER HEX                         HEX: two digits a byte, - for none
  observe N..   digest N..   digest64 N..   sample [LIMIT]   bits B   uniform B LIMIT
  check B W   grind B BUDGET   find COUNT MASK   held   finalize
  hashof HASHER HEX   helpers SAMPLED SPONGE   # a comment";

/// The text of a script; where there is none, a message says why.
fn read_script(rt: &HostRuntime, path: &str) -> io::Result<String> {
    let read = match path {
        "-" => io::read_to_string(rt.alloc(), rt.stdin()),
        _ => fs::read_to_string(rt, path),
    };
    if let Err(error) = &read {
        eprintln!(rt; "melkwido: cannot read {path}: {error}")?;
    }
    read
}

/// The status at the end: 1 if a line was answered `bad-line`, else 0.
fn status(read: bool) -> ExitCode
    ensures { exit_status result ≡ (if read then 0 else 1) }
{
    if read {
        ExitCode::SUCCESS
    } else {
        ExitCode::FAILURE
    }
}

/// Prints the answers; fails if one of them is `bad-line`.
fn run(rt: &HostRuntime, path: &str) -> io::Result<ExitCode> {
    let text = read_script(rt, path)?;
    let sheet = player::run(rt.alloc(), text.as_str())?;
    Ok(status(sheet.print(rt)?))
}

/// Prints the tables; fails, with nothing printed, if the script is refused.
fn agree(rt: &HostRuntime, path: &str) -> io::Result<ExitCode> {
    let text = read_script(rt, path)?;
    match player::agree(rt.alloc(), text.as_str()) {
        Ok(table) => {
            rt.print(table.as_str())?;
            Ok(status(true))
        }
        Err(stop) => {
            rt.eprintln(stop)?;
            Ok(status(false))
        }
    }
}

/// Does what a command says; another word than a command gets the help.
fn obey(rt: &HostRuntime, command: &str, path: &str) -> io::Result<ExitCode> {
    match command {
        "run" => run(rt, path),
        "agree" => agree(rt, path),
        "help" => {
            rt.println(HELP)?;
            Ok(ExitCode::SUCCESS)
        }
        _ => {
            rt.eprintln(HELP)?;
            Ok(ExitCode::FAILURE)
        }
    }
}

/// Does what the words after the program's name say.
fn obey_words(rt: &HostRuntime) -> io::Result<ExitCode> {
    let words: Vec<String> = env::args(rt)?.skip(1).collect(rt.alloc())?;
    match words.as_slice() {
        [command] => obey(rt, command.as_str(), "-"),
        [command, path] => obey(rt, command.as_str(), path.as_str()),
        _ => obey(rt, "", "-"),
    }
}

/// A failure to read, to print or for want of memory ends with status 1; the message stands already, where one can.
fn main(rt: HostRuntime) -> ExitCode {
    obey_words(&rt).unwrap_or(ExitCode::FAILURE)
}
