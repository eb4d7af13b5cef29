//! The program `chw`: it gives the words, the system's files and the standard streams to `top`, and ends with its status.
#![tactic(auto)]

use chw_base::{FileShelf, Name, StdSink};
use chw_cli::Status;
use chw_cli::top::top;
use std::process::ExitCode;
use std::rt::Env;
use std::{env, io};

fn main(rt: HostRuntime) -> ExitCode {
    let words = match words(&rt) {
        Ok(words) => words,
        Err(error) => {
            if error.kind() == io::ErrorKind::OutOfMemory {
                return ExitCode::from(Status::Memory.code());
            }
            // A word isn't text, so the words are no command: as no words at all.
            Vec::new(rt.alloc())
        }
    };
    let mut shelf = FileShelf::new(&rt);
    let mut out = StdSink::new(rt.stdout());
    let mut err = StdSink::new(rt.stderr());
    let status = top(rt.alloc(), words.as_slice(), &mut shelf, &mut out, &mut err);
    ExitCode::from(status.code())
}

/// The words after the program's own name.
fn words<R: Env + AllocGlobal>(rt: &R) -> io::Result<Vec<Name>> {
    let mut words = Vec::new(rt.alloc());
    for word in env::args(rt)?.skip(1) {
        words.push(Name::from(word.into_bytes()))?;
    }
    Ok(words)
}
