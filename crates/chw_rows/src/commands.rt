//! Commands on files of the system, as a user gives them.
use chw_base::{FileShelf, Name, StdSink};
use chw_cli::Status;
use chw_cli::top::top;
use std::io;

/// Runs the commands of a text.
///
/// A line is a command: its words, with a space between two. Lines that are empty or begin with `#`
/// are no commands.
pub fn run_commands(rt: &HostRuntime, commands: &str) -> io::Result<()> {
    for command in commands.lines() {
        if !command.is_empty() && !command.starts_with('#') {
            run_command(rt, command)?;
        }
    }
    Ok(())
}

// Runs a command. After its line comes what it writes to either output, and last its status.
fn run_command(rt: &HostRuntime, command: &str) -> io::Result<()> {
    println!(rt; "chw {}", command)?;
    let mut words = Vec::new(rt.alloc());
    for word in command.split(' ') {
        words.push(Name::from(Vec::from_slice(rt.alloc(), word.as_bytes())?))?;
    }
    let status = run(rt, words.as_slice());
    println!(rt; "status {}", status.code())
}

// Runs the program on these words, with both outputs on standard output.
fn run(rt: &HostRuntime, words: &[Name]) -> Status {
    let mut shelf = FileShelf::new(rt);
    let mut out = StdSink::new(rt.stdout());
    let mut err = StdSink::new(rt.stdout());
    top(rt.alloc(), words, &mut shelf, &mut out, &mut err)
}
