//! Tables of rows.
use chw_base::{NoMemory, Or};
use std::alloc::Global;
use std::io::{self, Print};
use std::rt::{Env, Files};
use std::{env, fs};

/// The text of a row is none of its notation, or names no call.
#[derive(Clone, Copy, Debug)]
pub struct Unread;

/// Writes a text.
pub fn put(out: &mut Vec<u8>, text: &str) -> Result<(), NoMemory> {
    Ok(out.extend_from_slice(text.as_bytes())?)
}

/// Writes the rows of the files that the program's words name, each with its answer.
pub fn print_rows<
    R: AllocGlobal + Env + Files + Print,
    F: Fn(Global, &str, &str, &mut Vec<u8>) -> Result<(), Or<Unread>>,
>(rt: &R, answer: F) -> io::Result<()>
    requires { F.IsAlwaysCallable answer }
{
    for file in env::args(rt)?.skip(1) {
        let rows = fs::read_to_string(rt, file.as_str())?;
        match answer_rows(rt.alloc(), rows.as_str(), &answer) {
            Ok(answers) => rt.write_all(answers.as_slice())?,
            Err(NoMemory) => println!(rt; "no memory")?,
        }
    }
    Ok(())
}

// Each row of a text, with what `answer` writes of it behind `=>`.
//
// A row is a line: the name of a call, and behind a space its arguments. Lines that are empty or begin with `#` are no rows. Of an
// answer that isn't given, only the cause is written.
fn answer_rows<F: Fn(Global, &str, &str, &mut Vec<u8>) -> Result<(), Or<Unread>>>(
    alloc: Global,
    rows: &str,
    answer: F,
) -> Result<Vec<u8>, NoMemory>
    requires { F.IsAlwaysCallable answer }
{
    let mut out = Vec::new(alloc);
    for row in rows.lines() {
        if row.is_empty() || row.starts_with('#') {
            continue;
        }
        put(&mut out, row)?;
        put(&mut out, " => ")?;
        let (call, arguments) = row.split_once(' ').unwrap_or((row, ""));
        let mut answered = Vec::new(alloc);
        match answer(alloc, call, arguments, &mut answered) {
            Ok(()) => out.extend_from_slice(answered.as_slice())?,
            Err(Or::Memory) => put(&mut out, "no memory")?,
            Err(Or::Fault(Unread)) => put(&mut out, "unread")?,
        }
        put(&mut out, "\n")?;
    }
    Ok(out)
}
