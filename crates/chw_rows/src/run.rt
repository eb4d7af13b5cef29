//! One run of `top` over a shelf and sinks in memory.
use chw_base::{MemShelf, MemSink, Name, NoMemory};
use chw_cli::top::top;
use row_tables::{put, put_number};
use std::alloc::Global;

/// The call of each object that fails, by its number from 0, if one does.
#[derive(Clone, Copy)]
pub struct Fails {
    pub shelf: Option<u32>,
    pub out: Option<u32>,
    pub err: Option<u32>,
}

/// No call fails.
pub const NONE: Fails = Fails {
    shelf: None,
    out: None,
    err: None,
};

/// What is shown of the text that a run writes.
#[derive(Clone, Copy)]
pub enum Shown {
    Text,
    Length,
    Nothing,
}

/// Writes what `top` answers: its status, its line, and what is to be shown of the text that it
/// writes.
pub fn put_run(
    alloc: Global,
    words: &[Name],
    files: Vec<(Name, Vec<u8>)>,
    fails: &Fails,
    shown: Shown,
    answer: &mut Vec<u8>,
) -> Result<(), NoMemory> {
    let mut shelf = MemShelf::new(files, failing(alloc, fails.shelf)?);
    let mut out = MemSink::new(alloc, failing(alloc, fails.out)?);
    let mut err = MemSink::new(alloc, failing(alloc, fails.err)?);
    let status = top(alloc, words, &mut shelf, &mut out, &mut err);
    put_number(answer, "", u32::from(status.code()))?;
    put_lines(answer, " ", err.bytes())?;
    match shown {
        Shown::Text => put_lines(answer, "\n", out.bytes()),
        Shown::Length => put_length(answer, out.bytes()),
        Shown::Nothing => Ok(()),
    }
}

/// The one file of a text.
pub fn one_file(alloc: Global, name: &str, text: &[u8]) -> Result<Vec<(Name, Vec<u8>)>, NoMemory> {
    let mut files = Vec::new(alloc);
    files.push((
        Name::copy_of(alloc, name.as_bytes())?,
        Vec::from_slice(alloc, text)?,
    ))?;
    Ok(files)
}

// The calls that fail: this one, or none.
fn failing(alloc: Global, call: Option<u32>) -> Result<Vec<u32>, NoMemory> {
    let mut calls = Vec::new(alloc);
    if let Some(call) = call {
        calls.push(call)?;
    }
    Ok(calls)
}

// Writes how many bytes a text has.
fn put_length(answer: &mut Vec<u8>, text: &[u8]) -> Result<(), NoMemory> {
    put_number(answer, "; ", chw_base::narrow(text.len())?)?;
    put(answer, " bytes")
}

// Writes lines after a sign and without the last line feed, and a word of that where there is none.
fn put_lines(answer: &mut Vec<u8>, sign: &str, lines: &[u8]) -> Result<(), NoMemory> {
    match lines {
        [] => Ok(()),
        [lines @ .., b'\n'] => {
            put(answer, sign)?;
            put_ends(answer, lines)
        }
        _ => {
            put(answer, sign)?;
            put_ends(answer, lines)?;
            put(answer, " without a line feed")
        }
    }
}

// Writes a text, or its ends where it is very long.
fn put_ends(answer: &mut Vec<u8>, text: &[u8]) -> Result<(), NoMemory> {
    if text.len() <= 4_000 {
        return Ok(answer.extend_from_slice(text)?);
    }
    answer.extend_from_slice(&text[..24])?;
    put(answer, "..")?;
    Ok(answer.extend_from_slice(&text[text.len() - 24..])?)
}
