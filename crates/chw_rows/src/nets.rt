//! Rows of `run` and `simulate`: a Verilog text or a description and a stimulus, with `%%` between
//! them.
use crate::run::{Fails, NONE, Shown, put_run};
use chw_base::{Name, NoMemory, Or};
use row_tables::{Unread, bytes_of, words_of};
use std::alloc::Global;

/// Writes what is answered to a command on the two texts.
pub fn put_net(
    alloc: Global,
    command: &str,
    row: &str,
    out: &mut Vec<u8>,
) -> Result<(), Or<Unread>> {
    let words = words_on_files(alloc, command)?;
    put_on_files(alloc, words.as_slice(), row, &NONE, Shown::Text, out)
}

/// Writes what is answered to a command where the calls with these numbers fail, a minus for none:
/// of the shelf, of the text and of the line.
pub fn put_failing(alloc: Global, row: &str, out: &mut Vec<u8>) -> Result<(), Or<Unread>> {
    let (command, row) = row.split_once(' ').ok_or(Or::Fault(Unread))?;
    let (fails, texts) = fails_of(row)?;
    let words = words_on_files(alloc, command)?;
    put_on_files(alloc, words.as_slice(), texts, &fails, Shown::Length, out)
}

/// Writes what is answered to the words between quotation marks where such calls fail.
pub fn put_failing_words(alloc: Global, row: &str, out: &mut Vec<u8>) -> Result<(), Or<Unread>> {
    let (fails, row) = fails_of(row)?;
    let words = words_of(alloc, row)?;
    let texts = texts_behind(row)?;
    put_on_files(alloc, words.as_slice(), texts, &fails, Shown::Length, out)
}

// The numbers of the calls that fail, and what stands behind them.
fn fails_of(row: &str) -> Result<(Fails, &str), Or<Unread>> {
    let (shelf, row) = row.split_once(' ').ok_or(Or::Fault(Unread))?;
    let (text, row) = row.split_once(' ').ok_or(Or::Fault(Unread))?;
    let (line, row) = row.split_once(' ').ok_or(Or::Fault(Unread))?;
    let fails = Fails {
        shelf: shelf.parse::<u32>().ok(),
        out: text.parse::<u32>().ok(),
        err: line.parse::<u32>().ok(),
    };
    Ok((fails, row))
}

/// Writes what is answered to the words between quotation marks, where the texts after them are in
/// the files `v` and `s`.
pub fn put_words_on_files(alloc: Global, row: &str, out: &mut Vec<u8>) -> Result<(), Or<Unread>> {
    let words = words_of(alloc, row)?;
    let texts = texts_behind(row)?;
    put_on_files(alloc, words.as_slice(), texts, &NONE, Shown::Text, out)
}

// What stands behind the words of a row.
fn texts_behind(row: &str) -> Result<&str, Or<Unread>> {
    let (_, texts) = row.rsplit_once('"').ok_or(Or::Fault(Unread))?;
    Ok(texts.trim_start())
}

// Writes what is answered to words, where the two texts of a row are in the files `v` and `s`.
fn put_on_files(
    alloc: Global,
    words: &[Name],
    row: &str,
    fails: &Fails,
    shown: Shown,
    out: &mut Vec<u8>,
) -> Result<(), Or<Unread>> {
    let (text, stimulus) = texts_of(alloc, row)?;
    let mut files = Vec::new(alloc);
    files.push((Name::copy_of(alloc, b"v")?, text))?;
    files.push((Name::copy_of(alloc, b"s")?, stimulus))?;
    Ok(put_run(alloc, words, files, fails, shown, out)?)
}

/// The two texts of a row.
pub fn texts_of(alloc: Global, row: &str) -> Result<(Vec<u8>, Vec<u8>), Or<Unread>> {
    let (text, stimulus) = row.split_once(" %%").ok_or(Or::Fault(Unread))?;
    let text = bytes_of(alloc, text)?;
    let stimulus = bytes_of(alloc, stimulus.trim_start())?;
    Ok((text, stimulus))
}

/// The words of a command on the files that it reads: `v`, and `s` where it reads a stimulus.
pub fn words_on(alloc: Global, command: &str) -> Result<Vec<Name>, NoMemory> {
    if command == "run" || command == "simulate" {
        return words_on_files(alloc, command);
    }
    let mut words = Vec::new(alloc);
    words.push(Name::copy_of(alloc, command.as_bytes())?)?;
    words.push(Name::copy_of(alloc, b"v")?)?;
    Ok(words)
}

// The words of a command on the files `v` and `s`.
fn words_on_files(alloc: Global, command: &str) -> Result<Vec<Name>, NoMemory> {
    let mut words = Vec::new(alloc);
    words.push(Name::copy_of(alloc, command.as_bytes())?)?;
    words.push(Name::copy_of(alloc, b"v")?)?;
    words.push(Name::copy_of(alloc, b"s")?)?;
    Ok(words)
}
