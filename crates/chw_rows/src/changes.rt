//! Runs of a command on texts that are cut or changed, and how many of them end in each way.
use crate::nets::{texts_of, words_on};
use crate::run::{NONE, Shown, put_run};
use chw_base::{Name, NoMemory, Or};
use row_tables::{Unread, bytes_of, put, put_number};
use std::alloc::Global;

// How a run ends, and how many runs end so.
#[derive(Drop)]
struct Ending {
    shown: Vec<u8>,
    times: u32,
}

// How many bytes of an answer are an ending: the status, and of a refusal its code.
const ENDING: usize = 10;

/// Writes how a command ends on each proper prefix of its first text.
pub fn put_prefixes(alloc: Global, row: &str, out: &mut Vec<u8>) -> Result<(), Or<Unread>> {
    let (command, texts) = row.split_once(' ').ok_or(Or::Fault(Unread))?;
    let (text, stimulus) = texts_of(alloc, texts)?;
    let mut endings = Vec::new(alloc);
    for length in 0..text.len() {
        count(
            alloc,
            command,
            &text[..length],
            stimulus.as_slice(),
            &mut endings,
        )?;
    }
    Ok(put_endings(endings.as_slice(), out)?)
}

/// Writes how a command ends on each proper prefix of its second text.
pub fn put_stimulus_prefixes(
    alloc: Global,
    row: &str,
    out: &mut Vec<u8>,
) -> Result<(), Or<Unread>> {
    let (command, texts) = row.split_once(' ').ok_or(Or::Fault(Unread))?;
    let (text, stimulus) = texts_of(alloc, texts)?;
    let mut endings = Vec::new(alloc);
    for length in 0..stimulus.len() {
        count(
            alloc,
            command,
            text.as_slice(),
            &stimulus[..length],
            &mut endings,
        )?;
    }
    Ok(put_endings(endings.as_slice(), out)?)
}

/// Writes how a command ends where one byte of its first text is another one: each byte in turn.
pub fn put_replaced(alloc: Global, row: &str, out: &mut Vec<u8>) -> Result<(), Or<Unread>> {
    let (byte, row) = row.split_once(' ').ok_or(Or::Fault(Unread))?;
    let (command, texts) = row.split_once(' ').ok_or(Or::Fault(Unread))?;
    let byte = first_byte(alloc, byte)?;
    let (text, stimulus) = texts_of(alloc, texts)?;
    let mut endings = Vec::new(alloc);
    for place in 0..text.len() {
        let changed = with_byte(alloc, text.as_slice(), place, byte)?;
        count(
            alloc,
            command,
            changed.as_slice(),
            stimulus.as_slice(),
            &mut endings,
        )?;
    }
    Ok(put_endings(endings.as_slice(), out)?)
}

fn first_byte(alloc: Global, text: &str) -> Result<u8, Or<Unread>> {
    let bytes = bytes_of(alloc, text)?;
    bytes.first().copied().ok_or(Or::Fault(Unread))
}

fn with_byte(alloc: Global, text: &[u8], place: usize, byte: u8) -> Result<Vec<u8>, NoMemory> {
    let mut changed = Vec::from_slice(alloc, text)?;
    if let Some(there) = changed.get_mut(place) {
        *there = byte;
    }
    Ok(changed)
}

// Counts how a command ends on two texts.
fn count(
    alloc: Global,
    command: &str,
    text: &[u8],
    stimulus: &[u8],
    endings: &mut Vec<Ending>,
) -> Result<(), NoMemory> {
    let answer = answer_of(alloc, command, text, stimulus)?;
    let shown = answer.as_slice().get(..ENDING).unwrap_or(answer.as_slice());
    add(alloc, shown, endings)
}

// The status and the line of a command on two texts.
fn answer_of(
    alloc: Global,
    command: &str,
    text: &[u8],
    stimulus: &[u8],
) -> Result<Vec<u8>, NoMemory> {
    let words = words_on(alloc, command)?;
    let files = two_files(alloc, text, stimulus)?;
    let mut answer = Vec::new(alloc);
    put_run(
        alloc,
        words.as_slice(),
        files,
        &NONE,
        Shown::Nothing,
        &mut answer,
    )?;
    Ok(answer)
}

fn two_files(
    alloc: Global,
    text: &[u8],
    stimulus: &[u8],
) -> Result<Vec<(Name, Vec<u8>)>, NoMemory> {
    let mut files = Vec::new(alloc);
    files.push((Name::copy_of(alloc, b"v")?, Vec::from_slice(alloc, text)?))?;
    files.push((
        Name::copy_of(alloc, b"s")?,
        Vec::from_slice(alloc, stimulus)?,
    ))?;
    Ok(files)
}

// Counts an ending: one that came before, or a new one.
fn add(alloc: Global, shown: &[u8], endings: &mut Vec<Ending>) -> Result<(), NoMemory> {
    for ending in endings.iter_mut() {
        if ending.shown.as_slice() == shown {
            ending.times = ending.times.saturating_add(1);
            return Ok(());
        }
    }
    endings.push(Ending {
        shown: Vec::from_slice(alloc, shown)?,
        times: 1,
    })?;
    Ok(())
}

// Writes the endings in the order in which they came first.
fn put_endings(endings: &[Ending], out: &mut Vec<u8>) -> Result<(), NoMemory> {
    for (place, ending) in endings.iter().enumerate() {
        let sign = if place == 0 { "" } else { "; " };
        put_number(out, sign, ending.times)?;
        put(out, " times ")?;
        out.extend_from_slice(ending.shown.as_slice())?;
    }
    Ok(())
}
