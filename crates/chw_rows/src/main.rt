//! Rows of the whole program, each with the status, the line of a refusal and, below them, the text
//! that is written.
//!
//! `check TEXT`, `emit TEXT` and `normalise TEXT` are these commands on a file of this text.
//! `accepts TEXT` is `check`, of which the text isn't shown, and `both TEXT` is `check` and `emit`,
//! which are to answer alike. `words "WORD" .. TEXT` has all words between quotation marks.
//! `absent`, `unread`, `unwritten` and `untold` are `emit` where no file has the name, or where the
//! file, the text or the line is at fault.
//!
//! `run VERILOG %% STIM` and `simulate TEXT %% STIM` are these commands on two files of these
//! texts, `v` and `s`, and `files "WORD" .. TEXT %% STIM` has other words.
//! `fails COMMAND N N N TEXT %% STIM` is a command on both files where a call of the shelf, of the
//! output and of the error output fails, by their numbers from 0, and shows how many bytes were
//! written. `failing N N N "WORD" .. TEXT %% STIM` has other words.
//!
//! `prefixes COMMAND TEXT %% STIM` runs a command on each proper prefix of the text in `v`, and
//! shows how many runs end with each status and code. `stimulus_prefixes` cuts the text in `s`, and
//! `replaced BYTE COMMAND TEXT %% STIM` puts a byte for each of those in `v` in turn.
//!
//! After the rows come the commands of standard input, run on the files of the system: here the
//! examples of the documents. Each is shown as `chw COMMAND`, what it writes, and `status N`.
#![tactic(auto)]

mod changes;
mod commands;
mod nets;
mod run;

use changes::{put_prefixes, put_replaced, put_stimulus_prefixes};
use chw_base::{Name, NoMemory, Or};
use commands::run_commands;
use nets::{put_failing, put_failing_words, put_net, put_words_on_files};
use row_tables::{Unread, bytes_of, print_rows, words_of};
use run::{Fails, NONE, Shown, one_file, put_run};
use std::alloc::Global;
use std::io;

fn main(rt: HostRuntime) -> io::Result<()> {
    print_rows(&rt, answer)?;
    let commands = io::read_to_string(rt.alloc(), rt.stdin())?;
    run_commands(&rt, commands.as_str())
}

// Writes what `top` answers to a row.
fn answer(alloc: Global, call: &str, text: &str, out: &mut Vec<u8>) -> Result<(), Or<Unread>> {
    match call {
        "words" => put_words(alloc, text, out),
        "both" => put_both(alloc, text, out),
        "check" | "accepts" => put_command(alloc, "check", call, text, out),
        "normalise" => put_command(alloc, "normalise", call, text, out),
        "run" | "simulate" => put_net(alloc, call, text, out),
        "fails" => put_failing(alloc, text, out),
        "failing" => put_failing_words(alloc, text, out),
        "prefixes" => put_prefixes(alloc, text, out),
        "stimulus_prefixes" => put_stimulus_prefixes(alloc, text, out),
        "replaced" => put_replaced(alloc, text, out),
        "files" => put_words_on_files(alloc, text, out),
        _ => put_command(alloc, "emit", call, text, out),
    }
}

// Writes what is answered to the words between quotation marks, where the file has the text after
// them.
fn put_words(alloc: Global, row: &str, out: &mut Vec<u8>) -> Result<(), Or<Unread>> {
    let words = words_of(alloc, row)?;
    let (_, text) = row.rsplit_once('"').unwrap_or(("", row));
    let text = bytes_of(alloc, text.trim_start())?;
    let files = one_file(alloc, "a.chw", &text)?;
    Ok(put_run(alloc, words.as_slice(), files, &NONE, Shown::Text, out)?)
}

// Writes what is answered to a command.
fn put_command(
    alloc: Global,
    command: &str,
    call: &str,
    text: &str,
    out: &mut Vec<u8>,
) -> Result<(), Or<Unread>> {
    let text = bytes_of(alloc, text)?;
    let words = words(alloc, command)?;
    let files = one_file(alloc, file_of(call), &text)?;
    Ok(put_run(
        alloc,
        words.as_slice(),
        files,
        &fails_of(call),
        shown_of(call),
        out,
    )?)
}

// The name of the file: another one for the call `absent`.
fn file_of(call: &str) -> &'static str {
    if call == "absent" { "b.chw" } else { "a.chw" }
}

// The call that fails, which the row's call names.
fn fails_of(call: &str) -> Fails {
    Fails {
        shelf: first_if(call == "unread"),
        out: first_if(call == "unwritten"),
        err: first_if(call == "untold"),
    }
}

fn first_if(fails: bool) -> Option<u32> {
    if fails { Some(0) } else { None }
}

fn shown_of(call: &str) -> Shown {
    if call == "accepts" {
        Shown::Nothing
    } else {
        Shown::Text
    }
}

// The words of a command on the file `a.chw`.
fn words(alloc: Global, command: &str) -> Result<Vec<Name>, NoMemory> {
    let mut words = Vec::new(alloc);
    words.push(Name::copy_of(alloc, command.as_bytes())?)?;
    words.push(Name::copy_of(alloc, b"a.chw")?)?;
    Ok(words)
}

// Writes what is answered to `check`, and after it what is answered to `emit` where that is
// something else.
fn put_both(alloc: Global, text: &str, out: &mut Vec<u8>) -> Result<(), Or<Unread>> {
    let mut checked = Vec::new(alloc);
    put_command(alloc, "check", "check", text, &mut checked)?;
    let mut emitted = Vec::new(alloc);
    put_command(alloc, "emit", "emit", text, &mut emitted)?;
    out.extend_from_slice(checked.as_slice())?;
    if checked.as_slice() != emitted.as_slice() {
        row_tables::put(out, "; emit: ")?;
        out.extend_from_slice(emitted.as_slice())?;
    }
    Ok(())
}
