//! The printed lines of a tally.
ghost use Rattle.std.specs.Prelude.{◌≡◌, ◌++◌, IfOk, OnOk};
ghost use Rattle.answers.specs.MakeAnswer.Lines.{line_of, tally_lines};

use crate::make_answer::pieces::{put, put_number};
use crate::make_answer::tally::Tally;
use chw_base::NoMemory;
use std::alloc::Global;

// Appends a line: a word, a number, and a line feed.
fn put_line(out: &mut Vec<u8>, word: &[u8], number: u64) -> Result<(), NoMemory>
    ensures { OnOk result (out.new.items ≡ out.old.items ++ line_of word.now number) }
{
    put(out, word)?;
    put_number(out, number)?;
    put(out, b"\n")?;
    Ok(())
}

/// The five lines of a tally.
pub fn lines(alloc: Global, tally: &Tally) -> Result<Vec<u8>, NoMemory>
    ensures { IfOk result (λ text. text.items ≡ tally_lines tally.now) }
{
    let mut text = Vec::new(alloc);
    put_line(&mut text, b"definitions ", u64::from(tally.definitions))?;
    put_line(&mut text, b"rewrites ", u64::from(tally.rewrites))?;
    put_line(&mut text, b"cells ", tally.cells)?;
    put_line(&mut text, b"registers ", tally.registers)?;
    put_line(&mut text, b"sum ", tally.sum)?;
    Ok(text)
}
