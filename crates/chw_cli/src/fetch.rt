//! The texts of the files that the words name.
ghost use Rattle.std.specs.Prelude.{◌≡◌, ℕ, List, Ok, IfOk, IfErr, MatchOption};
ghost use Rattle.std.specs.Str.{IsUtf8};
ghost use Rattle.chw_base.specs.declared.limits.TheConstants.{STIMULUS_BYTES};
ghost use Rattle.chw_base.specs.declared.shelf.Fetched.TheVariants.{TooLong, Whole};
ghost use Rattle.chw_cli.specs.Fetching.{IsTold, LacksFile, ReadsNothing};
ghost use Rattle.chw_cli.specs.Reads.{Gets, stimulus_in};

use crate::refusal::Refusal;
use chw_base::limits::STIMULUS_BYTES;
use chw_base::{Fetched, Name, Or, Shelf};
use std::alloc::Global;
use stimulus::{StimCode, StimFault};

/// The text of a file, and none where it has more bytes than the limit.
pub(crate) fn text_of<F: Shelf>(
    alloc: Global,
    file: &Name,
    limit: u32,
    shelf: &mut F,
) -> Result<Option<Vec<u8>>, Refusal>
    requires { IsUtf8 file.now }
    ensures text { IfOk result (λ found. MatchOption found
        ((bytes : List ℕ) × Gets F.fetch_gives F.told F.faults file.now limit (Ok TooLong) bytes shelf.old shelf.new)
        (λ text. Gets F.fetch_gives F.told F.faults file.now limit (Ok Whole) text.items shelf.old shelf.new)) }
    ensures nothing { IfErr result (ReadsNothing F.fetch_gives F.told F.faults file.now limit shelf.old shelf.new) }
{
    let mut text = Vec::new(alloc);
    match shelf.fetch(alloc, as_text(file), limit, &mut text) {
        Ok(Fetched::Whole) => Ok(Some(text)),
        Ok(Fetched::TooLong) => Ok(None),
        Ok(Fetched::Absent) => Err(unread(alloc, file)),
        Err(Or::Fault(_)) => Err(unread(alloc, file)),
        Err(Or::Memory) => Err(Refusal::Memory),
    }
}

/// The text of a stimulus.
pub(crate) fn stimulus_text<F: Shelf>(
    alloc: Global,
    file: &Name,
    shelf: &mut F,
) -> Result<Vec<u8>, Refusal>
    requires { IsUtf8 file.now }
    ensures text { IfOk result (λ text. Gets F.fetch_gives F.told F.faults file.now STIMULUS_BYTES (Ok Whole) text.items shelf.old shelf.new) }
    ensures refused { IfErr result (LacksFile F.fetch_gives F.told F.faults (stimulus_in file.now) shelf.old shelf.new) }
{
    let Some(text) = text_of(alloc, file, STIMULUS_BYTES, shelf)? else {
        return Err(Refusal::Stimulus(StimFault {
            code: StimCode::S05,
            line: 0,
        }));
    };
    Ok(text)
}

/// A word that is UTF-8 text, as such.
fn as_text(word: &Name) -> &str
    requires { IsUtf8 word.now }
    ensures { result.now ≡ word.now }
{
    match str::from_utf8(word.as_slice()) {
        Ok(text) => text,
        Err(_) => unreachable!(),
    }
}

/// The refusal of a file that couldn't be read.
fn unread(alloc: Global, file: &Name) -> Refusal
    ensures { IsTold file.now result }
{
    match Name::copy_of(alloc, file.as_slice()) {
        Ok(name) => Refusal::Read(name),
        Err(_) => Refusal::Memory,
    }
}
