//! Which words may stand in a place.
ghost use Rattle.std.specs.Prelude.{◌↔◌, ◌≡◌, ℕ, IsTrue};
ghost use Rattle.chw_base.specs.Names.{AllOf};
ghost use Rattle.verilog_text.specs.VForms.{begins_word};
ghost use Rattle.wave_read.specs.Slots.{Fits};
ghost use Rattle.wave_text.specs.VcdText.{IsCode, IsName, IsWidth, is_visible};

use crate::numbers::width_of;
use name_forms::forms::are_name_bytes;

/// What may stand in a place: one word, or any word of a form.
#[derive(Clone, Copy)]
pub enum Slot {
    /// `$timescale`
    Timescale,
    /// `1`
    One,
    /// `ns`
    Ns,
    /// `$end`
    End,
    /// `$scope`
    Scope,
    /// `module`
    Module,
    /// `chw_top`
    Top,
    /// `wire`
    Wire,
    /// `$enddefinitions`
    EndDefinitions,
    /// A width.
    Width,
    /// A code.
    Code,
    /// A name.
    Name,
}

/// Whether the bytes are this word.
pub fn is_word(bytes: &[u8], word: &[u8]) -> bool
    ensures { IsTrue result ↔ bytes.now ≡ word.now }
{
    bytes == word
}

fn is_visible(byte: u8) -> bool
    ensures { result ≡ is_visible byte }
{
    byte >= 33 && byte <= 126
}

fn begins_word(byte: u8) -> bool
    ensures { result ≡ begins_word byte }
{
    (byte >= b'a' && byte <= b'z') || (byte >= b'A' && byte <= b'Z') || byte == b'_'
}

fn are_visible(bytes: &[u8]) -> bool
    ensures { IsTrue result ↔ AllOf is_visible bytes.now }
{
    for byte in bytes {
        if !is_visible(*byte) {
            return false;
        }
    }
    true
}

/// Whether the bytes are a code.
pub fn is_code(bytes: &[u8]) -> bool
    ensures { IsTrue result ↔ IsCode bytes.now }
{
    match bytes {
        [] => false,
        [first, rest @ ..] => is_visible(*first) && are_visible(rest),
    }
}

fn is_name(bytes: &[u8]) -> bool
    ensures { IsTrue result ↔ IsName bytes.now }
{
    match bytes {
        [] => false,
        [first, rest @ ..] => begins_word(*first) && are_name_bytes(rest),
    }
}

fn is_width(bytes: &[u8]) -> bool
    ensures { IsTrue result ↔ ((width : ℕ) × IsWidth bytes.now width) }
{
    width_of(bytes).is_some()
}

/// Whether the bytes may stand in the place.
pub fn fits(slot: Slot, bytes: &[u8]) -> bool
    ensures { IsTrue result ↔ Fits slot bytes.now }
{
    match slot {
        Slot::Timescale => is_word(bytes, b"$timescale"),
        Slot::One => is_word(bytes, b"1"),
        Slot::Ns => is_word(bytes, b"ns"),
        Slot::End => is_word(bytes, b"$end"),
        Slot::Scope => is_word(bytes, b"$scope"),
        Slot::Module => is_word(bytes, b"module"),
        Slot::Top => is_word(bytes, b"chw_top"),
        Slot::Wire => is_word(bytes, b"wire"),
        Slot::EndDefinitions => is_word(bytes, b"$enddefinitions"),
        Slot::Width => is_width(bytes),
        Slot::Code => is_code(bytes),
        Slot::Name => is_name(bytes),
    }
}
