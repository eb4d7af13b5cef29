//! Texts cut at a byte.
ghost use Rattle.std.specs.Prelude.{◌≡◌, false, IfOk, IfSome, IfNone, IsTrue};
ghost use Rattle.std.specs.List.{position};
ghost use Rattle.stimulus.specs.Texts.{is, has, before, behind, split_at, texts};

use chw_base::NoMemory;
use memchr::memchr;
use std::alloc::Global;

/// The place of the first such byte.
fn place(text: &[u8], byte: u8) -> Option<usize>
    ensures { result ≡ position (is byte) text.now }
{
    memchr(byte, text)
}

/// What stands before the first such byte and behind it, where there is one.
pub fn cut(text: &[u8], byte: u8) -> Option<(&[u8], &[u8])>
    ensures has { IfSome result (λ _. IsTrue (has byte text.now)) }
    ensures before { IfSome result (λ r. r.0.now ≡ before byte text.now) }
    ensures behind { IfSome result (λ r. r.1.now ≡ behind byte text.now) }
    ensures none { IfNone result (has byte text.now ≡ false) }
{
    let place = place(text, byte)?;
    Some((&text[..place], &text[place + 1..]))
}

/// Whether there is such a byte.
pub fn has(text: &[u8], byte: u8) -> bool
    ensures { result ≡ has byte text.now }
{
    cut(text, byte).is_some()
}

/// What stands before the first such byte, or all where there is none.
pub fn before(text: &[u8], byte: u8) -> &[u8]
    ensures { result.now ≡ before byte text.now }
{
    match cut(text, byte) {
        Some((before, _)) => before,
        None => text,
    }
}

/// What stands behind the first such byte, or nothing where there is none.
pub fn behind(text: &[u8], byte: u8) -> &[u8]
    ensures { result.now ≡ behind byte text.now }
{
    match cut(text, byte) {
        Some((_, behind)) => behind,
        None => &[],
    }
}

/// What of a text isn't split yet.
#[derive(Clone, Copy)]
struct Left<'a> {
    text: &'a [u8],
}

/// The texts between these bytes.
pub fn split_at<'a>(alloc: Global, text: &'a [u8], byte: u8) -> Result<Vec<&'a [u8]>, NoMemory>
    ensures { IfOk result (λ parts. texts parts.items ≡ split_at byte text.now) }
{
    let mut parts = Vec::new(alloc);
    let mut left = Left { text };
    while let Some((part, rest)) = cut(left.text, byte) {
        parts.push(part)?;
        left.text = rest;
    }
    parts.push(left.text)?;
    Ok(parts)
}
