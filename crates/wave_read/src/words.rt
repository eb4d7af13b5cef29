//! The words of a text, one after the other.
ghost use Rattle.std.specs.Prelude.{◌≡◌, ◌+◌, ◌<◌, ◌≤◌, ◌^◌, [], ◌∷◌, length, IfSome, IfNone};
ghost use Rattle.std.specs.List.{after_first, position_or_len};
ghost use Rattle.verilog_text.specs.VTokens.{is_white};
ghost use Rattle.wave_text.specs.Words.{words_from};
ghost use Rattle.wave_read.specs.Shown.{shown};

/// A word, and the place of its first byte.
#[derive(Clone, Copy)]
pub struct Word<'a> {
    pub at: u32,
    pub bytes: &'a [u8],
}

/// What of a text isn't read yet, and its place.
#[derive(Clone, Copy)]
pub struct Left<'a> {
    pub at: u32,
    pub text: &'a [u8],
}

fn is_white(byte: u8) -> bool
    ensures { result ≡ is_white byte }
{
    byte == b' ' || byte == b'\t' || byte == b'\n' || byte == b'\r'
}

/// How many bytes stand before the first white one.
fn piece_len(text: &[u8]) -> usize
    ensures len { result ≡ position_or_len is_white text.now }
    ensures within { result ≤ length text.now }
{
    for (len, byte) in text.iter().enumerate() {
        if is_white(*byte) {
            return len;
        }
    }
    text.len()
}

/// What is left behind a piece of so many bytes and the white byte that ends it.
fn behind(left: Left<'_>, len: usize) -> Left<'_>
    requires len { len ≡ position_or_len is_white left.text.now }
    requires within { len ≤ length left.text.now }
    requires fits { left.at + length left.text.now < 2 ^ 32 }
    ensures text { result.text.now ≡ after_first is_white left.entry.text.now }
    ensures end { result.at + length result.text.now ≡ left.entry.at + length left.entry.text.now }
    ensures place { len < length left.entry.text.now → result.at ≡ left.entry.at + len + 1 }
    ensures shorter { length result.text.now + len ≤ length left.entry.text.now }
{
    if len < left.text.len() {
        Left {
            at: left.at + len as u32 + 1,
            text: &left.text[len + 1..],
        }
    } else {
        Left {
            at: left.at + len as u32,
            text: &[],
        }
    }
}

/// The first word that is left, and what is left behind it.
pub fn next(left: Left<'_>) -> Option<(Word<'_>, Left<'_>)>
    requires { left.at + length left.text.now < 2 ^ 32 }
    ensures some { IfSome result (λ r. words_from left.entry.at left.entry.text.now
        ≡ shown r.0 ∷ words_from r.1.at r.1.text.now) }
    ensures end { IfSome result (λ r.
        r.1.at + length r.1.text.now ≡ left.entry.at + length left.entry.text.now) }
    ensures shorter { IfSome result (λ r. length r.1.text.now < length left.entry.text.now) }
    ensures none { IfNone result (words_from left.entry.at left.entry.text.now ≡ []) }
{
    let mut rest = left;
    while !rest.text.is_empty() {
        let len = piece_len(rest.text);
        let word = Word {
            at: rest.at,
            bytes: &rest.text[..len],
        };
        rest = behind(rest, len);
        if len > 0 {
            return Some((word, rest));
        }
    }
    None
}
