//! The words of a piece of text, which blanks part.
ghost use Rattle.std.specs.Prelude.{◌≡◌, ◌+◌, ◌<◌, ◌≤◌, [], ◌∷◌, ◌++◌, length, IfSome, IfNone};
ghost use Rattle.std.specs.Prelude.{OnOk};
ghost use Rattle.std.specs.List.{after_first, position_or_len};
ghost use Rattle.blif_text.specs.Lines.{is_blank, words_in};
ghost use Rattle.stimulus.specs.Texts.{texts};

use chw_base::NoMemory;

fn is_blank(byte: u8) -> bool
    ensures { result ≡ is_blank byte }
{
    byte == b' ' || byte == b'\t'
}

/// How many bytes stand before the first blank.
fn word_len(text: &[u8]) -> usize
    ensures len { result ≡ position_or_len is_blank text.now }
    ensures within { result ≤ length text.now }
{
    for (len, byte) in text.iter().enumerate() {
        if is_blank(*byte) {
            return len;
        }
    }
    text.len()
}

/// What stands behind so many bytes and the blank that ends them.
fn behind(text: &[u8], len: usize) -> &[u8]
    requires len { len ≡ position_or_len is_blank text.now }
    requires within { len ≤ length text.now }
    ensures text { result.now ≡ after_first is_blank text.now }
    ensures shorter { length result.now + len ≤ length text.now }
    ensures blank { len ≡ 0 → 0 < length text.now → length result.now < length text.now }
{
    if len < text.len() {
        &text[len + 1..]
    } else {
        &[]
    }
}

/// What of a piece isn't read yet.
#[derive(Clone, Copy)]
struct Rest<'a> {
    text: &'a [u8],
}

/// The first word, and what stands behind it.
fn next_word(text: &[u8]) -> Option<(&[u8], &[u8])>
    ensures some { IfSome result (λ r. words_in text.now ≡ r.0.now ∷ words_in r.1.now) }
    ensures shorter { IfSome result (λ r. length r.1.now < length text.now) }
    ensures none { IfNone result (words_in text.now ≡ []) }
{
    let mut rest = Rest { text };
    while !rest.text.is_empty() {
        let len = word_len(rest.text);
        let word = &rest.text[..len];
        let left = behind(rest.text, len);
        if len > 0 {
            return Some((word, left));
        }
        rest = Rest { text: left };
    }
    None
}

/// Appends the words of a piece.
pub fn put_words<'a>(text: &'a [u8], words: &mut Vec<&'a [u8]>) -> Result<(), NoMemory>
    ensures { OnOk result (texts words.new.items ≡ texts words.old.items ++ words_in text.now) }
{
    let mut rest = Rest { text };
    while let Some((word, left)) = next_word(rest.text) {
        words.push(word)?;
        rest = Rest { text: left };
    }
    Ok(())
}
