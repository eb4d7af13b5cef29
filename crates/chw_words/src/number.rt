//! Numbers among the words.
ghost use Rattle.std.specs.Prelude.{ℕ, MatchOption};
ghost use Rattle.chw_words.specs.Commands.{IsNumber};

/// The number that a word of at most so many decimal digits is, where it is at most `most`.
pub(crate) fn read_number(word: &str, most_digits: usize, most: u32) -> Option<u32>
    ensures { MatchOption result ((n : ℕ) → IsNumber word.now most_digits most n → ⊥) (IsNumber word.now most_digits most) }
{
    let signed = word.as_bytes().first() == Some(&b'+');
    if signed || word.len() > most_digits {
        return None;
    }
    match word.parse::<u32>() {
        Ok(number) if number <= most => Some(number),
        _ => None,
    }
}
