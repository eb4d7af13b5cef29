//! What is asked of the words before the commands are looked for.
ghost use Rattle.std.specs.Prelude.{◌≡◌, ◌||◌, not, map, count_by, IfOk, MatchOption};
ghost use Rattle.std.specs.List.{list_all};
ghost use Rattle.chw_words.specs.Commands.{is_option as begins_with_minus};
ghost use Rattle.chw_words.specs.Form.{AreTexts, has_form as words_have_form, is_budget_option as is_budget_word};

use chw_base::{Name, NoMemory};
use std::alloc::Global;

/// The words as texts, and none where one isn't UTF-8.
pub(crate) fn texts(alloc: Global, words: &[Name]) -> Result<Option<Vec<&str>>, NoMemory>
    ensures { IfOk result (λ texts. MatchOption texts (AreTexts words.now → ⊥) (λ v. AreTexts words.now × (map (λ s. s.now) v.items ≡ words.now))) }
{
    let mut texts = Vec::new(alloc);
    for word in words {
        match str::from_utf8(word.as_slice()) {
            Ok(text) => texts.push(text)?,
            Err(_) => return Ok(None),
        }
    }
    Ok(Some(texts))
}

// Whether the word begins with `-`.
fn is_option(word: &[u8]) -> bool
    ensures { result ≡ begins_with_minus word.now }
{
    word.first() == Some(&b'-')
}

// Whether the word is `--budget`, or `--budget=` with what follows.
fn is_budget_option(word: &[u8]) -> bool
    ensures { result ≡ is_budget_word word.now }
{
    word == "--budget".as_bytes() || word.starts_with("--budget=".as_bytes())
}

// How many words begin with `-`.
fn option_count(words: &[&str]) -> usize
    ensures { result ≡ count_by (λ s. begins_with_minus s.now) words.now }
{
    words
        .iter()
        .filter(|word| is_option(word.as_bytes()))
        .count()
}

// Whether no word begins with `-` but a budget's.
fn are_budget_options(words: &[&str]) -> bool
    ensures { result
        ≡ list_all (λ s. not (begins_with_minus s.now) || is_budget_word s.now) words.now }
{
    words.iter().all(|word| !is_option(word.as_bytes()) || is_budget_option(word.as_bytes()))
}

/// Whether at most one word begins with `-`, and only a budget's.
#[tactic(auto, using(crate::proofs::Forms::has_form_of_texts))]
pub(crate) fn has_form(words: &[&str]) -> bool
    ensures { result ≡ words_have_form (map (λ s. s.now) words.now) }
{
    option_count(words) <= 1 && are_budget_options(words)
}
