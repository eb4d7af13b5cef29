//! The form of a line.
ghost use Rattle.std.specs.Prelude.{◌≡◌, ◌↔◌, length, map, IfOk, IfSome, IfNone, IsTrue};
ghost use Rattle.std.specs.List.{AllByRecursion};
ghost use Rattle.name_tables.specs.Names.{AreDistinct};
ghost use Rattle.stimulus.specs.Texts.{before, behind, has, texts};
ghost use Rattle.stimulus.specs.Stimulus.{IsApart, IsBody, IsDomain, HasCount, body_of, count_of, domains_of, parts_in, parts_of};
ghost use Rattle.stimulus.specs.Words.{AreWordsOf, HasDigits, HaveWords, IsPair};

use crate::cut::{before, cut, split_at};
use crate::words::{count, has_digits, is_domain, is_pair};
use chw_base::NoMemory;
use name_tables::Declared;
use std::alloc::Global;

/// How many equal events a line stands for, and the line without that.
#[derive(Clone, Copy)]
pub struct Counted<'a> {
    pub count: u32,
    pub body: &'a [u8],
}

/// The count of a line, where it has one or needs none.
pub fn without_count(line: &[u8]) -> Option<Counted<'_>>
    ensures form { IfSome result (λ _. HasCount line.now) }
    ensures count { IfSome result (λ c. c.count ≡ count_of line.now) }
    ensures body { IfSome result (λ c. c.body.now ≡ body_of line.now) }
    ensures none { IfNone result (HasCount line.now → ⊥) }
{
    let Some((digits, rest)) = cut(line, b'*') else {
        return Some(Counted {
            count: 1,
            body: line,
        });
    };
    let count = count(digits)?;
    match rest {
        [b' ', body @ ..] => Some(Counted { count, body }),
        _ => None,
    }
}

/// The domains and the parts of a line.
#[derive(Drop)]
pub struct Words<'a> {
    pub domains: Vec<&'a [u8]>,
    pub parts: Vec<&'a [u8]>,
}

/// The parts behind a colon, where a space stands before them.
fn parts<'a>(alloc: Global, text: &'a [u8]) -> Result<Option<Vec<&'a [u8]>>, NoMemory>
    ensures apart { IfOk result (λ r. IfSome r (λ _. IsApart text.now)) }
    ensures parts { IfOk result (λ r. IfSome r (λ v. texts v.items ≡ parts_in text.now)) }
    ensures none { IfOk result (λ r. IfNone r (IsApart text.now → ⊥)) }
{
    match text {
        [] => Ok(Some(Vec::new(alloc))),
        [b' ', rest @ ..] => Ok(Some(split_at(alloc, rest, b' ')?)),
        _ => Ok(None),
    }
}

/// The domains and the parts of a line without its count, where they stand around a colon.
fn around_colon<'a>(alloc: Global, body: &'a [u8]) -> Result<Option<Words<'a>>, NoMemory>
    ensures some { IfOk result (λ r. IfSome r (λ w. AreWordsOf body.now w)) }
    ensures none { IfOk result (λ r. IfNone r (IsTrue (has 58 body.now) → IsApart (behind 58 body.now) → ⊥)) }
{
    let Some((domains, rest)) = cut(body, b':') else {
        return Ok(None);
    };
    let Some(parts) = parts(alloc, rest)? else {
        return Ok(None);
    };
    let domains = split_at(alloc, domains, b' ')?;
    Ok(Some(Words { domains, parts }))
}

fn are_domains(domains: &[&[u8]]) -> bool
    ensures { IsTrue result ↔ AllByRecursion IsDomain (texts domains.now) }
{
    for domain in domains {
        if !is_domain(domain) {
            return false;
        }
    }
    true
}

fn are_pairs(parts: &[&[u8]]) -> bool
    ensures { IsTrue result ↔ AllByRecursion IsPair (texts parts.now) }
{
    for part in parts {
        if !is_pair(part) {
            return false;
        }
    }
    true
}

/// Whether what stands behind the `=` of each part is hexadecimal.
pub fn have_digits(parts: &[&[u8]]) -> bool
    ensures { IsTrue result ↔ AllByRecursion HasDigits (texts parts.now) }
{
    for part in parts {
        if !has_digits(part) {
            return false;
        }
    }
    true
}

/// Whether no two domains have one name.
fn are_distinct(alloc: Global, domains: &[&[u8]]) -> Result<bool, NoMemory>
    ensures { IfOk result (λ yes. IsTrue yes ↔ AreDistinct (map (before 33) (texts domains.now))) }
{
    let mut names = Declared::new(alloc);
    for domain in domains {
        if !names.declare(before(domain, b'!'))? {
            return Ok(false);
        }
    }
    Ok(true)
}

/// Whether the words are a line's of so many inputs, whatever stands behind the `=` of its parts.
fn have_form(alloc: Global, words: &Words, inputs: usize) -> Result<bool, NoMemory>
    ensures { IfOk result (λ yes. IsTrue yes ↔ HaveWords inputs (texts words.now.domains.items) (texts words.now.parts.items)) }
{
    Ok(
        words.parts.len() == inputs
            && are_domains(&words.domains)
            && are_pairs(&words.parts)
            && are_distinct(alloc, &words.domains)?,
    )
}

/// The words of a line without its count, where it is of the form if its parts have hexadecimal digits.
///
/// These are not tested, since to read them tests them.
pub fn words_of<'a>(
    alloc: Global,
    body: &'a [u8],
    inputs: usize,
) -> Result<Option<Words<'a>>, NoMemory>
    ensures form { IfOk result (λ r. IfSome r (λ w. AllByRecursion HasDigits (texts w.parts.items) → IsBody inputs body.now)) }
    ensures words { IfOk result (λ r. IfSome r (λ w. AreWordsOf body.now w)) }
    ensures each { IfOk result (λ r. IfSome r (λ w. length w.parts.items ≡ inputs)) }
    ensures none { IfOk result (λ r. IfNone r (IsBody inputs body.now → ⊥)) }
{
    let Some(words) = around_colon(alloc, body)? else {
        return Ok(None);
    };
    if have_form(alloc, &words, inputs)? {
        Ok(Some(words))
    } else {
        Ok(None)
    }
}
