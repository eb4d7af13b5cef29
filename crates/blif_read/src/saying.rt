//! What the words of a line say.
ghost use Rattle.std.specs.Prelude.{◌≡◌, ◌↔◌, false, [], ◌∷◌, Bool, IsTrue, codes};
ghost use Rattle.std.specs.Prelude.{IfOk, IfSome, IfNone};
ghost use Rattle.std.specs.List.{AllByRecursion};
ghost use Rattle.bit_laws.specs.Gates.{digit_of};
ghost use Rattle.blif_text.specs.Statements.{IsName, Says, Statement as Spoken, is_mark};
ghost use Rattle.blif_read.specs.Keywords.{is_keyword, keyword_text};
ghost use Rattle.blif_read.specs.Shown.{statement_of};
ghost use Rattle.chw_base.specs.Names.{AllOf};
ghost use Rattle.stimulus.specs.Texts.{texts};

use crate::statement::Statement;
use chw_base::NoMemory;
use name_forms::forms::{are_name_bytes, is_name_byte};
use std::alloc::Global;

/// A word with which a line begins that is no row.
#[derive(Clone, Copy)]
pub enum Keyword {
    ModelWord,
    InputsWord,
    OutputsWord,
    NamesWord,
    LatchWord,
    EndWord,
}

/// The keyword of these bytes.
fn keyword_of(word: &[u8]) -> Option<Keyword>
    ensures some { IfSome result (λ keyword. word.now ≡ keyword_text keyword) }
    ensures none { IfNone result (is_keyword word.now ≡ false) }
{
    match word {
        b".model" => Some(Keyword::ModelWord),
        b".inputs" => Some(Keyword::InputsWord),
        b".outputs" => Some(Keyword::OutputsWord),
        b".names" => Some(Keyword::NamesWord),
        b".latch" => Some(Keyword::LatchWord),
        b".end" => Some(Keyword::EndWord),
        _ => None,
    }
}

fn is_word(bytes: &[u8], word: &[u8]) -> bool
    ensures { IsTrue result ↔ bytes.now ≡ word.now }
{
    bytes == word
}

fn is_mark(byte: u8) -> bool
    ensures { result ≡ is_mark byte }
{
    byte == b'0' || byte == b'1' || byte == b'-'
}

fn are_marks(bytes: &[u8]) -> bool
    ensures { IsTrue result ↔ AllOf is_mark bytes.now }
{
    for byte in bytes {
        if !is_mark(*byte) {
            return false;
        }
    }
    true
}

fn is_name(word: &[u8]) -> bool
    ensures { IsTrue result ↔ IsName word.now }
{
    match word {
        [] => false,
        [first, rest @ ..] => is_name_byte(*first) && are_name_bytes(rest),
    }
}

fn are_names(words: &[&[u8]]) -> bool
    ensures { IsTrue result ↔ AllByRecursion IsName (texts words.now) }
{
    for word in words {
        if !is_name(word) {
            return false;
        }
    }
    true
}

/// Whether the words are this one alone.
fn is_only(words: &[&[u8]], word: &[u8]) -> bool
    ensures { IsTrue result ↔ texts words.now ≡ word.now ∷ [] }
{
    if words.len() != 1 {
        return false;
    }
    is_word(words[0], word)
}

/// The words behind `.model`.
fn model<'a>(others: &[&'a [u8]]) -> Option<Statement<'a>>
    ensures some { IfSome result (λ s. Says (codes ".model" ∷ texts others.now) (statement_of s)) }
    ensures none { IfNone result
        ((s : Spoken) → Says (codes ".model" ∷ texts others.now) s → ⊥) }
{
    if is_only(others, b"chw_top") {
        Some(Statement::Model)
    } else {
        None
    }
}

/// The words behind `.inputs`.
fn inputs<'a>(alloc: Global, others: &[&'a [u8]]) -> Result<Option<Statement<'a>>, NoMemory>
    ensures some { IfOk result (λ r. IfSome r (λ s.
        Says (codes ".inputs" ∷ texts others.now) (statement_of s))) }
    ensures none { IfOk result (λ r. IfNone r
        ((s : Spoken) → Says (codes ".inputs" ∷ texts others.now) s → ⊥)) }
{
    if !are_names(others) {
        return Ok(None);
    }
    let names = Vec::from_slice(alloc, others)?;
    Ok(Some(Statement::Inputs(names)))
}

/// The words behind `.outputs`.
fn outputs<'a>(alloc: Global, others: &[&'a [u8]]) -> Result<Option<Statement<'a>>, NoMemory>
    ensures some { IfOk result (λ r. IfSome r (λ s.
        Says (codes ".outputs" ∷ texts others.now) (statement_of s))) }
    ensures none { IfOk result (λ r. IfNone r
        ((s : Spoken) → Says (codes ".outputs" ∷ texts others.now) s → ⊥)) }
{
    if !are_names(others) {
        return Ok(None);
    }
    let names = Vec::from_slice(alloc, others)?;
    Ok(Some(Statement::Outputs(names)))
}

/// The words behind `.names`, of which the last is driven.
fn table<'a>(alloc: Global, others: &[&'a [u8]]) -> Result<Option<Statement<'a>>, NoMemory>
    ensures some { IfOk result (λ r. IfSome r (λ s.
        Says (codes ".names" ∷ texts others.now) (statement_of s))) }
    ensures none { IfOk result (λ r. IfNone r
        ((s : Spoken) → Says (codes ".names" ∷ texts others.now) s → ⊥)) }
{
    if others.is_empty() {
        return Ok(None);
    }
    if !are_names(others) {
        return Ok(None);
    }
    let last = others.len() - 1;
    let drives = others[last];
    let reads = Vec::from_slice(alloc, &others[..last])?;
    Ok(Some(Statement::Table { reads, drives }))
}

/// The bit of a digit.
fn bit_of(word: &[u8]) -> Option<bool>
    ensures some { IfSome result (λ bit. word.now ≡ digit_of bit ∷ []) }
    ensures none { IfNone result ((bit : Bool) → word.now ≡ digit_of bit ∷ [] → ⊥) }
{
    if is_word(word, b"0") {
        return Some(false);
    }
    if is_word(word, b"1") {
        return Some(true);
    }
    None
}

/// Whether these three are names.
fn are_three_names(a: &[u8], b: &[u8], c: &[u8]) -> bool
    ensures { IsTrue result ↔ (IsName a.now × IsName b.now × IsName c.now) }
{
    is_name(a) && is_name(b) && is_name(c)
}

/// The five words behind `.latch`.
fn latch_of<'a>(
    takes: &'a [u8],
    drives: &'a [u8],
    edge: &[u8],
    clock: &'a [u8],
    initial: &[u8],
) -> Option<Statement<'a>>
    ensures some { IfSome result (λ s. Says
        (codes ".latch" ∷ takes.now ∷ drives.now ∷ edge.now ∷ clock.now ∷ initial.now ∷ [])
        (statement_of s)) }
    ensures none { IfNone result ((s : Spoken) → Says
        (codes ".latch" ∷ takes.now ∷ drives.now ∷ edge.now ∷ clock.now ∷ initial.now ∷ [])
        s → ⊥) }
{
    if !is_word(edge, b"re") {
        return None;
    }
    if !are_three_names(takes, drives, clock) {
        return None;
    }
    match bit_of(initial) {
        Some(initial) => Some(Statement::Latch {
            takes,
            drives,
            clock,
            initial,
        }),
        None => None,
    }
}

/// The words behind `.latch`.
fn latch<'a>(others: &[&'a [u8]]) -> Option<Statement<'a>>
    ensures some { IfSome result (λ s. Says (codes ".latch" ∷ texts others.now) (statement_of s)) }
    ensures none { IfNone result
        ((s : Spoken) → Says (codes ".latch" ∷ texts others.now) s → ⊥) }
{
    if others.len() != 5 {
        return None;
    }
    latch_of(others[0], others[1], others[2], others[3], others[4])
}

/// The words behind `.end`.
fn end<'a>(others: &[&'a [u8]]) -> Option<Statement<'a>>
    ensures some { IfSome result (λ s. Says (codes ".end" ∷ texts others.now) (statement_of s)) }
    ensures none { IfNone result
        ((s : Spoken) → Says (codes ".end" ∷ texts others.now) s → ⊥) }
{
    if others.is_empty() {
        Some(Statement::End)
    } else {
        None
    }
}

/// A row without marks, of which the one word is `1`.
fn empty_row<'a>(word: &'a [u8]) -> Option<Statement<'a>>
    requires { is_keyword word.now ≡ false }
    ensures some { IfSome result (λ s. Says (word.now ∷ []) (statement_of s)) }
    ensures none { IfNone result ((s : Spoken) → Says (word.now ∷ []) s → ⊥) }
{
    if is_word(word, b"1") {
        Some(Statement::Row(&[]))
    } else {
        None
    }
}

/// A row with marks, and `1` behind them.
fn marked_row<'a>(marks: &'a [u8], others: &[&'a [u8]]) -> Option<Statement<'a>>
    requires word { is_keyword marks.now ≡ false }
    requires some { texts others.now ≡ [] → ⊥ }
    ensures some { IfSome result (λ s. Says (marks.now ∷ texts others.now) (statement_of s)) }
    ensures none { IfNone result ((s : Spoken) → Says (marks.now ∷ texts others.now) s → ⊥) }
{
    if marks.is_empty() {
        return None;
    }
    if !is_only(others, b"1") {
        return None;
    }
    if !are_marks(marks) {
        return None;
    }
    Some(Statement::Row(marks))
}

/// The words of a row.
fn row<'a>(first: &'a [u8], others: &[&'a [u8]]) -> Option<Statement<'a>>
    requires { is_keyword first.now ≡ false }
    ensures some { IfSome result (λ s. Says (first.now ∷ texts others.now) (statement_of s)) }
    ensures none { IfNone result ((s : Spoken) → Says (first.now ∷ texts others.now) s → ⊥) }
{
    if others.is_empty() {
        empty_row(first)
    } else {
        marked_row(first, others)
    }
}

/// The words behind a keyword.
fn behind_keyword<'a>(
    alloc: Global,
    keyword: Keyword,
    others: &[&'a [u8]],
) -> Result<Option<Statement<'a>>, NoMemory>
    ensures some { IfOk result (λ r. IfSome r (λ s.
        Says (keyword_text keyword ∷ texts others.now) (statement_of s))) }
    ensures none { IfOk result (λ r. IfNone r
        ((s : Spoken) → Says (keyword_text keyword ∷ texts others.now) s → ⊥)) }
{
    match keyword {
        Keyword::ModelWord => Ok(model(others)),
        Keyword::InputsWord => inputs(alloc, others),
        Keyword::OutputsWord => outputs(alloc, others),
        Keyword::NamesWord => table(alloc, others),
        Keyword::LatchWord => Ok(latch(others)),
        Keyword::EndWord => Ok(end(others)),
    }
}

/// What a first word and those behind it say, if anything.
fn said_by<'a>(
    alloc: Global,
    first: &'a [u8],
    others: &[&'a [u8]],
) -> Result<Option<Statement<'a>>, NoMemory>
    ensures some { IfOk result (λ r. IfSome r (λ s.
        Says (first.now ∷ texts others.now) (statement_of s))) }
    ensures none { IfOk result (λ r. IfNone r
        ((s : Spoken) → Says (first.now ∷ texts others.now) s → ⊥)) }
{
    match keyword_of(first) {
        Some(keyword) => behind_keyword(alloc, keyword, others),
        None => Ok(row(first, others)),
    }
}

/// What words say, if anything.
pub fn statement_of<'a>(
    alloc: Global,
    words: &[&'a [u8]],
) -> Result<Option<Statement<'a>>, NoMemory>
    ensures some { IfOk result (λ r. IfSome r (λ s. Says (texts words.now) (statement_of s))) }
    ensures none { IfOk result (λ r. IfNone r
        ((s : Spoken) → Says (texts words.now) s → ⊥)) }
{
    if words.is_empty() {
        return Ok(None);
    }
    said_by(alloc, words[0], &words[1..])
}
