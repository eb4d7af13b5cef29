//! The lines of a text: their words, which several lines may have together, and their numbers.
ghost use Rattle.std.specs.Prelude.{◌≡◌, ◌+◌, ◌<◌, ◌≤◌, ◌^◌, [], ◌∷◌, length, IfOk, IfSome, IfNone};
ghost use Rattle.blif_text.specs.Lines.{content, goes_on, put_line};
ghost use Rattle.blif_read.specs.Shown.{end_of, line_of, lines_left};
ghost use Rattle.stimulus.specs.Texts.{before, behind, lines_of, texts};

use crate::words::put_words;
use chw_base::NoMemory;
use std::alloc::Global;
use stimulus::cut::{before, cut, has};

/// What of a text isn't read yet, and the number of the line with which it begins.
#[derive(Clone, Copy)]
pub struct Left<'a> {
    pub text: &'a [u8],
    pub number: u32,
}

/// Words, and the number of the line in which they begin.
#[derive(Drop)]
pub struct Line<'a> {
    pub number: u32,
    pub words: Vec<&'a [u8]>,
}

/// Whether the line goes on in the next one.
fn goes_on(line: &[u8]) -> bool
    ensures { result ≡ goes_on line.now }
{
    if line.is_empty() {
        return false;
    }
    line[line.len() - 1] == b'\\' && !has(line, b'#')
}

/// What the words of a line stand in.
#[tactic(auto, using(crate::proofs::Joining::goes_on_some))]
fn content(line: &[u8]) -> &[u8]
    ensures { result.now ≡ content line.now }
{
    if goes_on(line) {
        &line[..line.len() - 1]
    } else {
        before(line, b'#')
    }
}

/// The first line, and what stands behind its line feed.
fn first_line(text: &[u8]) -> (&[u8], &[u8])
    ensures line { result.0.now ≡ before 10 text.now }
    ensures rest { result.1.now ≡ behind 10 text.now }
{
    match cut(text, b'\n') {
        Some((line, rest)) => (line, rest),
        None => (text, &[]),
    }
}

/// The words of the first line and of those in which it goes on, and what is left behind them.
fn join_lines<'a>(alloc: Global, left: Left<'a>) -> Result<(Vec<&'a [u8]>, Left<'a>), NoMemory>
    requires some { 0 < length left.text.now }
    requires fits { end_of left < 2 ^ 32 }
    ensures lines { IfOk result (λ r. lines_left left.entry
        ≡ put_line left.entry.number (texts r.0.items) (lines_left r.1)) }
    ensures end { IfOk result (λ r. end_of r.1 ≤ end_of left.entry) }
    ensures shorter { IfOk result (λ r. length r.1.text.now < length left.entry.text.now) }
{
    let mut words = Vec::new(alloc);
    let mut rest = left;
    while !rest.text.is_empty() {
        let (line, behind) = first_line(rest.text);
        put_words(content(line), &mut words)?;
        rest = Left {
            text: behind,
            number: rest.number + 1,
        };
        if !goes_on(line) {
            return Ok((words, rest));
        }
    }
    Ok((words, rest))
}

/// The first line with words, and what is left behind it.
pub fn next_line<'a>(
    alloc: Global,
    left: Left<'a>,
) -> Result<Option<(Line<'a>, Left<'a>)>, NoMemory>
    requires { end_of left < 2 ^ 32 }
    ensures some { IfOk result (λ r. IfSome r (λ p.
        lines_left left.entry ≡ line_of p.0 ∷ lines_left p.1)) }
    ensures end { IfOk result (λ r. IfSome r (λ p. end_of p.1 ≤ end_of left.entry)) }
    ensures shorter { IfOk result (λ r. IfSome r (λ p.
        length p.1.text.now < length left.entry.text.now)) }
    ensures none { IfOk result (λ r. IfNone r (lines_left left.entry ≡ [])) }
{
    let mut rest = left;
    while !rest.text.is_empty() {
        let (words, behind) = join_lines(alloc, rest)?;
        let number = rest.number;
        if !words.is_empty() {
            return Ok(Some((Line { number, words }, behind)));
        }
        rest = behind;
    }
    Ok(None)
}

/// How many lines a text has.
pub fn line_count(text: &[u8]) -> u32
    requires { length text.now < 2 ^ 32 }
    ensures { result ≡ length (lines_of text.now) }
{
    let mut rest = Left { text, number: 0 };
    while !rest.text.is_empty() {
        let (_, behind) = first_line(rest.text);
        rest = Left {
            text: behind,
            number: rest.number + 1,
        };
    }
    rest.number
}
