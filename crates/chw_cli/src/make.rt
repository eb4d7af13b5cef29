//! The command `make`: the filter with so many taps, compiled and stepped by its stimulus.
ghost use Rattle.std.specs.Prelude.{◌≡◌, ◌≤◌, [], length, Ok, IfOk, IfErr};
ghost use Rattle.chw_base.specs.declared.limits.TheConstants.{DESCRIPTION_BYTES};
ghost use Rattle.chw_cli.specs.Making.{MadeAnswer, MakeAnswer, TallyAnswer};
ghost use Rattle.chw_cli.specs.Refusals.{RefusesMade, RefusesTally};
ghost use Rattle.chw_terms.specs.Tidy.{IsTidy};
ghost use Rattle.chw_typing.specs.Programs.{IsTyped};
ghost use Rattle.chw_words.specs.declared.taps.TheConstants.{MOST_TAPS};
ghost use Rattle.answers.specs.MakeAnswer.Events.{make_stimulus};
ghost use Rattle.make_text.specs.MakeText.{make_text};

use crate::compile::compiled_of;
use crate::describe::typed_tree;
use crate::refusal::Refusal;
use answers::make_answer::{lines, make_stimulus, tally_of};
use chw_terms::Program;
use chw_words::budget::MOST_BUDGET;
use make_text::laws::made_texts_are_short;
use make_text::make_text;
use std::alloc::Global;

/// The lines of the filter with so many taps, or why there are none.
pub(crate) fn made(alloc: Global, taps: u32) -> Result<Vec<u8>, Refusal>
    requires { taps ≤ MOST_TAPS }
    ensures made { IfOk result (λ bytes. MakeAnswer taps [] (Ok bytes.items)) }
    ensures refused { IfErr result (RefusesMade (make_text taps) (make_stimulus taps)) }
{
    made_texts_are_short();
    let text = make_text(alloc, taps)?;
    let stimulus = make_stimulus(alloc, taps)?;
    made_of(alloc, text.as_slice(), stimulus.as_slice())
}

// The lines of a text and a stimulus that are made.
fn made_of(alloc: Global, text: &[u8], stimulus: &[u8]) -> Result<Vec<u8>, Refusal>
    requires { length text.now ≤ DESCRIPTION_BYTES }
    ensures made { IfOk result (λ bytes. MadeAnswer text.now stimulus.now [] (Ok bytes.items)) }
    ensures refused { IfErr result (RefusesMade text.now stimulus.now) }
{
    let (tree, checked) = typed_tree(alloc, text)?;
    drop(tree);
    tallied(alloc, checked.program(), stimulus)
}

// The lines of a program that is compiled, and stepped by a stimulus.
fn tallied(alloc: Global, program: &Program, stimulus: &[u8]) -> Result<Vec<u8>, Refusal>
    requires tidy { IsTidy program.now }
    requires typed { IsTyped program.now }
    ensures tallied { IfOk result (λ bytes. TallyAnswer program.now stimulus.now (Ok bytes.items)) }
    ensures refused { IfErr result (RefusesTally program.now stimulus.now) }
{
    let made = compiled_of(alloc, program, MOST_BUDGET)?;
    let tally = tally_of(alloc, program, &made, stimulus)?;
    Ok(lines(alloc, &tally)?)
}
