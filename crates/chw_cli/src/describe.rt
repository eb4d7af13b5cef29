//! The description in a file: one that is typed.
ghost use Rattle.std.specs.Prelude.{◌≡◌, ◌≤◌, length, Ok, IfOk, IfErr};
ghost use Rattle.std.specs.Str.{IsUtf8};
ghost use Rattle.chw_base.specs.declared.limits.TheConstants.{DESCRIPTION_BYTES};
ghost use Rattle.chw_base.specs.declared.shelf.Fetched.TheVariants.{Whole};
ghost use Rattle.chw_cli.specs.Descriptions.{HasProgram, IsDescription, IsTypedText};
ghost use Rattle.chw_cli.specs.Fetching.{RefusesFile};
ghost use Rattle.chw_cli.specs.Reads.{Gets, description_in};
ghost use Rattle.chw_cli.specs.Refusals.{RefusesReading, RefusesText};

use crate::fetch::text_of;
use crate::refusal::Refusal;
use chw_base::limits::DESCRIPTION_BYTES;
use chw_base::{Name, Shelf};
use chw_check::{Checked, check};
use chw_grammar::Tree;
use chw_lexer::lex;
use chw_parser::parse;
use chw_resolve::resolve;
use std::alloc::Global;

/// A description: its text, its tree, and its program.
#[derive(Drop)]
pub(crate) struct Description {
    pub(crate) text: Vec<u8>,
    pub(crate) tree: Tree,
    pub(crate) checked: Checked,
}

/// The description in a file, which is typed, or why there is none.
pub(crate) fn read_description<F: Shelf>(
    alloc: Global,
    file: &Name,
    shelf: &mut F,
) -> Result<Description, Refusal>
    requires { IsUtf8 file.now }
    ensures read { IfOk result (λ d. Gets F.fetch_gives F.told F.faults file.now DESCRIPTION_BYTES (Ok Whole) d.text.items shelf.old shelf.new) }
    ensures within { IfOk result (λ d. length d.text.items ≤ DESCRIPTION_BYTES) }
    ensures typed { IfOk result (λ d. IsTypedText d.text.items d.tree) }
    ensures program { IfOk result (λ d. HasProgram d.tree d.checked) }
    ensures refused { IfErr result (RefusesFile F.fetch_gives F.told F.faults (description_in file.now) RefusesText shelf.old shelf.new) }
{
    let Some(text) = text_of(alloc, file, DESCRIPTION_BYTES, shelf)? else {
        return Err(Refusal::LongText);
    };
    let (tree, checked) = typed_tree(alloc, text.as_slice())?;
    Ok(Description {
        text,
        tree,
        checked,
    })
}

/// The tree of the description that the text is, which is typed, and its program; or why it is
/// none.
pub(crate) fn typed_tree(alloc: Global, text: &[u8]) -> Result<(Tree, Checked), Refusal>
    requires { length text.now ≤ DESCRIPTION_BYTES }
    ensures typed { IfOk result (λ it. IsTypedText text.now it.0) }
    ensures program { IfOk result (λ it. HasProgram it.0 it.1) }
    ensures refused { IfErr result (RefusesText text.now) }
{
    let tree = tree_of(alloc, text)?;
    let program = resolve(alloc, text, &tree)?;
    let checked = check(alloc, program)?;
    Ok((tree, checked))
}

/// The tree of the description that the text is, or why it is none.
fn tree_of(alloc: Global, text: &[u8]) -> Result<Tree, Refusal>
    requires { length text.now ≤ DESCRIPTION_BYTES }
    ensures tree { IfOk result (IsDescription text.now) }
    ensures refused { IfErr result (RefusesReading text.now) }
{
    let tokens = lex(alloc, text)?;
    let tree = parse(alloc, text, tokens.as_slice())?;
    Ok(tree)
}
