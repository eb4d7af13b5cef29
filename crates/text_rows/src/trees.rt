//! The tree of a text.
ghost use Rattle.std.specs.Prelude.{IfSome};
ghost use Rattle.chw_resolve.specs.Written.{WasRead};

use chw_base::Or;
use chw_grammar::Tree;
use chw_lexer::lex;
use chw_parser::parse;
use row_tables::{Unread, bytes_of};
use std::alloc::Global;

/// The tree of a text that is a description.
pub(crate) fn tree_of(alloc: Global, text: &[u8]) -> Option<Tree>
    ensures { IfSome result (WasRead text.now) }
{
    if text.len() > 2_000_000 {
        return None;
    }
    let Ok(tokens) = lex(alloc, text) else {
        return None;
    };
    let parsed = parse(alloc, text, tokens.as_slice());
    drop(tokens);
    parsed.ok()
}

/// The tree of a description in the notation of rows.
pub(crate) fn tree_in(alloc: Global, text: &str) -> Result<Tree, Or<Unread>> {
    let text = bytes_of(alloc, text)?;
    let tree = tree_of(alloc, &text);
    drop(text);
    tree.ok_or(Or::Fault(Unread))
}
