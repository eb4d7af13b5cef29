//! The text of a description.
ghost use Rattle.std.specs.Prelude.{◌≡◌, IfOk};
ghost use Rattle.chw_grammar.specs.Text.{Text};

use crate::declarations::{put_declaration, put_top};
use chw_base::NoMemory;
use chw_grammar::Tree;
use std::alloc::Global;

/// The canonical text of a description, in bytes: its tokens with one space between two, a declaration or the top on each line, a line
/// feed at the end of each line, and parentheses only where the grammar needs them.
///
/// The places of the words play no part. There is no refusal but want of memory.
pub fn print(alloc: Global, tree: &Tree) -> Result<Vec<u8>, NoMemory>
    ensures { IfOk result (λ text. text.items ≡ Text tree.now) }
{
    let mut out = Vec::new(alloc);
    for declaration in tree.declarations.as_slice() {
        put_declaration(&mut out, declaration)?;
    }
    put_top(&mut out, &tree.top)?;
    Ok(out)
}
