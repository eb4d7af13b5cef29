//! Names copied from the tree.
ghost use Rattle.std.specs.Prelude.{◌≡◌, IfOk};
ghost use Rattle.chw_names.specs.Words.{names_of};

use chw_base::{Name, NoMemory, Seq};
use chw_grammar::Word;
use std::alloc::Global;

/// The name of a word once more.
pub fn name_of(alloc: Global, word: &Word) -> Result<Name, NoMemory>
    ensures { IfOk result (λ name. name ≡ word.now.bytes) }
{
    Name::copy_of(alloc, word.bytes.as_slice())
}

/// The names of words.
pub fn names_of(alloc: Global, words: &[Word]) -> Result<Seq<Name>, NoMemory>
    ensures { IfOk result (λ names. names ≡ names_of words.now) }
{
    let mut names = Vec::new(alloc);
    for word in words {
        names.push(name_of(alloc, word)?)?;
    }
    Ok(Seq::from(names))
}
