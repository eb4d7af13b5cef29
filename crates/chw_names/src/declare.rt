//! Names are declared in their places.
ghost use Rattle.std.specs.Prelude.{◌≡◌, ◌∷◌, [], OnOk};
ghost use Rattle.chw_names.specs.Words.{Declares, Meets, seconds};

use crate::least::Least;
use chw_base::NoMemory;
use chw_grammar::Word;
use name_tables::Declared;
use std::alloc::Global;

/// Declares the name of a word, which is met where its name was declared before.
pub fn declare<'t>(
    names: &mut Declared<'t>,
    least: &mut Least<'t>,
    word: &'t Word,
) -> Result<(), NoMemory>
    ensures { OnOk result (Declares names.old names.new least.old least.new (word.now ∷ [])) }
{
    if !names.declare(word.bytes.as_slice())? {
        least.meet(word);
    }
    Ok(())
}

/// Declares the names of words in their order.
pub fn declare_all<'t>(
    names: &mut Declared<'t>,
    least: &mut Least<'t>,
    words: &'t [Word],
) -> Result<(), NoMemory>
    ensures { OnOk result (Declares names.old names.new least.old least.new words.now) }
{
    for word in words {
        declare(names, least, word)?;
    }
    Ok(())
}

/// Declares the names of words in a place of their own.
pub fn declare_apart<'t>(
    alloc: Global,
    least: &mut Least<'t>,
    words: &'t [Word],
) -> Result<(), NoMemory>
    ensures { OnOk result (Meets least.old least.new (seconds [] words.now)) }
{
    let mut names = Declared::new(alloc);
    let outcome = declare_all(&mut names, least, words);
    drop(names);
    outcome
}
