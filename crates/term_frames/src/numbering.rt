//! The numbers of the types of definitions and of constructors.
ghost use Rattle.std.specs.Prelude.{◌≡◌, Some, IfOk, IfSome};
ghost use Rattle.std.specs.List.{slice_get};
ghost use Rattle.chw_terms.specs.TermView.{tree_of};
ghost use Rattle.chw_terms.specs.declared.scene.Scene.{Scene};
ghost use Rattle.chw_typing.specs.Scopes.{setting_in};
ghost use Rattle.type_numbers.specs.Nodes.{Grows};
ghost use Rattle.term_frames.specs.Numbers.{AreNumbered, AreHeadsNumbered, IsHeadNumbered, IsNumbering, IsNumberFound};
ghost use Rattle.term_frames.specs.Signatures.{IsSignature};

use crate::signature::{HeadType, Signature};
use chw_base::{ConId, DefId, NoMemory};
use chw_terms::{Def, Head, Program, Term};
use std::alloc::Global;
use type_numbers::TypeTable;

/// A table of types, and the numbers of those that terms have by their names.
///
/// Two types of one number are equal, so they are the same without a look at their parts.
#[derive(Drop)]
pub struct Numbering {
    pub types: TypeTable,
    /// The number of each definition's declared type.
    pub definitions: Vec<u32>,
    /// The number of each constructor's type, where that is kept.
    pub constructors: Vec<Option<u32>>,
}

impl Numbering {
    /// The numbers of a program's types.
    ///
    /// Where a number would pass 32 bits, the answer is want of memory.
    pub fn of(
        alloc: Global,
        program: &Program,
        kept: &[Option<HeadType>],
    ) -> Result<Numbering, NoMemory>
        ensures { IfOk result (λ r. IsNumbering program.now kept.now r) }
    {
        let mut types = TypeTable::new(alloc);
        let definitions = definition_numbers(alloc, &mut types, program.defs.as_slice())?;
        let constructors = constructor_numbers(alloc, &mut types, kept)?;
        Ok(Numbering {
            types,
            definitions,
            constructors,
        })
    }

    // The number of the type of the definition of this number.
    fn of_definition(&self, at: DefId) -> Option<u32>
        ensures { IfSome result (λ n. slice_get self.now.definitions.items at.number ≡ Some n) }
    {
        match self.definitions.as_slice().get(at.number as usize) {
            Some(number) => Some(*number),
            None => None,
        }
    }

    // The number of the type of the constructor of this number, where that is kept.
    fn of_constructor(&self, at: ConId) -> Option<u32>
        ensures { IfSome result (λ n. slice_get self.now.constructors.items at.number ≡ Some (Some n)) }
    {
        match self.constructors.as_slice().get(at.number as usize) {
            Some(number) => *number,
            None => None,
        }
    }
}

// The numbers of the declared types of definitions.
fn definition_numbers(
    alloc: Global,
    types: &mut TypeTable,
    defs: &[Def],
) -> Result<Vec<u32>, NoMemory>
    ensures { IfOk result (λ ns. AreNumbered types.new ns.items defs.now) }
{
    let mut numbers = Vec::new(alloc);
    for it in defs {
        numbers.push(types.put(&it.ty)?)?;
    }
    Ok(numbers)
}

// The numbers of types that are kept.
fn constructor_numbers(
    alloc: Global,
    types: &mut TypeTable,
    kept: &[Option<HeadType>],
) -> Result<Vec<Option<u32>>, NoMemory>
    ensures are { IfOk result (λ ns. AreHeadsNumbered types.new ns.items kept.now) }
    ensures grown { Grows types.old types.new }
{
    let mut numbers = Vec::new(alloc);
    for it in kept {
        numbers.push(head_number(types, it)?)?;
    }
    Ok(numbers)
}

// The number of a type, where it is kept.
fn head_number(types: &mut TypeTable, kept: &Option<HeadType>) -> Result<Option<u32>, NoMemory>
    ensures is { IfOk result (λ n. IsHeadNumbered types.new n kept.now) }
    ensures grown { Grows types.old types.new }
{
    match kept {
        Some(it) => Ok(Some(types.put(&it.ty)?)),
        None => Ok(None),
    }
}

/// The number of the type that is found for a head, where it is known without a look at the type.
pub fn number_of_head(signature: &Signature, head: &Head) -> Option<u32>
    ensures { (scene : Scene) → IsSignature scene.program.now signature.now
        → IsNumberFound (setting_in scene) signature.now.numbering.types result (tree_of head.now) }
{
    match head {
        Head::Global(at) => signature.numbering.of_definition(*at),
        Head::Con(at) => signature.numbering.of_constructor(*at),
        _ => None,
    }
}

/// The number of the type that is found for a term, where it is known without a look at the type.
pub fn number_of_term(signature: &Signature, term: &Term) -> Option<u32>
    ensures { (scene : Scene) → IsSignature scene.program.now signature.now
        → IsNumberFound (setting_in scene) signature.now.numbering.types result term.now }
{
    if term.args.is_empty() {
        return number_of_head(signature, &term.head);
    }
    None
}
