//! The first declaration whose types have no kinds.
ghost use Rattle.std.specs.Prelude.{IfOk, MatchOption};
ghost use Rattle.chw_typing.specs.Programs.{setting_of};
ghost use Rattle.chw_check.specs.declared.kinds.first.Unkinded.TheVariants.{OfData, OfDef};
ghost use Rattle.chw_check.specs.Each.{Each};
ghost use Rattle.chw_check.specs.Fits.{AllDeclarationsFit, DataFits, DefFits};
ghost use Rattle.chw_check.specs.Unkinded.{IsFirstUnkinded};

use crate::kinds::fields::data_fits;
use crate::kinds::terms::def_fits;
use chw_base::{DataId, DefId, NoMemory, narrow};
use chw_terms::Program;
use std::alloc::Global;

/// A declaration in which a written type has no kind, or the type of a field, a definition, a binder or a binding has the kind `Nat` or
/// `Dom`.
#[derive(Clone, Copy, Debug)]
pub enum Unkinded {
    /// The type of a field of this data type.
    OfData(DataId),
    /// The type of this definition, or one that is written in its body.
    OfDef(DefId),
}

/// The first such declaration of a program, of which the data types count before the definitions; nothing where there is none.
///
/// The kind of each written type is found at most once. `NoMemory` comes where memory fails, or where the number of the declaration that is
/// told passes 32 bits.
#[tactic(auto, using(crate::proofs::UnkindedFound::all_fit))]
pub fn first_unkinded(alloc: Global, program: &Program) -> Result<Option<Unkinded>, NoMemory>
    ensures { IfOk result (λ first. MatchOption first (AllDeclarationsFit program.now) (λ u. IsFirstUnkinded program.now u)) }
{
    if let Some(d) = first_data(program)? {
        return Ok(Some(Unkinded::OfData(d)));
    }
    match first_def(alloc, program)? {
        Some(d) => Ok(Some(Unkinded::OfDef(d))),
        None => Ok(None),
    }
}

// The first data type that doesn't fit.
fn first_data(program: &Program) -> Result<Option<DataId>, NoMemory>
    ensures { IfOk result (λ first. MatchOption first (Each (DataFits (setting_of program.now)) program.now.datas) (λ d. IsFirstUnkinded program.now (OfData d))) }
{
    let datas = program.datas.as_slice();
    for (place, it) in datas.iter().enumerate() {
        if !data_fits(program, it) {
            let number = narrow(place)?;
            return Ok(Some(DataId { number }));
        }
    }
    Ok(None)
}

// The first definition that doesn't fit, where all data types do.
fn first_def(alloc: Global, program: &Program) -> Result<Option<DefId>, NoMemory>
    ensures { IfOk result (λ first. MatchOption first (Each (DefFits (setting_of program.now)) program.now.defs)
        (λ d. Each (DataFits (setting_of program.now)) program.now.datas → IsFirstUnkinded program.now (OfDef d))) }
{
    let defs = program.defs.as_slice();
    for (place, it) in defs.iter().enumerate() {
        if !def_fits(alloc, program, it)? {
            let number = narrow(place)?;
            return Ok(Some(DefId { number }));
        }
    }
    Ok(None)
}
