//! The types that are written in terms.
ghost use Rattle.std.specs.Prelude.{◌≡◌, ◌∷◌, reverse, IfOk, OnOk};
ghost use Rattle.std.specs.Bool.{Decides};
ghost use Rattle.chw_terms.specs.TermView.{tree_of, terms_of, group_of, alts_of};
ghost use Rattle.chw_typing.specs.Programs.{setting_of};
ghost use Rattle.chw_typing.specs.Scopes.{IsTermType};
ghost use Rattle.chw_check.specs.Each.{Each};
ghost use Rattle.chw_check.specs.Fits.{AllFit, AltsFit, DefFits, GroupFits, TypesFit};
ghost use Rattle.chw_check.specs.FitParts.{ArgFits};

use crate::kinds::fields::{has_kind, is_term_type};
use chw_base::NoMemory;
use chw_terms::{Alt, Arg, Binding, Def, Head, Program, Term};
use chw_types::{Kind, Ty};
use std::alloc::Global;

/// Whether a definition has a type that terms have, and each type in its body has a kind that it may have there.
pub(crate) fn def_fits(alloc: Global, program: &Program, it: &Def) -> Result<bool, NoMemory>
    ensures { IfOk result (λ fits. Decides fits (DefFits (setting_of program.now) it.now)) }
{
    let mut kinds = Vec::new(alloc);
    typed_fits(program, &mut kinds, &it.ty, &it.body)
}

// Whether a type is one that terms have, and each type in a term has a kind that it may have there.
#[cycle(types_fit)]
fn typed_fits(
    program: &Program,
    kinds: &mut Vec<Kind>,
    ty: &Ty,
    term: &Term,
) -> Result<bool, NoMemory>
    ensures fits { IfOk result (λ fits. Decides fits (IsTermType (setting_of program.now) (reverse kinds.old.items) ty.now
        × TypesFit (setting_of program.now) (reverse kinds.old.items) term.now)) }
    ensures scope { OnOk result (kinds.new.items ≡ kinds.old.items) }
{
    if !is_term_type(program, kinds, ty) {
        return Ok(false);
    }
    types_fit(program, kinds, term)
}

// Whether each type in a term has a kind that it may have there, where type variables have these kinds, the outermost first. What is
// added to the kinds is taken off again.
#[cycle(types_fit)]
fn types_fit(program: &Program, kinds: &mut Vec<Kind>, term: &Term) -> Result<bool, NoMemory>
    ensures fits { IfOk result (λ fits. Decides fits (TypesFit (setting_of program.now) (reverse kinds.old.items) term.now)) }
    ensures scope { OnOk result (kinds.new.items ≡ kinds.old.items) }
{
    if !head_fits(program, kinds, &term.head)? {
        return Ok(false);
    }
    args_fit(program, kinds, &term.args)
}

// The same of a head.
#[cycle(types_fit)]
fn head_fits(program: &Program, kinds: &mut Vec<Kind>, head: &Head) -> Result<bool, NoMemory>
    ensures fits { IfOk result (λ fits. Decides fits (TypesFit (setting_of program.now) (reverse kinds.old.items) (tree_of head.now))) }
    ensures scope { OnOk result (kinds.new.items ≡ kinds.old.items) }
{
    match head {
        Head::Lam(ty, body) => typed_fits(program, kinds, ty, body),
        Head::TyLam(kind, body) => fits_under(program, kinds, *kind, body),
        Head::LetRec(bindings, body) => {
            if !bindings_fit(program, kinds, bindings)? {
                return Ok(false);
            }
            types_fit(program, kinds, body)
        }
        Head::VecLit(ty, elements) => {
            if !has_kind(program, kinds, ty) {
                return Ok(false);
            }
            all_fit(program, kinds, elements)
        }
        Head::Case(on, alts) => {
            if !types_fit(program, kinds, on)? {
                return Ok(false);
            }
            alts_fit(program, kinds, alts)
        }
        Head::Var(_) | Head::Global(_) | Head::Made(_) => Ok(true),
        Head::Con(_) | Head::PrimOf(_) | Head::Lit(_, _) => Ok(true),
    }
}

// The same of the arguments of a spine.
#[cycle(types_fit)]
fn args_fit(program: &Program, kinds: &mut Vec<Kind>, args: &[Arg]) -> Result<bool, NoMemory>
    ensures fits { IfOk result (λ fits. Decides fits (Each (ArgFits (setting_of program.now) (reverse kinds.old.items)) args.now)) }
    ensures scope { OnOk result (kinds.new.items ≡ kinds.old.items) }
{
    for arg in args {
        if !arg_fits(program, kinds, arg)? {
            return Ok(false);
        }
    }
    Ok(true)
}

#[cycle(types_fit)]
fn arg_fits(program: &Program, kinds: &mut Vec<Kind>, arg: &Arg) -> Result<bool, NoMemory>
    ensures fits { IfOk result (λ fits. Decides fits (ArgFits (setting_of program.now) (reverse kinds.old.items) arg.now)) }
    ensures scope { OnOk result (kinds.new.items ≡ kinds.old.items) }
{
    match arg {
        Arg::OfTerm(e) => types_fit(program, kinds, e),
        Arg::OfType(t) => Ok(has_kind(program, kinds, t)),
    }
}

// The same of the body of a type lambda, whose type variable has this kind.
#[cycle(types_fit)]
fn fits_under(
    program: &Program,
    kinds: &mut Vec<Kind>,
    kind: Kind,
    body: &Term,
) -> Result<bool, NoMemory>
    ensures fits { IfOk result (λ fits. Decides fits (TypesFit (setting_of program.now) (kind ∷ reverse kinds.old.items) body.now)) }
    ensures scope { OnOk result (kinds.new.items ≡ kinds.old.items) }
{
    kinds.push(kind)?;
    let fits = types_fit(program, kinds, body)?;
    kinds.pop();
    Ok(fits)
}

// The same of the bindings of a letrec.
#[cycle(types_fit)]
fn bindings_fit(
    program: &Program,
    kinds: &mut Vec<Kind>,
    bindings: &[Binding],
) -> Result<bool, NoMemory>
    ensures fits { IfOk result (λ fits. Decides fits (GroupFits (setting_of program.now) (reverse kinds.old.items) (group_of bindings.now))) }
    ensures scope { OnOk result (kinds.new.items ≡ kinds.old.items) }
{
    for binding in bindings {
        if !typed_fits(program, kinds, &binding.ty, &binding.body)? {
            return Ok(false);
        }
    }
    Ok(true)
}

// The same of the elements of a vector.
#[cycle(types_fit)]
fn all_fit(program: &Program, kinds: &mut Vec<Kind>, elements: &[Term]) -> Result<bool, NoMemory>
    ensures fits { IfOk result (λ fits. Decides fits (AllFit (setting_of program.now) (reverse kinds.old.items) (terms_of elements.now))) }
    ensures scope { OnOk result (kinds.new.items ≡ kinds.old.items) }
{
    for element in elements {
        if !types_fit(program, kinds, element)? {
            return Ok(false);
        }
    }
    Ok(true)
}

// The same of the alternatives of a case.
#[cycle(types_fit)]
fn alts_fit(program: &Program, kinds: &mut Vec<Kind>, alts: &[Alt]) -> Result<bool, NoMemory>
    ensures fits { IfOk result (λ fits. Decides fits (AltsFit (setting_of program.now) (reverse kinds.old.items) (alts_of alts.now))) }
    ensures scope { OnOk result (kinds.new.items ≡ kinds.old.items) }
{
    for alt in alts {
        if !types_fit(program, kinds, &alt.body)? {
            return Ok(false);
        }
    }
    Ok(true)
}
