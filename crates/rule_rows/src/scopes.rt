//! The variables in scope of a row's term.
ghost use Rattle.std.specs.Prelude.{[], reverse, IfOk, IsTrue, OnOk};
ghost use Rattle.chw_typing.specs.Scopes.{AreTermTypes, IsTermType, setting_in};

use chw_base::Or;
use chw_terms::{Head, Scene, Term};
use chw_types::{Ty, kind_of};
use row_tables::Unread;
use std::alloc::Global;

/// More variables than a row has.
pub(crate) const VARIABLES: usize = 16;

// Whether it is a type of terms, without type variables.
fn is_term_type(scene: &Scene, ty: &Ty) -> bool
    ensures { IsTrue result → IsTermType (setting_in scene.now) [] ty.now }
{
    let program = scene.program;
    match kind_of(
        ty,
        &[],
        program.datas.as_slice(),
        program.domains.as_slice(),
    ) {
        Ok(kind) => kind.is_of_terms(),
        Err(_) => false,
    }
}

// The type of the variable that a lambda without arguments binds, and its body.
fn lambda(term: &Term) -> Option<(&Ty, &Term)> {
    match &term.head {
        Head::Lam(ty, body) if term.args.is_empty() => Some((ty, body)),
        _ => None,
    }
}

/// The types of the variables of the leading lambdas of a closed term, so many at most, the
/// outermost first.
pub(crate) fn variables_of(
    alloc: Global,
    scene: &Scene,
    whole: &Term,
    most: usize,
) -> Result<Vec<Ty>, Or<Unread>>
    ensures { IfOk result (λ vars. AreTermTypes (setting_in scene.now) [] (reverse vars.items)) }
{
    let mut vars = Vec::new(alloc);
    let mut term = whole;
    for _variable in 0..most {
        let Some((ty, body)) = lambda(term) else {
            break;
        };
        add_variable(alloc, scene, ty, &mut vars)?;
        term = body;
    }
    Ok(vars)
}

fn add_variable(alloc: Global, scene: &Scene, ty: &Ty, vars: &mut Vec<Ty>) -> Result<(), Or<Unread>>
    requires { AreTermTypes (setting_in scene.now) [] (reverse vars.old.items) }
    ensures { OnOk result (AreTermTypes (setting_in scene.now) [] (reverse vars.new.items)) }
{
    if !is_term_type(scene, ty) {
        return Err(Or::Fault(Unread));
    }
    let ty = ty.copy(alloc)?;
    Ok(vars.push(ty)?)
}

/// The term below the leading lambdas of a term, so many at most.
pub(crate) fn below_lambdas(whole: &Term, most: usize) -> &Term {
    let mut term = whole;
    for _variable in 0..most {
        let Some((_, body)) = lambda(term) else {
            break;
        };
        term = body;
    }
    term
}
