//! The state with which a program opens.
ghost use Rattle.std.specs.Prelude.{◌≡◌, IfOk};
ghost use Rattle.chw_terms.specs.Tidy.{IsTidy};
ghost use Rattle.chw_terms.specs.Unrolled.{parameters};
ghost use Rattle.rewriting.specs.Origins.{on_variables, under_each};
ghost use Rattle.rewriting.specs.Runs.{IsOpening};
ghost use Rattle.opening.specs.Expanded.{call_of, on_parameters};

use chw_base::{DefId, NoMemory, VarIx, narrow};
use chw_terms::{Def, Made, Program, Sort, Term};
use chw_types::{Ty, TyNode};
use std::alloc::Global;

// The types of the parameters of a function of this type, the first one first.
fn parameters(alloc: Global, ty: &Ty) -> Result<Vec<Ty>, NoMemory>
    ensures { IfOk result (λ params. params.items ≡ parameters ty.now) }
{
    let mut params = Vec::new(alloc);
    let mut rest = ty;
    loop {
        match &rest.node {
            TyNode::Fun(from, to) => {
                params.push(from.copy(alloc)?)?;
                rest = to;
            }
            TyNode::Forall(_, of) => rest = of,
            _ => return Ok(params),
        }
    }
}

// The term on so many variables, the last of which is the innermost, 0.
fn on_variables(alloc: Global, term: Term, count: u32) -> Result<Term, NoMemory>
    ensures { IfOk result (λ e. e ≡ on_variables term 0 count) }
{
    let mut done = term;
    for number in (0..count).rev() {
        done = Term::app(done, Term::var(alloc, VarIx { number }))?;
    }
    Ok(done)
}

// The term under a lambda for each of these types.
fn under_each(alloc: Global, params: Vec<Ty>, term: Term) -> Result<Term, NoMemory>
    ensures { IfOk result (λ e. e ≡ under_each params.items term) }
{
    let mut params = params;
    let mut done = term;
    while let Some(ty) = params.pop() {
        done = Term::lam(alloc, ty, done)?;
    }
    Ok(done)
}

// `\x1 .. \xn . e x1 .. xn` for the closed term e, with a variable for each parameter of the type.
fn on_parameters(alloc: Global, ty: &Ty, term: Term) -> Result<Term, NoMemory>
    ensures { IfOk result (λ e. e ≡ on_parameters ty.now term) }
{
    let params = parameters(alloc, ty)?;
    let count = narrow(params.len())?;
    let body = on_variables(alloc, term, count)?;
    under_each(alloc, params, body)
}

// The made definition for the call of a definition: its name on its parameters, become its body on
// these.
fn call_of(alloc: Global, at: DefId, def: &Def) -> Result<Made, NoMemory>
    ensures { IfOk result (λ made. made ≡ call_of at.number def.now) }
{
    let origin = on_parameters(alloc, &def.ty, Term::global(alloc, at))?;
    let body = on_parameters(alloc, &def.ty, def.body.copy(alloc)?)?;
    let ty = def.ty.copy(alloc)?;
    Ok(Made {
        origin,
        body,
        ty,
        sort: Sort::Circuit,
    })
}

/// The state with which a program opens: one made definition, for the call of the top.
///
/// Where the top's definition is `main` and its type has n parameters, the origin is
/// `\x1 .. \xn . main x1 .. xn`. The body is the same with main's definition in place of the name.
/// This takes time linear in the definition. Where n would pass 32 bits, the answer is want of
/// memory.
pub fn open(alloc: Global, program: &Program) -> Result<Vec<Made>, NoMemory>
    requires { IsTidy program.now }
    ensures { IfOk result (λ made. IsOpening program.now made.items) }
{
    let top = program.top.def;
    let def = &program.defs.as_slice()[top.number as usize];
    Ok(vec![in alloc; call_of(alloc, top, def)?]?)
}
