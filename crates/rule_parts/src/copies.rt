//! Copies of the parts of terms, and the arguments behind the first one.
ghost use Rattle.std.specs.Prelude.{◌≡◌, length, IfOk};
ghost use Rattle.std.specs.Option.{option_map};
ghost use Rattle.chw_types.specs.TypeMoves.{raised};
ghost use Rattle.chw_terms.specs.TermMoves.{shift};
ghost use Rattle.chw_terms.specs.TermTree.{letrec, bind, no_bindings};
ghost use Rattle.chw_terms.specs.TermView.{applied};
ghost use Rattle.chw_typing.specs.Groups.{rename_arg};

use chw_base::{NoMemory, VarIx};
use chw_terms::{Arg, Binding, Term, shift};
use chw_types::Ty;
use std::alloc::Global;

/// The argument under so many more binders.
pub fn arg_under(alloc: Global, arg: &Arg, binders: u32) -> Result<Arg, NoMemory>
    ensures { IfOk result (λ a. a ≡ rename_arg (raised 0 binders) arg.now) }
{
    match arg {
        Arg::OfTerm(e) => Ok(Arg::OfTerm(shift(alloc, e, VarIx { number: 0 }, binders)?)),
        Arg::OfType(t) => Ok(Arg::OfType(t.copy(alloc)?)),
    }
}

/// The same argument once more.
fn copy_arg(alloc: Global, arg: &Arg) -> Result<Arg, NoMemory>
    ensures { IfOk result (λ a. a ≡ arg.now) }
{
    match arg {
        Arg::OfTerm(e) => Ok(Arg::OfTerm(e.copy(alloc)?)),
        Arg::OfType(t) => Ok(Arg::OfType(t.copy(alloc)?)),
    }
}

/// The same arguments once more.
fn copy_args(alloc: Global, args: &[Arg]) -> Result<Vec<Arg>, NoMemory>
    ensures { IfOk result (λ copies. copies.items ≡ args.now) }
{
    let mut done = Vec::new(alloc);
    for arg in args {
        done.push(copy_arg(alloc, arg)?)?;
    }
    Ok(done)
}

/// The term, where there is one, with copies of these arguments behind it.
pub fn with_rest(alloc: Global, made: Option<Term>, rest: &[Arg]) -> Result<Option<Term>, NoMemory>
    ensures { IfOk result (λ r. r ≡ option_map (λ e. applied e rest.now) made) }
{
    match made {
        Some(e) => Ok(Some(e.applied(copy_args(alloc, rest)?)?)),
        None => Ok(None),
    }
}

fn copy_binding(alloc: Global, binding: &Binding) -> Result<Binding, NoMemory>
    ensures { IfOk result (λ b. b ≡ binding.now) }
{
    let ty = binding.ty.copy(alloc)?;
    let body = binding.body.copy(alloc)?;
    Ok(Binding { ty, body })
}

/// The same bindings once more.
pub fn copy_group(alloc: Global, group: &[Binding]) -> Result<Vec<Binding>, NoMemory>
    ensures { IfOk result (λ copies. copies.items ≡ group.now) }
{
    let mut done = Vec::new(alloc);
    for binding in group {
        done.push(copy_binding(alloc, binding)?)?;
    }
    Ok(done)
}

/// A let of one name of this type for the term, which stands outside of it.
pub fn let_one(alloc: Global, ty: Ty, of: &Term, body: Term) -> Result<Term, NoMemory>
    ensures { IfOk result (λ e. e ≡ letrec (bind ty (shift of.now 0 1) no_bindings) body) }
{
    let side = shift(alloc, of, VarIx { number: 0 }, 1)?;
    let group = vec![in alloc; Binding { ty, body: side }]?;
    Term::letrec(alloc, group, body)
}
