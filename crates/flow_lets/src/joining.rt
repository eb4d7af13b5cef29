//! Groups that become one.
ghost use Rattle.std.specs.Prelude.{◌≡◌, suc, IfOk};
ghost use Rattle.chw_terms.specs.TermMoves.{exchanged, rename_group, shift};
ghost use Rattle.chw_terms.specs.TermTree.{letrec, size_of};
ghost use Rattle.chw_terms.specs.TermView.{group_of};
ghost use Rattle.chw_typing.specs.Groups.{joined};
ghost use Rattle.rewriting.specs.Lets.{side_joined};
ghost use Rattle.rewriting.specs.Shapes.{shift_group};
ghost use Rattle.flow_lets.specs.Moves.{raised_side, exchanged_side};

use crate::parts::{Inner, Parted};
use chw_base::{NoMemory, VarIx, narrow};
use chw_terms::{Binding, Term, exchange, shift};
use chw_types::Ty;
use rule_parts::copies::copy_group;
use std::alloc::Global;

// A binding under more binders, of which the innermost ones stay where they are.
fn raised(alloc: Global, binding: &Binding, from: VarIx, by: u32) -> Result<Binding, NoMemory>
    ensures { IfOk result (λ b. b ≡ raised_side from.number by binding.now) }
{
    let ty = binding.ty.copy(alloc)?;
    let body = shift(alloc, &binding.body, from, by)?;
    Ok(Binding { ty, body })
}

// A binding whose innermost variables and the next ones change places.
fn exchanged(
    alloc: Global,
    ty: &Ty,
    side: &Term,
    first: u32,
    next: u32,
) -> Result<Binding, NoMemory>
    ensures { IfOk result (λ b. b ≡ exchanged_side first next ty.now side.now) }
{
    let ty = ty.copy(alloc)?;
    let body = exchange(alloc, side, first, next)?;
    Ok(Binding { ty, body })
}

// These bindings, and behind them those of a group under more binders.
fn with_raised(
    alloc: Global,
    done: Vec<Binding>,
    group: &[Binding],
    from: VarIx,
    by: u32,
) -> Result<Vec<Binding>, NoMemory>
    ensures { IfOk result (λ g. group_of g.items ≡ joined (group_of done.items) (shift_group (group_of group.now) from.number by)) }
{
    let mut done = done;
    for binding in group {
        done.push(raised(alloc, binding, from, by)?)?;
    }
    Ok(done)
}

// These bindings, and behind them those of a group whose variables change places.
fn with_exchanged(
    alloc: Global,
    done: Vec<Binding>,
    group: &[Binding],
    first: u32,
    next: u32,
) -> Result<Vec<Binding>, NoMemory>
    ensures { IfOk result (λ g. group_of g.items ≡ joined (group_of done.items) (rename_group (group_of group.now) (exchanged first next))) }
{
    let mut done = done;
    for binding in group {
        done.push(exchanged(alloc, &binding.ty, &binding.body, first, next)?)?;
    }
    Ok(done)
}

// The bindings of a letrec that a right side between these parts joins: `own` of them come behind those that join.
fn side_group(
    alloc: Global,
    parts: &Parted<'_>,
    joins: u32,
    own: u32,
) -> Result<Vec<Binding>, NoMemory>
    requires joins { joins ≡ size_of (group_of parts.now.inner.group.now) }
    requires own { own ≡ suc (size_of (group_of parts.now.back.now)) }
    ensures { IfOk result (λ g. group_of g.items ≡ side_joined (group_of parts.now.front.now) parts.now.ty.now (group_of parts.now.inner.group.now) parts.now.inner.body.now (group_of parts.now.back.now)) }
{
    let from = VarIx { number: own };
    let inner = parts.inner;
    let front = with_raised(alloc, Vec::new(alloc), parts.front, from, joins)?;
    let mut joined = with_exchanged(alloc, front, inner.group, joins, own)?;
    joined.push(exchanged(alloc, parts.ty, inner.body, joins, own)?)?;
    with_raised(alloc, joined, parts.back, from, joins)
}

/// A letrec that the right side between these parts has joined.
pub(crate) fn letrec_with_side(
    alloc: Global,
    parts: &Parted<'_>,
    body: &Term,
) -> Result<Term, NoMemory>
    ensures { IfOk result (λ e. e ≡ letrec (side_joined (group_of parts.now.front.now) parts.now.ty.now (group_of parts.now.inner.group.now) parts.now.inner.body.now (group_of parts.now.back.now)) (shift body.now (suc (size_of (group_of parts.now.back.now))) (size_of (group_of parts.now.inner.group.now)))) }
{
    let joins = narrow(parts.inner.group.len())?;
    let own = narrow(parts.back.len() + 1)?;
    let group = side_group(alloc, parts, joins, own)?;
    let body = shift(alloc, body, VarIx { number: own }, joins)?;
    Term::letrec(alloc, group, body)
}

/// A letrec that its body has joined.
pub(crate) fn letrec_with_body(
    alloc: Global,
    group: &[Binding],
    inner: &Inner<'_>,
) -> Result<Term, NoMemory>
    ensures { IfOk result (λ e. e ≡ letrec (joined (shift_group (group_of group.now) 0 (size_of (group_of inner.now.group.now))) (group_of inner.now.group.now)) inner.now.body.now) }
{
    let joins = narrow(inner.group.len())?;
    let from = VarIx { number: 0 };
    let mut joined = with_raised(alloc, Vec::new(alloc), group, from, joins)?;
    let mut own = copy_group(alloc, inner.group)?;
    joined.append(&mut own)?;
    let body = inner.body.copy(alloc)?;
    Term::letrec(alloc, joined, body)
}
