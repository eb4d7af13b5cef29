//! A letrec that joins the one around it, where it stands.
ghost use Rattle.std.specs.Prelude.{◌≡◌, ◌∷◌, ◌++◌, suc, length, map, OnOk};
ghost use Rattle.chw_types.specs.TypeMoves.{raised};
ghost use Rattle.chw_terms.specs.TermMoves.{rename, exchanged, shift};
ghost use Rattle.chw_terms.specs.TermTree.{letrec};
ghost use Rattle.chw_terms.specs.TermView.{tree_of, group_of};
ghost use Rattle.rewriting.specs.Shapes.{IsLet};
ghost use Rattle.moved_in_place.specs.Joined.{IsJoined, IsJoinedAlone, HasLetAt, IsWithBody, IsWithSide, IsWithSideAt};
ghost use Rattle.moved_in_place.specs.Moves.{renamed_binding};

use crate::lets::{first_let, is_let, take_group};
use crate::numbers::{Exchanging, Raising};
use crate::renaming::{exchange, raise};
use crate::walk::walk_bindings;
use chw_base::{NoMemory, VarIx, narrow};
use chw_terms::{Binding, Head, Term};
use std::alloc::Global;

/// Lets the first letrec that is a right side join the letrec around it, or where there is none the one that is the body: what the rule
/// that joins letrecs makes of the term, in its place. Types aren't touched, and neither are arguments behind the letrec.
///
/// Where a number would pass 32 bits, the answer is want of memory, and the term may be changed in part.
pub fn join(alloc: Global, term: &mut Term) -> Result<(), NoMemory>
    ensures { OnOk result (IsJoined term.old term.new) }
{
    join_head(alloc, &mut term.head)
}

// The same of a head.
fn join_head(alloc: Global, head: &mut Head) -> Result<(), NoMemory>
    ensures { OnOk result (IsJoinedAlone (tree_of head.old) (tree_of head.new)) }
{
    let Head::LetRec(group, body) = head else {
        return Ok(());
    };
    join_group(alloc, group, body)
}

// The same of a group and its body.
fn join_group(alloc: Global, group: &mut Vec<Binding>, body: &mut Term) -> Result<(), NoMemory>
    ensures { OnOk result (IsJoinedAlone (letrec (group_of group.old.items) body.old) (letrec (group_of group.new.items) body.new)) }
{
    let i = first_let(group);
    if i < group.len() {
        join_side(group, i, alloc, body)
    } else if is_let(body) {
        join_body(alloc, group, body)
    } else {
        Ok(())
    }
}

// The letrec that is the body joins:
// `letrec g in letrec cs in e  ==>  letrec { g; cs } in e`.
fn join_body(alloc: Global, group: &mut Vec<Binding>, body: &mut Term) -> Result<(), NoMemory>
    requires { IsLet body.old }
    ensures { OnOk result (IsWithBody (group_of group.old.items) body.old (group_of group.new.items) body.new) }
{
    let inner = take_group(alloc, body);
    make_room(group, inner.len())?;
    append(group, inner)
}

// Raises the variables of right sides from the innermost on.
fn make_room(group: &mut Vec<Binding>, count: usize) -> Result<(), NoMemory>
    ensures { OnOk result (group.new.items ≡ map (renamed_binding (raised 0 count)) group.old.items) }
{
    let by = narrow(count)?;
    raise_group(group, by, 0)
}

// The right sides of a group, with the variables from a place on raised.
fn raise_group(group: &mut Vec<Binding>, by: u32, from: u32) -> Result<(), NoMemory>
    ensures { OnOk result (group.new.items ≡ map (renamed_binding (raised from by)) group.old.items) }
{
    walk_bindings(group, &Raising { by }, from)
}

// The right sides of a group, in which the first so many variables and the next change places.
fn exchange_group(group: &mut Vec<Binding>, first: u32, next: u32) -> Result<(), NoMemory>
    ensures { OnOk result (group.new.items ≡ map (renamed_binding (exchanged first next)) group.old.items) }
{
    walk_bindings(group, &Exchanging { first, next }, 0)
}

// These bindings behind others.
fn append(group: &mut Vec<Binding>, more: Vec<Binding>) -> Result<(), NoMemory>
    ensures { OnOk result (group.new.items ≡ group.old.items ++ more.items) }
{
    let mut more = more;
    group.append(&mut more)?;
    Ok(())
}

// The letrec that is the right side of this number joins:
// `letrec { front; x = letrec cs in e; back } in b  ==>  letrec { front; cs; x = e; back } in b`.
fn join_side(
    group: &mut Vec<Binding>,
    i: usize,
    alloc: Global,
    body: &mut Term,
) -> Result<(), NoMemory>
    requires { HasLetAt group.old.items i }
    ensures { OnOk result (IsWithSideAt group.old.items i body.old group.new.items body.new) }
{
    let back = group.split_off(i + 1)?;
    let Some(side) = group.pop() else {
        unreachable!()
    };
    join_between(alloc, group, side, back, body)
}

// The letrec that is this right side joins, between the bindings before it and those behind it.
fn join_between(
    alloc: Global,
    front: &mut Vec<Binding>,
    side: Binding,
    back: Vec<Binding>,
    body: &mut Term,
) -> Result<(), NoMemory>
    requires { IsLet side.body }
    ensures { OnOk result (IsWithSide front.old.items side back.items body.old front.new.items body.new) }
{
    let Binding {
        ty,
        body: mut within,
    } = side;
    let mut inner = take_group(alloc, &mut within);
    let mut back = back;
    renumber_parts(front, &mut inner, &mut within, &mut back, body)?;
    put_together(front, inner, Binding { ty, body: within }, back)
}

// The bindings that join change places with the one that they join and those behind it; elsewhere they get room.
fn renumber_parts(
    front: &mut Vec<Binding>,
    inner: &mut Vec<Binding>,
    within: &mut Term,
    back: &mut Vec<Binding>,
    body: &mut Term,
) -> Result<(), NoMemory>
    ensures front { OnOk result (front.new.items ≡ map (renamed_binding (raised (suc (length back.old.items)) (length inner.old.items))) front.old.items) }
    ensures inner { OnOk result (inner.new.items ≡ map (renamed_binding (exchanged (length inner.old.items) (suc (length back.old.items)))) inner.old.items) }
    ensures within { OnOk result (within.new ≡ rename within.old (exchanged (length inner.old.items) (suc (length back.old.items)))) }
    ensures back { OnOk result (back.new.items ≡ map (renamed_binding (raised (suc (length back.old.items)) (length inner.old.items))) back.old.items) }
    ensures body { OnOk result (body.new ≡ shift body.old (suc (length back.old.items)) (length inner.old.items)) }
{
    let joins = narrow(inner.len())?;
    let own = narrow(back.len() + 1)?;
    raise_group(front, joins, own)?;
    exchange_group(inner, joins, own)?;
    exchange(within, joins, own)?;
    raise_group(back, joins, own)?;
    raise(body, VarIx { number: own }, joins)
}

// The bindings in their order.
fn put_together(
    front: &mut Vec<Binding>,
    inner: Vec<Binding>,
    side: Binding,
    back: Vec<Binding>,
) -> Result<(), NoMemory>
    ensures { OnOk result (front.new.items ≡ front.old.items ++ inner.items ++ side ∷ back.items) }
{
    let mut inner = inner;
    inner.push(side)?;
    append(front, inner)?;
    append(front, back)
}
