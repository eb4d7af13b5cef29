//! Vectors of the elements of others, in another order.
ghost use Rattle.std.specs.Prelude.{◌≡◌, ◌++◌, IfOk, OnOk};
ghost use Rattle.std.specs.List.{flat_map, range_with_len};
ghost use Rattle.chw_prims.specs.declared.row.Row.TheVariants.{Appended, Concatenated, Taken, Dropped, Reversed, Rotated};
ghost use Rattle.chw_types.specs.TypeTree.{vector, nat_lit};
ghost use Rattle.chw_terms.specs.TermTree.{var};
ghost use Rattle.chw_terms.specs.Unrolled.{each, element, vec_of};
ghost use Rattle.prim_vec.specs.Bodies.{HasBody, IsBody};

use crate::made::{Made, Order, push_each, vector, vector_of};
use crate::sizes::{is_natural, sized_1, twice_sized};
use chw_base::NoMemory;
use chw_terms::Term;
use chw_types::{Kind, Ty};
use std::alloc::Global;

pub(crate) fn appended(alloc: Global, kind: Kind, types: &[Ty]) -> Result<Term, NoMemory>
    requires { HasBody (Appended kind) types.now }
    ensures { IfOk result (λ e. IsBody (Appended kind) types.now e) }
{
    let (n, m, a) = twice_sized(types);
    let mut done = Vec::new(alloc);
    let first = Made::Element(kind, n, a, 1, Order::Kept);
    push_each(alloc, n, first, &mut done)?;
    let second = Made::Element(kind, m, a, 0, Order::Kept);
    push_each(alloc, m, second, &mut done)?;
    vector(alloc, a, done)
}

// Adds the elements of all inner vectors of a vector of vectors, one vector after another; `inner` is the type of these.
#[tactic(auto, using(crate::proofs::Lists::flat_after))]
fn push_all(
    alloc: Global,
    kind: Kind,
    n: u32,
    inner: &Ty,
    m: u32,
    a: &Ty,
    done: &mut Vec<Term>,
) -> Result<(), NoMemory>
    ensures { OnOk result (done.new.items ≡ done.old.items ++ flat_map (λ q. each m (element kind m a.now (element kind n inner.now (var 0) q))) (range_with_len 0 n)) }
{
    for q in 0..n {
        push_each(alloc, m, Made::Inner(kind, n, inner, q, m, a), done)?;
    }
    Ok(())
}

// The type of the vectors of this length.
fn vectors(alloc: Global, len: u32, of: &Ty) -> Result<Ty, NoMemory>
    ensures { IfOk result (λ t. t ≡ vector (nat_lit len) of.now) }
{
    let of = of.copy(alloc)?;
    Ty::vec(alloc, Ty::nat(len), of)
}

// The vector of the elements of all inner vectors.
fn flat(alloc: Global, kind: Kind, n: u32, inner: &Ty, m: u32, a: &Ty) -> Result<Term, NoMemory>
    ensures { IfOk result (λ e. e ≡ vec_of a.now (flat_map (λ q. each m (element kind m a.now (element kind n inner.now (var 0) q))) (range_with_len 0 n))) }
{
    let mut done = Vec::new(alloc);
    push_all(alloc, kind, n, inner, m, a, &mut done)?;
    vector(alloc, a, done)
}

pub(crate) fn concatenated(alloc: Global, kind: Kind, types: &[Ty]) -> Result<Term, NoMemory>
    requires { HasBody (Concatenated kind) types.now }
    ensures { IfOk result (λ e. IsBody (Concatenated kind) types.now e) }
{
    let (n, m, a) = twice_sized(types);
    let inner = vectors(alloc, m, a)?;
    let made = flat(alloc, kind, n, &inner, m, a);
    drop(inner);
    made
}

pub(crate) fn taken(alloc: Global, kind: Kind, types: &[Ty]) -> Result<Term, NoMemory>
    requires { HasBody (Taken kind) types.now }
    ensures { IfOk result (λ e. IsBody (Taken kind) types.now e) }
{
    let (n, m, a) = twice_sized(types);
    let Some(len) = n.checked_add(m) else {
        return Err(NoMemory);
    };
    vector_of(alloc, n, a, Made::Element(kind, len, a, 0, Order::Kept))
}

pub(crate) fn dropped(alloc: Global, kind: Kind, types: &[Ty]) -> Result<Term, NoMemory>
    requires { HasBody (Dropped kind) types.now }
    ensures { IfOk result (λ e. IsBody (Dropped kind) types.now e) }
{
    let (n, m, a) = twice_sized(types);
    let Some(len) = n.checked_add(m) else {
        return Err(NoMemory);
    };
    vector_of(alloc, m, a, Made::Element(kind, len, a, 0, Order::Past(n)))
}

pub(crate) fn reversed(alloc: Global, kind: Kind, types: &[Ty]) -> Result<Term, NoMemory>
    requires { HasBody (Reversed kind) types.now }
    ensures { IfOk result (λ e. IsBody (Reversed kind) types.now e) }
{
    let (n, a) = sized_1(types);
    vector_of(alloc, n, a, Made::Element(kind, n, a, 0, Order::Back))
}

pub(crate) fn rotated(alloc: Global, kind: Kind, types: &[Ty]) -> Result<Term, NoMemory>
    requires { HasBody (Rotated kind) types.now }
    ensures { IfOk result (λ e. IsBody (Rotated kind) types.now e) }
{
    let (n, k, a) = twice_sized(types);
    is_natural(k);
    vector_of(alloc, n, a, Made::Element(kind, n, a, 0, Order::Turned(k)))
}
