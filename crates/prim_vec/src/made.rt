//! The elements of a vector that is made, each by its place. Vectors and functions that are arguments are variables.
ghost use Rattle.std.specs.Prelude.{◌≡◌, ◌<◌, ◌%◌, ◌+◌, ◌^◌, ◌++◌, nat_lt, if◌then◌else◌, IfOk, OnOk};
ghost use Rattle.chw_types.specs.declared.kind.Kind.TheVariants.{Val};
ghost use Rattle.chw_terms.specs.TermTree.{var, app};
ghost use Rattle.chw_terms.specs.Unrolled.{each, element, vec_of, where_equal};
ghost use Rattle.prim_vec.specs.Made.{place_in, made_at, IsPlace, Reaches, ReachesAll};

use crate::choices::where_equal;
use crate::elements::{element, inner_element, variable};
use crate::indices::{holds, index};
use chw_base::NoMemory;
use chw_terms::Term;
use chw_types::{Kind, Ty};
use std::alloc::Global;

/// Which element of another vector comes to stand at a place.
#[derive(Clone, Copy)]
pub(crate) enum Order {
    /// That of the same place.
    Kept,
    /// That so many places further on.
    Past(u32),
    /// That of the same place from the last one on.
    Back,
    /// That of the same place, where the elements are turned round by so many.
    Turned(u32),
}

/// What stands at each place. A vector is given with the kind of its elements, its length and the type of its elements.
#[derive(Clone, Copy)]
pub(crate) enum Made<'t> {
    /// The variable 0.
    Same,
    /// What the function 0 gives on the place, in so many bits.
    Placed(u32),
    /// What the function 1 gives on the element of the vector 0.
    Mapped(Kind, u32, &'t Ty),
    /// What the function 2 gives on the elements of the vectors 1 and 0, with the types of both.
    Zipped(Kind, u32, &'t Ty, &'t Ty),
    /// An element of the vector of this number, by the order.
    Element(Kind, u32, &'t Ty, u32, Order),
    /// The element of an inner vector of the vector of vectors 0: the length and type of these, the number of the inner one, and
    /// its length and type.
    Inner(Kind, u32, &'t Ty, u32, u32, &'t Ty),
    /// The element of the vector 2, or the variable 0 where the variable 1, a word of so many bits, is the place.
    Replaced(u32, u32, &'t Ty),
}

impl Order {
    // The number of the element of so many that comes to stand at a place.
    fn place(self, len: u32, j: u32) -> u32
        requires { IsPlace self len j }
        ensures { result ≡ place_in self len j }
    {
        match self {
            Order::Kept => j,
            Order::Past(from) => from + j,
            Order::Back => len.saturating_sub(1).saturating_sub(j),
            Order::Turned(k) => turned(len, k, j),
        }
    }
}

// The place that comes to stand at j, where n elements are turned round by k.
fn turned(n: u32, k: u32, j: u32) -> u32
    requires { j < n }
    ensures { result ≡ (j + k) % n }
{
    ((u64::from(j) + u64::from(k)) % u64::from(n)) as u32
}

impl<'t> Made<'t> {
    // What stands at a place.
    fn at(self, alloc: Global, j: u32) -> Result<Term, NoMemory>
        requires { Reaches self j }
        ensures { IfOk result (λ e. e ≡ made_at self.entry j) }
    {
        match self {
            Made::Same => Ok(variable(alloc, 0)),
            Made::Placed(k) => Term::app(variable(alloc, 0), index(alloc, k, j)?),
            Made::Mapped(kind, n, a) => mapped_at(alloc, kind, n, a, j),
            Made::Zipped(kind, n, a, b) => zipped_at(alloc, kind, n, a, b, j),
            Made::Element(kind, len, a, v, order) => {
                element(alloc, kind, len, a, v, order.place(len, j))
            }
            Made::Inner(kind, n, inner, q, m, a) => {
                let v = element(alloc, kind, n, inner, 0, q)?;
                inner_element(alloc, kind, m, a, v, j)
            }
            Made::Replaced(n, k, a) => replaced_at(alloc, n, k, a, j),
        }
    }
}

// The function on element j.
fn mapped_at(alloc: Global, kind: Kind, n: u32, a: &Ty, j: u32) -> Result<Term, NoMemory>
    ensures { IfOk result (λ e. e ≡ app (var 1) (element kind n a.now (var 0) j)) }
{
    let x = element(alloc, kind, n, a, 0, j)?;
    Term::app(variable(alloc, 1), x)
}

// The function on the elements j of two vectors.
fn zipped_at(alloc: Global, kind: Kind, n: u32, a: &Ty, b: &Ty, j: u32) -> Result<Term, NoMemory>
    ensures { IfOk result (λ e. e ≡ app (app (var 2) (element kind n a.now (var 1) j)) (element kind n b.now (var 0) j)) }
{
    let x = element(alloc, kind, n, a, 1, j)?;
    let of_x = Term::app(variable(alloc, 2), x)?;
    let Ok(y) = element(alloc, kind, n, b, 0, j) else {
        drop(of_x);
        return Err(NoMemory);
    };
    Term::app(of_x, y)
}

// Element j after the replacement. No index of k bits names a place from 2 to the k on.
fn replaced_at(alloc: Global, n: u32, k: u32, a: &Ty, j: u32) -> Result<Term, NoMemory>
    ensures { IfOk result (λ e. e ≡ (if nat_lt j (2 ^ k) then where_equal k (var 1) j (var 0) (element Val n a.now (var 2) j) else element Val n a.now (var 2) j)) }
{
    let old = element(alloc, Kind::Val, n, a, 2, j)?;
    if holds(k, j) {
        where_equal(alloc, k, j, old)
    } else {
        Ok(old)
    }
}

/// Adds what stands at the places below n.
#[tactic(auto, using(crate::proofs::Lists::each_after))]
pub(crate) fn push_each(
    alloc: Global,
    n: u32,
    made: Made<'_>,
    done: &mut Vec<Term>,
) -> Result<(), NoMemory>
    requires { ReachesAll made n }
    ensures { OnOk result (done.new.items ≡ done.old.items ++ each n (made_at made.entry)) }
{
    for j in 0..n {
        let e = made.at(alloc, j)?;
        done.push(e)?;
    }
    Ok(())
}

/// The vector of these elements, with a copy of their type.
pub(crate) fn vector(alloc: Global, of: &Ty, done: Vec<Term>) -> Result<Term, NoMemory>
    ensures { IfOk result (λ e. e ≡ vec_of of.now done.items) }
{
    let of = of.copy(alloc)?;
    Ok(Term::vec_lit(alloc, of, done))
}

/// The vector of what stands at the places below n, of this type.
pub(crate) fn vector_of(alloc: Global, n: u32, of: &Ty, made: Made<'_>) -> Result<Term, NoMemory>
    requires { ReachesAll made n }
    ensures { IfOk result (λ e. e ≡ vec_of of.now (each n (made_at made.entry))) }
{
    let mut done = Vec::new(alloc);
    push_each(alloc, n, made, &mut done)?;
    vector(alloc, of, done)
}
