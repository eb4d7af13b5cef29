//! What a function makes of the elements of a vector, one after another.
ghost use Rattle.std.specs.Prelude.{◌≡◌, reverse, IfOk};
ghost use Rattle.std.specs.List.{fold, range_with_len};
ghost use Rattle.chw_prims.specs.declared.row.Row.TheVariants.{FoldedLeft, FoldedRight};
ghost use Rattle.chw_terms.specs.TermTree.{var, app};
ghost use Rattle.chw_terms.specs.Unrolled.{element};
ghost use Rattle.prim_vec.specs.Bodies.{HasBody, IsBody};

use crate::elements::{element, variable};
use crate::sizes::sized_2;
use chw_base::NoMemory;
use chw_terms::Term;
use chw_types::{Kind, Ty};
use std::alloc::Global;

// The function 2 on these two.
fn applied(alloc: Global, first: Term, second: Term) -> Result<Term, NoMemory>
    ensures { IfOk result (λ e. e ≡ app (app (var 2) first) second) }
{
    Term::app(Term::app(variable(alloc, 2), first)?, second)
}

// From the first element on.
#[tactic(auto, using(crate::proofs::Lists::fold_more))]
fn from_the_first(alloc: Global, kind: Kind, n: u32, a: &Ty) -> Result<Term, NoMemory>
    ensures { IfOk result (λ e. e ≡ fold (λ e j. app (app (var 2) e) (element kind n a.now (var 0) j)) (var 1) (range_with_len 0 n)) }
{
    let mut made = variable(alloc, 1);
    for j in 0..n {
        let x = element(alloc, kind, n, a, 0, j)?;
        made = applied(alloc, made, x)?;
    }
    Ok(made)
}

pub(crate) fn folded_left(alloc: Global, kind: Kind, types: &[Ty]) -> Result<Term, NoMemory>
    requires { HasBody (FoldedLeft kind) types.now }
    ensures { IfOk result (λ e. IsBody (FoldedLeft kind) types.now e) }
{
    let (n, a, _b) = sized_2(types);
    from_the_first(alloc, kind, n, a)
}

// From the last element on.
#[tactic(auto, using(crate::proofs::Lists::fold_each_more))]
fn from_the_last(alloc: Global, kind: Kind, n: u32, a: &Ty) -> Result<Term, NoMemory>
    ensures { IfOk result (λ e. e ≡ fold (λ e j. app (app (var 2) (element kind n a.now (var 0) j)) e) (var 1) (reverse (range_with_len 0 n))) }
{
    let mut made = variable(alloc, 1);
    for j in 0..n {
        let x = element(alloc, kind, n, a, 0, n - 1 - j)?;
        made = applied(alloc, x, made)?;
    }
    Ok(made)
}

pub(crate) fn folded_right(alloc: Global, kind: Kind, types: &[Ty]) -> Result<Term, NoMemory>
    requires { HasBody (FoldedRight kind) types.now }
    ensures { IfOk result (λ e. IsBody (FoldedRight kind) types.now e) }
{
    let (n, a, _b) = sized_2(types);
    from_the_last(alloc, kind, n, a)
}
