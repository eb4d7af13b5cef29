//! Type arguments as numbers and types.
ghost use Rattle.std.specs.Prelude.{◌≡◌, ◌≤◌, ℕ, [], ◌∷◌, ◌++◌, map, IfOk, OnOk};
ghost use Rattle.chw_types.specs.Polynomials.{greatest};
ghost use Rattle.chw_types.specs.TypeTree.{nat_lit};
ghost use Rattle.chw_terms.specs.Evaluated.{evaluated};
ghost use Rattle.prim_vec.specs.Bodies.{Sized1, Sized2, Sized3, TwiceSized};

use chw_base::NoMemory;
use chw_terms::{evaluate, numeral};
use chw_types::Ty;
use std::alloc::Global;

/// The types, with closed naturals as numerals.
pub(crate) fn all_evaluated(alloc: Global, types: &[Ty]) -> Result<Vec<Ty>, NoMemory>
    ensures { IfOk result (λ ts. ts.items ≡ map evaluated types.now) }
{
    let mut done = Vec::new(alloc);
    push_evaluated(alloc, types, &mut done)?;
    Ok(done)
}

// Adds the types, with closed naturals as numerals.
fn push_evaluated(alloc: Global, types: &[Ty], done: &mut Vec<Ty>) -> Result<(), NoMemory>
    ensures { OnOk result (done.new.items ≡ done.old.items ++ map evaluated types.now) }
{
    for t in types {
        done.push(evaluate(alloc, t)?)?;
    }
    Ok(())
}

// The number that a numeral is.
fn number(t: &Ty) -> u32
    requires { (n : ℕ) × (t.now ≡ nat_lit n) }
    ensures { t.now ≡ nat_lit result }
{
    match numeral(t) {
        Some(n) => n,
        None => unreachable!(),
    }
}

/// A number of 32 bits is at most the greatest natural.
pub(crate) fn is_natural(number: u32)
    ensures { number ≤ greatest }
{}

/// A number and a type.
pub(crate) fn sized_1(types: &[Ty]) -> (u32, &Ty)
    requires { Sized1 types.now }
    ensures { types.now ≡ nat_lit result.0 ∷ result.1.now ∷ [] }
{
    (number(&types[0]), &types[1])
}

/// A number and two types.
pub(crate) fn sized_2(types: &[Ty]) -> (u32, &Ty, &Ty)
    requires { Sized2 types.now }
    ensures { types.now ≡ nat_lit result.0 ∷ result.1.now ∷ result.2.now ∷ [] }
{
    (number(&types[0]), &types[1], &types[2])
}

/// A number and three types.
pub(crate) fn sized_3(types: &[Ty]) -> (u32, &Ty, &Ty, &Ty)
    requires { Sized3 types.now }
    ensures { types.now ≡ nat_lit result.0 ∷ result.1.now ∷ result.2.now ∷ result.3.now ∷ [] }
{
    (number(&types[0]), &types[1], &types[2], &types[3])
}

/// Two numbers and a type.
pub(crate) fn twice_sized(types: &[Ty]) -> (u32, u32, &Ty)
    requires { TwiceSized types.now }
    ensures { types.now ≡ nat_lit result.0 ∷ nat_lit result.1 ∷ result.2.now ∷ [] }
{
    (number(&types[0]), number(&types[1]), &types[2])
}
