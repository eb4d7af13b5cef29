//! Parts of the types of primitives. Variables are given by their numbers.
ghost use Rattle.std.specs.Prelude.{◌≡◌, IfOk};
ghost use Rattle.chw_types.specs.declared.kind.Scalar.TheVariants.{U};
ghost use Rattle.chw_types.specs.TypeTree.{ty_var, nat_lit, nat_sum, scalar, vector, signal, fun, for_all};
ghost use Rattle.chw_prims.specs.Schemas.{bool, maybe, pair};

use chw_base::{DataId, NoMemory, TyIx};
use chw_types::{Kind, Scalar, Ty};
use std::alloc::Global;

/// The variable of this number.
pub(crate) fn var(number: u32) -> Ty
    ensures { result ≡ ty_var number }
{
    Ty::var(TyIx { number })
}

/// The sum of two variables.
pub(crate) fn sum(alloc: Global, left: u32, right: u32) -> Result<Ty, NoMemory>
    ensures { IfOk result (λ t. t ≡ nat_sum (ty_var left) (ty_var right)) }
{
    Ty::sum(alloc, var(left), var(right))
}

/// One more than a variable.
pub(crate) fn one_more(alloc: Global, number: u32) -> Result<Ty, NoMemory>
    ensures { IfOk result (λ t. t ≡ nat_sum (ty_var number) (nat_lit 1)) }
{
    Ty::sum(alloc, var(number), Ty::nat(1))
}

/// An unsigned word whose width is a variable.
pub(crate) fn place(alloc: Global, width: u32) -> Result<Ty, NoMemory>
    ensures { IfOk result (λ t. t ≡ scalar U (ty_var width)) }
{
    Ty::scalar(alloc, Scalar::U, var(width))
}

/// A vector whose length is a variable.
pub(crate) fn elements(alloc: Global, len: u32, of: Ty) -> Result<Ty, NoMemory>
    ensures { IfOk result (λ t. t ≡ vector (ty_var len) of) }
{
    Ty::vec(alloc, var(len), of)
}

/// A signal whose domain is a variable.
pub(crate) fn samples(alloc: Global, dom: u32, of: Ty) -> Result<Ty, NoMemory>
    ensures { IfOk result (λ t. t ≡ signal (ty_var dom) of) }
{
    Ty::signal(alloc, var(dom), of)
}

/// A function whose argument is a variable.
pub(crate) fn function(alloc: Global, from: u32, to: Ty) -> Result<Ty, NoMemory>
    ensures { IfOk result (λ t. t ≡ fun (ty_var from) to) }
{
    Ty::fun(alloc, var(from), to)
}

/// A type with two type arguments.
pub(crate) fn for_2(alloc: Global, i: Kind, j: Kind, of: Ty) -> Result<Ty, NoMemory>
    ensures { IfOk result (λ t. t ≡ for_all i (for_all j of)) }
{
    Ty::forall(alloc, i, Ty::forall(alloc, j, of)?)
}

/// The data type `Bool`.
pub(crate) fn boolean(alloc: Global) -> Ty
    ensures { result ≡ bool }
{
    Ty::data_of(DataId { number: 0 }, Vec::new(alloc))
}

/// The data type `Maybe` at this type.
pub(crate) fn maybe(alloc: Global, of: Ty) -> Result<Ty, NoMemory>
    ensures { IfOk result (λ t. t ≡ maybe of) }
{
    let mut args = Vec::new(alloc);
    args.push(of)?;
    Ok(Ty::data_of(DataId { number: 1 }, args))
}

/// The data type `Pair` at these types.
pub(crate) fn pair(alloc: Global, first: Ty, second: Ty) -> Result<Ty, NoMemory>
    ensures { IfOk result (λ t. t ≡ pair first second) }
{
    let mut args = Vec::new(alloc);
    args.push(first)?;
    args.push(second)?;
    Ok(Ty::data_of(DataId { number: 2 }, args))
}

/// A write, where there is one: the place, and the value.
pub(crate) fn write(alloc: Global, width: u32, of: u32) -> Result<Ty, NoMemory>
    ensures { IfOk result (λ t. t ≡ maybe (pair (scalar U (ty_var width)) (ty_var of))) }
{
    maybe(alloc, pair(alloc, place(alloc, width)?, var(of))?)
}
