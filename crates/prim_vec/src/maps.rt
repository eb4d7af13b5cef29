//! Vectors of what a function gives on each element or place, and of one element many times.
ghost use Rattle.std.specs.Prelude.{IfOk};
ghost use Rattle.chw_prims.specs.declared.row.Row.TheVariants.{Mapped, Zipped, Generated, Replicated};
ghost use Rattle.prim_vec.specs.Bodies.{HasBody, IsBody};

use crate::made::{Made, vector_of};
use crate::sizes::{sized_1, sized_2, sized_3, twice_sized};
use chw_base::NoMemory;
use chw_terms::Term;
use chw_types::{Kind, Ty};
use std::alloc::Global;

pub(crate) fn mapped(alloc: Global, kind: Kind, types: &[Ty]) -> Result<Term, NoMemory>
    requires { HasBody (Mapped kind) types.now }
    ensures { IfOk result (λ e. IsBody (Mapped kind) types.now e) }
{
    let (n, a, b) = sized_2(types);
    vector_of(alloc, n, b, Made::Mapped(kind, n, a))
}

pub(crate) fn zipped(alloc: Global, kind: Kind, types: &[Ty]) -> Result<Term, NoMemory>
    requires { HasBody (Zipped kind) types.now }
    ensures { IfOk result (λ e. IsBody (Zipped kind) types.now e) }
{
    let (n, a, b, c) = sized_3(types);
    vector_of(alloc, n, c, Made::Zipped(kind, n, a, b))
}

pub(crate) fn generated(alloc: Global, kind: Kind, types: &[Ty]) -> Result<Term, NoMemory>
    requires { HasBody (Generated kind) types.now }
    ensures { IfOk result (λ e. IsBody (Generated kind) types.now e) }
{
    let (n, k, a) = twice_sized(types);
    vector_of(alloc, n, a, Made::Placed(k))
}

pub(crate) fn replicated(alloc: Global, kind: Kind, types: &[Ty]) -> Result<Term, NoMemory>
    requires { HasBody (Replicated kind) types.now }
    ensures { IfOk result (λ e. IsBody (Replicated kind) types.now e) }
{
    let (n, a) = sized_1(types);
    vector_of(alloc, n, a, Made::Same)
}
