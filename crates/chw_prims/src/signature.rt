//! The types of the primitives as data, and the types made of that. A number stands for the variable that has it.
ghost use Rattle.std.specs.Prelude.{◌≡◌, IfOk};
ghost use Rattle.chw_types.specs.TypeTree.{fun};
ghost use Rattle.chw_prims.specs.Signatures.{size_type, part_type, functions, under_kinds, signature_type};

use crate::build::{boolean, elements, for_2, function, one_more, place, samples, sum, var, write};
use chw_base::NoMemory;
use chw_types::{Kind, Scalar, Ty};
use std::alloc::Global;

/// A width or a length.
#[derive(Clone, Copy)]
pub(crate) enum Size {
    /// A variable.
    Given(u32),
    /// One more than a variable.
    OneMore(u32),
    /// A variable and one, and another variable.
    Above(u32, u32),
    /// The sum of two variables.
    Sum(u32, u32),
    /// The sum of two variables, and a third.
    SumOfThree(u32, u32, u32),
    /// The product of two variables.
    Product(u32, u32),
}

/// The type of an argument or of the result.
#[derive(Clone, Copy)]
pub(crate) enum Part {
    /// A variable.
    Var(u32),
    /// The data type `Bool`.
    Bool,
    /// A word of this sort and width.
    Word(Scalar, Size),
    /// A vector of this length, and the type of its elements.
    Vector(Size, u32),
    /// A vector of vectors: both lengths, and the type of the elements of the inner ones.
    Vectors(u32, u32, u32),
    /// A function.
    Function(u32, u32),
    /// A function of two arguments.
    FunctionOfTwo(u32, u32, u32),
    /// A function of an unsigned word of this width.
    OfPlace(u32, u32),
    /// A signal: its domain and its payload.
    Samples(u32, u32),
    /// A signal of functions.
    Functions(u32, u32, u32),
    /// A signal of unsigned words of this width.
    Places(u32, u32),
    /// A signal of writes: perhaps an unsigned word of this width, with a value beside it.
    Writes(u32, u32, u32),
}

/// The arguments, the first one first.
#[derive(Clone, Copy)]
pub(crate) enum Inputs {
    Single(Part),
    Double(Part, Part),
    Triple(Part, Part, Part),
}

/// The kinds of the type arguments, the first one first. The last one has the number 0.
#[derive(Clone, Copy)]
pub(crate) enum Kinds {
    One(Kind),
    Two(Kind, Kind),
    Three(Kind, Kind, Kind),
    Four(Kind, Kind, Kind, Kind),
}

/// What a primitive asks for, and what it gives.
#[derive(Clone, Copy)]
pub(crate) struct Signature {
    pub(crate) kinds: Kinds,
    pub(crate) inputs: Inputs,
    pub(crate) output: Part,
}

impl Size {
    // The natural that this size is.
    fn ty(self, alloc: Global) -> Result<Ty, NoMemory>
        ensures { IfOk result (λ t. t ≡ size_type self) }
    {
        match self {
            Size::Given(n) => Ok(var(n)),
            Size::OneMore(n) => one_more(alloc, n),
            Size::Above(n, m) => Ty::sum(alloc, one_more(alloc, n)?, var(m)),
            Size::Sum(n, m) => sum(alloc, n, m),
            Size::SumOfThree(l, m, n) => Ty::sum(alloc, sum(alloc, l, m)?, var(n)),
            Size::Product(n, m) => Ty::times(alloc, var(n), var(m)),
        }
    }
}

impl Part {
    // The type that this part is.
    fn ty(self, alloc: Global) -> Result<Ty, NoMemory>
        ensures { IfOk result (λ t. t ≡ part_type self) }
    {
        match self {
            Part::Var(a) => Ok(var(a)),
            Part::Bool => Ok(boolean(alloc)),
            Part::Word(sort, width) => Ty::scalar(alloc, sort, width.ty(alloc)?),
            Part::Vector(len, a) => Ty::vec(alloc, len.ty(alloc)?, var(a)),
            Part::Vectors(n, m, a) => elements(alloc, n, elements(alloc, m, var(a))?),
            Part::Function(a, b) => function(alloc, a, var(b)),
            Part::FunctionOfTwo(a, b, c) => function(alloc, a, function(alloc, b, var(c))?),
            Part::OfPlace(k, a) => Ty::fun(alloc, place(alloc, k)?, var(a)),
            Part::Samples(d, a) => samples(alloc, d, var(a)),
            Part::Functions(d, a, b) => samples(alloc, d, function(alloc, a, var(b))?),
            Part::Places(d, k) => samples(alloc, d, place(alloc, k)?),
            Part::Writes(d, k, a) => samples(alloc, d, write(alloc, k, a)?),
        }
    }

    // The functions of an argument of this type.
    fn to(self, alloc: Global, to: Ty) -> Result<Ty, NoMemory>
        ensures { IfOk result (λ t. t ≡ fun (part_type self) to) }
    {
        let from = self.ty(alloc)?;
        Ty::fun(alloc, from, to)
    }
}

impl Inputs {
    // The functions of these arguments to a type.
    fn to(self, alloc: Global, to: Ty) -> Result<Ty, NoMemory>
        ensures { IfOk result (λ t. t ≡ functions self to) }
    {
        match self {
            Inputs::Single(a) => a.to(alloc, to),
            Inputs::Double(a, b) => a.to(alloc, b.to(alloc, to)?),
            Inputs::Triple(a, b, c) => a.to(alloc, b.to(alloc, c.to(alloc, to)?)?),
        }
    }
}

impl Kinds {
    // The type that asks for type arguments of these kinds.
    fn around(self, alloc: Global, of: Ty) -> Result<Ty, NoMemory>
        ensures { IfOk result (λ t. t ≡ under_kinds self of) }
    {
        match self {
            Kinds::One(i) => Ty::forall(alloc, i, of),
            Kinds::Two(i, j) => for_2(alloc, i, j, of),
            Kinds::Three(i, j, k) => Ty::forall(alloc, i, for_2(alloc, j, k, of)?),
            Kinds::Four(i, j, k, l) => for_2(alloc, i, j, for_2(alloc, k, l, of)?),
        }
    }
}

impl Signature {
    /// The type that this signature is.
    pub(crate) fn ty(self, alloc: Global) -> Result<Ty, NoMemory>
        ensures { IfOk result (λ t. t ≡ signature_type self) }
    {
        let to = self.output.ty(alloc)?;
        self.kinds.around(alloc, self.inputs.to(alloc, to)?)
    }
}
