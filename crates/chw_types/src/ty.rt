//! Types, which contracts see as plain trees.
ghost use Rattle.std.specs.Prelude.{◌≡◌, IfOk};
ghost use Rattle.chw_types.specs.TypeTree.{ty_var, nat_lit, nat_sum, nat_product, domain, scalar, vector, data_of, fun, signal, for_all};
ghost use Rattle.chw_types.specs.TypeView.{trees_of};
ghost use Rattle.chw_types.specs.Polynomials.{is_natural};

use crate::kind::{Kind, Scalar};
use crate::moves::shift;
use chw_base::{DataId, DomId, NoMemory, TyIx};
use std::alloc::Global;
use std::marker::Model;

/// A type. Its variables are counted from the innermost type binder, 0.
#[cycle(ty)]
#[derive(Drop)]
pub struct Ty {
    pub node: TyNode,
}

/// The forms of types. Naturals are types too: variables, numerals, sums and products.
#[cycle(ty)]
#[derive(Drop)]
pub enum TyNode {
    Var(TyIx),
    NatLit(u32),
    Sum(Box<Ty>, Box<Ty>),
    Times(Box<Ty>, Box<Ty>),
    DomOf(DomId),
    Unsigned(Box<Ty>),
    Signed(Box<Ty>),
    BitVector(Box<Ty>),
    /// The length, and the type of the elements.
    Vec(Box<Ty>, Box<Ty>),
    DataOf(DataId, Vec<Ty>),
    Fun(Box<Ty>, Box<Ty>),
    /// The domain, and the type of the payload.
    Signal(Box<Ty>, Box<Ty>),
    Forall(Kind, Box<Ty>),
}

impl Model for Ty {
    ghost use Rattle.chw_types.specs.TypeTree.{TypeTree};
    ghost use Rattle.chw_types.specs.TypeCode.{coded_tree};

    ghost Value = { TypeTree };

    ghost coded = { coded_tree };

    ghost use Rattle.chw_types.specs.TypeView.{tree_of};
    ghost use Rattle.chw_types.specs.TypeSize.{tree_size};

    ghost view = { λ t. tree_of t.node };

    ghost size = { tree_size };

    ghost use Rattle.chw_types.specs.TypeFalls.{type_falls};

    ghost size_decreases = { λ a h. type_falls a.node };
}

impl Ty {
    /// The type variable of this number.
    pub fn var(at: TyIx) -> Ty
        ensures { result ≡ ty_var at.number }
    {
        Ty {
            node: TyNode::Var(at),
        }
    }

    /// The numeral.
    pub fn nat(n: u32) -> Ty
        ensures { result ≡ nat_lit n }
    {
        Ty {
            node: TyNode::NatLit(n),
        }
    }

    /// The sum of two naturals.
    pub fn sum(alloc: Global, left: Ty, right: Ty) -> Result<Ty, NoMemory>
        ensures { IfOk result (λ t. t ≡ nat_sum left right) }
    {
        Ok(Ty {
            node: TyNode::Sum(Box::new(alloc, left)?, Box::new(alloc, right)?),
        })
    }

    /// The product of two naturals.
    pub fn times(alloc: Global, left: Ty, right: Ty) -> Result<Ty, NoMemory>
        ensures { IfOk result (λ t. t ≡ nat_product left right) }
    {
        Ok(Ty {
            node: TyNode::Times(Box::new(alloc, left)?, Box::new(alloc, right)?),
        })
    }

    /// The clock domain of this number.
    pub fn dom_of(at: DomId) -> Ty
        ensures { result ≡ domain at.number }
    {
        Ty {
            node: TyNode::DomOf(at),
        }
    }

    /// The scalar of this sort and width.
    pub fn scalar(alloc: Global, sort: Scalar, width: Ty) -> Result<Ty, NoMemory>
        ensures { IfOk result (λ t. t ≡ scalar sort width) }
    {
        let width = Box::new(alloc, width)?;
        match sort {
            Scalar::U => Ok(Ty {
                node: TyNode::Unsigned(width),
            }),
            Scalar::S => Ok(Ty {
                node: TyNode::Signed(width),
            }),
            Scalar::B => Ok(Ty {
                node: TyNode::BitVector(width),
            }),
        }
    }

    /// The vector of this length and type of elements.
    pub fn vec(alloc: Global, len: Ty, of: Ty) -> Result<Ty, NoMemory>
        ensures { IfOk result (λ t. t ≡ vector len of) }
    {
        Ok(Ty {
            node: TyNode::Vec(Box::new(alloc, len)?, Box::new(alloc, of)?),
        })
    }

    /// The data type of this number, at these arguments.
    pub fn data_of(at: DataId, args: Vec<Ty>) -> Ty
        ensures { result ≡ data_of at.number (trees_of args.items) }
    {
        Ty {
            node: TyNode::DataOf(at, args),
        }
    }

    /// The functions from one type to another.
    pub fn fun(alloc: Global, from: Ty, to: Ty) -> Result<Ty, NoMemory>
        ensures { IfOk result (λ t. t ≡ fun from to) }
    {
        Ok(Ty {
            node: TyNode::Fun(Box::new(alloc, from)?, Box::new(alloc, to)?),
        })
    }

    /// The signals of a domain with this payload.
    pub fn signal(alloc: Global, dom: Ty, of: Ty) -> Result<Ty, NoMemory>
        ensures { IfOk result (λ t. t ≡ signal dom of) }
    {
        Ok(Ty {
            node: TyNode::Signal(Box::new(alloc, dom)?, Box::new(alloc, of)?),
        })
    }

    /// The type that binds a type variable of this kind in another.
    pub fn forall(alloc: Global, kind: Kind, of: Ty) -> Result<Ty, NoMemory>
        ensures { IfOk result (λ t. t ≡ for_all kind of) }
    {
        Ok(Ty {
            node: TyNode::Forall(kind, Box::new(alloc, of)?),
        })
    }

    /// Whether a type has only variables, numerals, sums and products.
    #[tactic(auto, unfolding(crate::specs::Polynomials::is_natural))]
    pub fn is_natural(&self) -> bool
        ensures { result ≡ is_natural self.now }
    {
        match &self.node {
            TyNode::Var(_) => true,
            TyNode::NatLit(_) => true,
            TyNode::Sum(a, b) => a.is_natural() && b.is_natural(),
            TyNode::Times(a, b) => a.is_natural() && b.is_natural(),
            _ => false,
        }
    }

    /// The same type once more.
    #[tactic(auto, using(crate::proofs::TypeLaws::rename_by_none))]
    pub fn copy(&self, alloc: Global) -> Result<Ty, NoMemory>
        ensures { IfOk result (λ t. t ≡ self.now) }
    {
        Ok(shift(alloc, self, 0, 0)?)
    }
}
