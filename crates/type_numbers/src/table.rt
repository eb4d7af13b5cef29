//! A table of types.
ghost use Rattle.std.specs.Prelude.{◌≡◌, ℕ, [], Some, IfOk, IfSome, IfNone};
ghost use Rattle.std.specs.List.{slice_get};
ghost use Rattle.chw_types.specs.TypeTree.{TypeTree, fun};
ghost use Rattle.type_numbers.specs.Nodes.{IsNode, Grows, HasNoFunction};
ghost use Rattle.type_numbers.specs.declared.node.Node.TheVariants.{OfPair};
ghost use Rattle.type_numbers.specs.declared.node.Pair.TheVariants.{Fun};

use crate::node::{Alone, Node, Pair, pair_of, sort_of};
use chw_base::NoMemory;
use chw_types::{Ty, TyNode};
use indexmap::IndexSet;
use std::alloc::Global;
use std::marker::Model;

/// Types, which contracts see as a list, each type at its number.
#[derive(Drop)]
pub struct TypeTable {
    /// What each type is made of, which stands before it.
    nodes: IndexSet<Node>,
}

impl Model for TypeTable {
    ghost use Rattle.std.specs.Prelude.{List, length, ◌<◌, ◌^◌};
    ghost use Rattle.std.specs.Coded.{coded_list};
    ghost use Rattle.chw_types.specs.TypeTree.{TypeTree};
    ghost use Rattle.chw_types.specs.TypeCode.{coded_tree};

    ghost Value = { List TypeTree };

    ghost coded = { coded_list coded_tree };

    ghost use Rattle.type_numbers.specs.Nodes.{AreNodes, types_of};

    ghost view = { λ t. types_of t.nodes.keys };

    ghost invariant = { λ t. AreNodes t.nodes.keys × (length t.nodes.keys < 2 ^ 32) };
}

impl TypeTable {
    /// No types.
    pub fn new(alloc: Global) -> TypeTable
        ensures { result ≡ [] }
    {
        TypeTable {
            nodes: IndexSet::new(alloc),
        }
    }

    /// The number of a type, which stands in the table from now on.
    ///
    /// A type past those that can be numbered finds no memory.
    pub fn put(&mut self, ty: &Ty) -> Result<u32, NoMemory>
        ensures number { IfOk result (λ n. slice_get self.new n ≡ Some ty.now) }
        ensures grown { Grows self.old self.new }
    {
        match &ty.node {
            TyNode::Var(at) => Ok(self.put_node(Node::Alone(Alone::Var, at.number))?),
            TyNode::NatLit(n) => Ok(self.put_node(Node::Alone(Alone::NatLit, *n))?),
            TyNode::DomOf(at) => Ok(self.put_node(Node::Alone(Alone::Domain, at.number))?),
            TyNode::Unsigned(w) | TyNode::Signed(w) | TyNode::BitVector(w) => {
                let w = self.put(w)?;
                Ok(self.put_node(Node::OfScalar(sort_of(ty), w))?)
            }
            TyNode::Sum(a, b)
            | TyNode::Times(a, b)
            | TyNode::Vec(a, b)
            | TyNode::Fun(a, b)
            | TyNode::Signal(a, b) => {
                let a = self.put(a)?;
                let b = self.put(b)?;
                Ok(self.put_node(Node::OfPair(pair_of(ty), a, b))?)
            }
            TyNode::DataOf(at, args) => {
                let mut done = self.put_node(Node::Alone(Alone::Data, at.number))?;
                for arg in args {
                    let next = self.put(arg)?;
                    done = self.put_node(Node::OfPair(Pair::Applied, done, next))?;
                }
                Ok(done)
            }
            TyNode::Forall(kind, of) => {
                let of = self.put(of)?;
                Ok(self.put_node(Node::OfForall(*kind, of))?)
            }
        }
    }

    // The number of what is made like this of types that stand in the table.
    fn put_node(&mut self, node: Node) -> Result<u32, NoMemory>
        requires { (t : TypeTree) × IsNode self.old node t }
        ensures number { IfOk result (λ n. (t : TypeTree) → IsNode self.old node t → slice_get self.new n ≡ Some t) }
        ensures grown { Grows self.old self.new }
    {
        if self.nodes.len() >= u32::MAX as usize {
            return Err(NoMemory);
        }
        let (place, _) = self.nodes.insert_full(node)?;
        Ok(place as u32)
    }

    /// The numbers of the parameter's type and the result's, of a function type of this number. Nothing comes exactly where no function type
    /// has the number.
    pub fn function_parts(&self, number: u32) -> Option<(u32, u32)>
        ensures some { IfSome result (λ p. (a b : TypeTree) × (slice_get self.now number ≡ Some (fun a b))
            × (slice_get self.now p.0 ≡ Some a) × (slice_get self.now p.1 ≡ Some b)) }
        ensures none { IfNone result (HasNoFunction self.now number) }
    {
        match self.nodes.get_index(number as usize) {
            Some(node) => parts_of(node),
            None => None,
        }
    }
}

// The numbers of a function type's parts, of what is made of them.
fn parts_of(node: &Node) -> Option<(u32, u32)>
    ensures some { IfSome result (λ p. node.now ≡ OfPair Fun p.0 p.1) }
    ensures none { IfNone result ((a b : ℕ) → node.now ≡ OfPair Fun a b → ⊥) }
{
    match node {
        Node::OfPair(pair, a, b) => match pair {
            Pair::Fun => Some((*a, *b)),
            Pair::Sum | Pair::Times | Pair::Vec | Pair::Signal | Pair::Applied => None,
        },
        Node::Alone(..) | Node::OfScalar(..) | Node::OfForall(..) => None,
    }
}
