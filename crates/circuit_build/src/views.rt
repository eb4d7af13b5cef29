//! Right sides, blocks and constants as they are read.
//!
//! A reader takes apart what is known to have its form, so nothing is refused and no memory is needed.
ghost use Rattle.std.specs.Prelude.{◌≡◌, ◌∷◌, [], ℕ, List};
ghost use Rattle.chw_base.specs.declared.index.ConId.{ConId as Con};
ghost use Rattle.chw_layout.specs.Datum.{Datum};
ghost use Rattle.chw_terms.specs.declared.term.Pattern.TheVariants.{OfCon};
ghost use Rattle.chw_terms.specs.TermTree.{made, prim, vec_lit};
ghost use Rattle.chw_terms.specs.TermView.{terms_of, tree_of};
ghost use Rattle.chw_types.specs.declared.declarations.Data.{Data};
ghost use Rattle.chw_types.specs.TypeTree.{TypeTree, data_of, domain, vector};
ghost use Rattle.chw_types.specs.TypeView.{trees_of};
ghost use Rattle.net_built.specs.Memories.{Denotes};
ghost use Rattle.net_ready.specs.Ready.{CircuitReady, IsOne, SignalReady};
ghost use Rattle.circuit_build.specs.Lifting.{lifting};
ghost use Rattle.circuit_build.specs.Shapes.{IsBlockForm, IsMade, IsPrimitive, IsVectorTerm};
ghost use Rattle.circuit_build.specs.Shapes.{IsConPattern, IsOneAlternative};
ghost use Rattle.circuit_build.specs.Shapes.{IsData, IsDomain, IsVector};
ghost use Rattle.circuit_build.specs.Shapes.{IsLiftedBy, IsSomeLifted};
ghost use Rattle.circuit_build.specs.Views.{block_term, side_args, side_head};
ghost use Rattle.circuit_build.specs.Views.{IsReadConstant, IsReadLifted};

use crate::arguments::{
    Crossing, Delay, Lifting, Memory, Steady, of_constant, of_crossing, of_delay, of_lifting,
    of_memory,
};
use chw_base::{ConId, DomId, MadeId, VarIx};
use chw_bits::Bits;
use chw_prims::Prim;
use chw_terms::{Alt, Arg, Binding, Head, Pattern, Term};
use chw_types::{Ty, TyNode};

/// A right side of a circuit.
#[derive(Clone, Copy)]
pub(crate) enum CircuitSide<'t> {
    Copy(VarIx),
    Constant(Steady<'t>),
    Register(Delay<'t>),
    Memory(Memory<'t>),
    Crossing(Crossing<'t>),
    /// A made definition that is lifted on one signal.
    Mapped(Lifting<'t>),
    /// One that is lifted on several signals.
    Lifted(Lifting<'t>),
    Call(MadeId, &'t [Arg]),
    Product(ConId, &'t [Arg]),
    /// The variable, and the one alternative.
    Projection(&'t Term, &'t [Alt]),
}

/// A right side, by its head and arguments.
pub(crate) fn circuit_side<'t>(head: &'t Head, args: &'t [Arg]) -> CircuitSide<'t>
    requires { (datas : List Data) × (vars : List TypeTree) × (widths : List ℕ)
        × CircuitReady datas vars widths (tree_of head.now) args.now }
    ensures head { tree_of head.now ≡ side_head result }
    ensures args { args.now ≡ side_args result }
{
    match head {
        Head::Var(x) => CircuitSide::Copy(*x),
        Head::PrimOf(which) => signal_side(*which, args),
        Head::Made(m) => CircuitSide::Call(*m, args),
        Head::Con(c) => CircuitSide::Product(*c, args),
        Head::Case(on, alts) => CircuitSide::Projection(on, alts),
        _ => unreachable!(),
    }
}

// A primitive on signals.
fn signal_side<'t>(which: Prim, args: &'t [Arg]) -> CircuitSide<'t>
    requires { (datas : List Data) × (widths : List ℕ) × SignalReady datas widths which args.now }
    ensures head { prim which ≡ side_head result }
    ensures args { args.now ≡ side_args result }
{
    match which {
        Prim::Pure => CircuitSide::Constant(of_constant(args)),
        Prim::Register => CircuitSide::Register(of_delay(args)),
        Prim::BlockRam => CircuitSide::Memory(of_memory(args)),
        Prim::UnsafeSynchronizer => CircuitSide::Crossing(of_crossing(args)),
        Prim::Fmap => CircuitSide::Mapped(of_lifting(args)),
        Prim::Ap => CircuitSide::Lifted(of_lifting(args)),
        _ => unreachable!(),
    }
}

/// A made definition that is lifted.
#[derive(Clone, Copy)]
pub(crate) enum Lifted<'t> {
    /// On one signal: the function is the made definition.
    OnOne(Lifting<'t>),
    /// On more: the function is lifted already.
    OnMore(Lifting<'t>),
}

/// A lifted term.
pub(crate) fn lifted_of<'t>(u: &'t Term) -> Lifted<'t>
    requires { IsSomeLifted u.now }
    ensures { IsReadLifted result u.now }
{
    let p = of_lifting(&u.args);
    let which = prim_of(&u.head);
    lifted_by(which, p)
}

// A primitive that lifts.
fn lifted_by<'t>(which: Prim, p: Lifting<'t>) -> Lifted<'t>
    requires { IsLiftedBy which p.function.now }
    ensures { IsReadLifted result (lifting which p.entry) }
{
    match which {
        Prim::Fmap => Lifted::OnOne(p),
        Prim::Ap => Lifted::OnMore(p),
        _ => unreachable!(),
    }
}

/// A block: a variable, or bindings and the variable that they give.
#[derive(Clone, Copy)]
pub(crate) enum Block<'t> {
    Variable(VarIx),
    Letrec(&'t [Binding], &'t Term),
}

/// A block, by its head.
pub(crate) fn block_of<'t>(head: &'t Head) -> Block<'t>
    requires { IsBlockForm (tree_of head.now) }
    ensures { tree_of head.now ≡ block_term result }
{
    match head {
        Head::Var(x) => Block::Variable(*x),
        Head::LetRec(bindings, body) => Block::Letrec(bindings, body),
        _ => unreachable!(),
    }
}

/// A constant: a literal, a vector of constants, or data of them.
#[derive(Clone, Copy)]
pub(crate) enum Constant<'t> {
    Literal(&'t Bits),
    Vector(&'t [Term]),
    Data(ConId, &'t [Arg]),
}

/// A constant.
pub(crate) fn constant_of<'t>(e: &'t Term) -> Constant<'t>
    requires { (value : Datum) × Denotes e.now value }
    ensures { IsReadConstant result e.now }
{
    match &e.head {
        Head::Lit(_, bits) => Constant::Literal(bits),
        Head::VecLit(_, elements) => Constant::Vector(elements),
        Head::Con(c) => Constant::Data(*c, &e.args),
        _ => unreachable!(),
    }
}

/// The elements of a vector.
pub(crate) fn elements_of<'t>(head: &'t Head) -> &'t [Term]
    requires { IsVectorTerm (tree_of head.now) }
    ensures { (t : TypeTree) × (tree_of head.now ≡ vec_lit t (terms_of result.now)) }
{
    match head {
        Head::VecLit(_, elements) => elements,
        _ => unreachable!(),
    }
}

// The made definition that a head is.
fn made_of_head(head: &Head) -> MadeId
    requires { IsMade (tree_of head.now) }
    ensures { tree_of head.now ≡ made result.number }
{
    match head {
        Head::Made(m) => *m,
        _ => unreachable!(),
    }
}

/// The made definition that a term is.
pub(crate) fn made_of(e: &Term) -> MadeId
    requires { IsMade e.now }
    ensures { e.now ≡ made result.number }
{
    made_of_head(&e.head)
}

// The primitive that a head is.
fn prim_of(head: &Head) -> Prim
    requires { IsPrimitive (tree_of head.now) }
    ensures { tree_of head.now ≡ prim result }
{
    match head {
        Head::PrimOf(which) => *which,
        _ => unreachable!(),
    }
}

/// How many variables the pattern of a constructor binds.
pub(crate) fn fields_bound(q: &Pattern) -> u32
    requires { IsConPattern q.now }
    ensures { (c : Con) × (q.now ≡ OfCon c result) }
{
    match q {
        Pattern::OfCon(_, count) => *count,
        _ => unreachable!(),
    }
}

/// The one alternative.
pub(crate) fn one_alternative(alts: &[Alt]) -> &Alt
    requires { IsOneAlternative alts.now }
    ensures { alts.now ≡ result.now ∷ [] }
{
    match alts {
        [only] => only,
        _ => unreachable!(),
    }
}

/// The domain that a type is.
pub(crate) fn domain_of(t: &Ty) -> DomId
    requires { IsDomain t.now }
    ensures { t.now ≡ domain result.number }
{
    match &t.node {
        TyNode::DomOf(at) => *at,
        _ => unreachable!(),
    }
}

/// The type of the elements of a vector of this type.
pub(crate) fn element_type(t: &Ty) -> &Ty
    requires { IsVector t.now }
    ensures { (n : TypeTree) × (t.now ≡ vector n result.now) }
{
    match &t.node {
        TyNode::Vec(_, of) => of,
        _ => unreachable!(),
    }
}

/// The types to which a data type is applied.
pub(crate) fn types_applied(t: &Ty) -> &[Ty]
    requires { IsData t.now }
    ensures { (d : ℕ) × (t.now ≡ data_of d (trees_of result.now)) }
{
    match &t.node {
        TyNode::DataOf(_, types) => types,
        _ => unreachable!(),
    }
}

/// The one width.
pub(crate) fn one_width(widths: &[u32]) -> u32
    requires { IsOne widths.now }
    ensures { widths.now ≡ result ∷ [] }
{
    match widths {
        [w] => *w,
        _ => unreachable!(),
    }
}
