//! The cells of right sides that are no cases.
ghost use Rattle.std.specs.Prelude.{◌≡◌, ℕ, [], OnOk};
ghost use Rattle.chw_terms.specs.TermTree.{made, prim, var, vec_lit};
ghost use Rattle.chw_terms.specs.TermView.{tree_of, terms_of};
ghost use Rattle.chw_prims.specs.declared.prim.Primitive.TheVariants.{VGet, VAt};
ghost use Rattle.chw_types.specs.TypeTree.{TypeTree};
ghost use Rattle.net_built.specs.Bodies.{ValueCells};
ghost use Rattle.net_built.specs.Circuits.{Ground};
ghost use Rattle.net_built.specs.Terms.{head_of, types_of, operands_of};
ghost use Rattle.net_built.specs.Wires.{wire, one, ◌▸◌};
ghost use Rattle.netlist.specs.declared.net.Cell.TheVariants.{Const};
ghost use Rattle.net_ready.specs.Ready.{args_of, AreNames, ElementReady, ElementAtReady};
ghost use Rattle.net_ready.specs.Ready.{PrimitiveReady, ValueReady};
ghost use Rattle.rewriting.specs.Spots.{IsOnWords};
ghost use Rattle.value_build.specs.Added.{Adds, next};
ghost use Rattle.value_build.specs.Arguments.{terms_in, types_in};
ghost use Rattle.value_build.specs.InScope.{in_scope};

use crate::arguments::{element_wires, number_at, operand_at, operand_wires};
use crate::base::Base;
use crate::constructors::built;
use crate::scope::{Variable, wires_at};
use chw_base::{MadeId, NoMemory, Seq, VarIx};
use chw_bits::Bits;
use chw_prims::Prim;
use chw_terms::{Arg, Head, Term};
use net_pieces::{Pieces, copies, vectors, words};
use netlist::Cell;
use std::alloc::Global;

// An element of a vector, by a number of the type.
fn element(scope: &[Variable], into: &mut Pieces, w: u32, args: &[Arg]) -> Result<(), NoMemory>
    requires { ElementReady args.now }
    ensures { OnOk result ((g : Ground) → Adds (ValueCells g (in_scope scope.now) (next into.old) w (prim VGet)
        (types_in args.now) (terms_in args.now)) into.old into.new) }
{
    let behind = number_at(args, 1);
    vectors::element(into, w, behind, operand_at(scope, args, 0))
}

// An element of a vector, by a word.
fn element_at(
    alloc: Global,
    scope: &[Variable],
    into: &mut Pieces,
    w: u32,
    args: &[Arg],
) -> Result<(), NoMemory>
    requires { ElementAtReady args.now }
    ensures { OnOk result ((g : Ground) → Adds (ValueCells g (in_scope scope.now) (next into.old) w (prim VAt)
        (types_in args.now) (terms_in args.now)) into.old into.new) }
{
    let (n, k) = (number_at(args, 0), number_at(args, 1));
    let (v, i) = (operand_at(scope, args, 0), operand_at(scope, args, 1));
    vectors::element_at(into, alloc, w, n, k, v, i)
}

// A primitive on these arguments.
fn primitive(
    alloc: Global,
    scope: &[Variable],
    into: &mut Pieces,
    w: u32,
    which: Prim,
    args: &[Arg],
) -> Result<(), NoMemory>
    requires { PrimitiveReady which args.now }
    ensures { OnOk result ((g : Ground) → Adds (ValueCells g (in_scope scope.now) (next into.old) w (prim which)
        (types_in args.now) (terms_in args.now)) into.old into.new) }
{
    match which {
        Prim::VGet => element(scope, into, w, args),
        Prim::VAt => element_at(alloc, scope, into, w, args),
        _ => on_words(alloc, scope, into, which, args),
    }
}

// A primitive on words.
fn on_words(
    alloc: Global,
    scope: &[Variable],
    into: &mut Pieces,
    which: Prim,
    args: &[Arg],
) -> Result<(), NoMemory>
    requires { IsOnWords which }
    ensures { OnOk result ((g : Ground) (w : ℕ) → Adds (ValueCells g (in_scope scope.now) (next into.old) w (prim which)
        (types_in args.now) (terms_in args.now)) into.old into.new) }
{
    let (n, m) = (number_at(args, 0), number_at(args, 1));
    let (a, b) = (operand_at(scope, args, 0), operand_at(scope, args, 1));
    words::word_cells(into, alloc, which, n, m, a, b)
}

// A vector of these elements.
fn vector(
    alloc: Global,
    scope: &[Variable],
    into: &mut Pieces,
    w: u32,
    elements: &[Term],
) -> Result<(), NoMemory>
    ensures { OnOk result ((g : Ground) (t : TypeTree) → Adds (ValueCells g (in_scope scope.now) (next into.old) w
        (vec_lit t (terms_of elements.now)) [] []) into.old into.new) }
{
    let wire = into.next_wire();
    let wires = element_wires(alloc, scope, elements)?;
    into.one(w, Cell::Join(wire, Seq::from(wires)))
}

// A made definition on these arguments.
fn call(
    alloc: Global,
    base: &Base<'_>,
    scope: &[Variable],
    into: &mut Pieces,
    w: u32,
    m: MadeId,
    args: &[Arg],
) -> Result<(), NoMemory>
    requires { AreNames args.now }
    ensures { OnOk result (Adds (ValueCells base.now (in_scope scope.now) (next into.old) w (made m.number)
        (types_in args.now) (terms_in args.now)) into.old into.new) }
{
    let callee = base.module_of(m);
    let reads = operand_wires(alloc, scope, args)?;
    copies::used(into, alloc, callee, &reads, &[w])
}

// A variable.
fn copy(scope: &[Variable], into: &mut Pieces, w: u32, x: VarIx) -> Result<(), NoMemory>
    ensures { OnOk result ((g : Ground) → Adds (ValueCells g (in_scope scope.now) (next into.old) w
        (var x.number) [] []) into.old into.new) }
{
    copies::copies(into, wires_at(scope, x), &[w])
}

// A literal of these bits.
fn literal(alloc: Global, into: &mut Pieces, w: u32, bits: &Bits) -> Result<(), NoMemory>
    ensures { OnOk result (into.new ≡ into.old ▸ one w (Const (wire (next into.old)) bits.now)) }
{
    let bits = bits.copy(alloc)?;
    copies::constant(into, w, bits)
}

// The cells of a head on arguments.
fn applied_cells(
    alloc: Global,
    base: &mut Base<'_>,
    scope: &[Variable],
    into: &mut Pieces,
    w: u32,
    head: &Head,
    args: &[Arg],
) -> Result<(), NoMemory>
    requires { ValueReady base.old.datas (tree_of head.now) args.now }
    ensures cells { OnOk result (Adds (ValueCells base.old (in_scope scope.now) (next into.old) w
        (tree_of head.now) (types_in args.now) (terms_in args.now)) into.old into.new) }
    ensures same { base.new ≡ base.old }
{
    match head {
        Head::Con(c) => built(alloc, base, scope, into, w, *c, args),
        Head::PrimOf(which) => primitive(alloc, scope, into, w, *which, args),
        Head::Made(m) => call(alloc, base, scope, into, w, *m, args),
        Head::Var(x) => copy(scope, into, w, *x),
        Head::Lit(_, bits) => literal(alloc, into, w, bits),
        Head::VecLit(_, elements) => vector(alloc, scope, into, w, elements),
        _ => unreachable!(),
    }
}

/// Appends the cells of a right side of so many bits, which is no case.
pub(crate) fn value_cells(
    alloc: Global,
    base: &mut Base<'_>,
    scope: &[Variable],
    into: &mut Pieces,
    w: u32,
    e: &Term,
) -> Result<(), NoMemory>
    requires { ValueReady base.old.datas (head_of e.now) (args_of e.now) }
    ensures cells { OnOk result (Adds (ValueCells base.old (in_scope scope.now) (next into.old) w
        (head_of e.now) (types_of e.now) (operands_of e.now)) into.old into.new) }
    ensures same { base.new ≡ base.old }
{
    applied_cells(alloc, base, scope, into, w, &e.head, &e.args)
}
