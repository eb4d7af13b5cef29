//! The blocks of circuits. A right side may name any binding of its letrec. The wires of each binding are those behind the pieces before
//! it, whatever these read. So a first pass in which no binding has wires finds them, and a second one has the cells.
ghost use Rattle.std.specs.Prelude.{◌≡◌, ℕ, ◌-◌, List, length, IfOk, OnOk};
ghost use Rattle.chw_terms.specs.declared.scene.Sort.TheVariants.{Circuit};
ghost use Rattle.chw_terms.specs.TermTree.{con, letrec, var};
ghost use Rattle.chw_terms.specs.TermView.{group_of};
ghost use Rattle.net_built.specs.Bodies.{BlockBuilt, GroupBuilt, SideBuilt};
ghost use Rattle.net_built.specs.Circuits.{CircuitCells, Ground};
ghost use Rattle.chw_types.specs.TypeTree.{TypeTree};
ghost use Rattle.chw_typing.specs.Scopes.{declared, with_more};
ghost use Rattle.net_built.specs.Data.{HasParts};
ghost use Rattle.net_built.specs.Terms.{head_of, types_of, operands_of, Variable as Placed};
ghost use Rattle.net_built.specs.Wires.{Piece, wire_count, wires_from};
ghost use Rattle.net_ready.specs.Ready.{args_of, types_on, BlockReady, CircuitReady, GroupReady, SideReady};
ghost use Rattle.circuit_build.specs.Views.{side_args, side_head};
ghost use Rattle.value_build.specs.Added.{Adds, next};
ghost use Rattle.value_build.specs.Arguments.{terms_in, types_in};
ghost use Rattle.value_build.specs.Groups.{bound_of};
ghost use Rattle.value_build.specs.InScope.{in_scope};

use crate::ports::{count_wires, port_parts};
use crate::projections::projection;
use crate::signals::{
    block_ram, call, constant_signal, lifted_call, mapped, register, synchronizer,
};
use crate::views::{Block, CircuitSide, block_of, circuit_side};
use chw_base::{NoMemory, Seq, VarIx, WireId};
use chw_terms::{Arg, Binding, Term};
use net_pieces::{Pieces, copies, parts};
use std::alloc::Global;
use value_build::Base;
use value_build::arguments::operand_wires;
use value_build::drafts::Wires;
use value_build::scope::{Variable, copy_wires, enter, name_of, wires_at};

// Appends the cells of a product: copies of the wires of its fields.
fn product(
    alloc: Global,
    scope: &[Variable],
    into: &mut Pieces,
    widths: &[u32],
    args: &[Arg],
) -> Result<(), NoMemory>
    ensures { OnOk result ((g : Ground) (c : ℕ) → Adds (CircuitCells g (in_scope scope.now) (next into.old)
        widths.now (con c) (types_in args.now) (terms_in args.now)) into.old into.new) }
{
    let wires = operand_wires(alloc, scope, args)?;
    copies::copies(into, &wires, widths)
}

// Appends the cells of a right side as it is read, with parts of these widths.
fn side_cells(
    alloc: Global,
    base: &mut Base<'_>,
    scope: &[Variable],
    into: &mut Pieces,
    widths: &[u32],
    side: CircuitSide<'_>,
) -> Result<(), NoMemory>
    requires ready { CircuitReady base.old.datas (types_on (in_scope scope.now)) widths.now
        (side_head side) (side_args side) }
    ensures cells { OnOk result (Adds (CircuitCells base.old (in_scope scope.now) (next into.old)
        widths.now (side_head side.entry) (types_in (side_args side.entry))
        (terms_in (side_args side.entry))) into.old into.new) }
    ensures same { base.new ≡ base.old }
{
    match side {
        CircuitSide::Copy(x) => copies::copies(into, wires_at(scope, x), widths),
        CircuitSide::Constant(p) => constant_signal(alloc, base, into, widths, p),
        CircuitSide::Register(p) => register(alloc, base, scope, into, widths, p),
        CircuitSide::Memory(p) => block_ram(alloc, base, scope, into, widths, p),
        CircuitSide::Crossing(p) => synchronizer(scope, into, widths, p),
        CircuitSide::Mapped(p) => mapped(alloc, base, scope, into, widths, p),
        CircuitSide::Lifted(p) => lifted_call(alloc, base, scope, into, widths, p),
        CircuitSide::Call(m, args) => call(alloc, base, scope, into, widths, m, args),
        CircuitSide::Product(_, args) => product(alloc, scope, into, widths, args),
        CircuitSide::Projection(on, alts) => {
            projection(alloc, base, scope, into, widths, on, alts)
        }
    }
}

// Appends the cells of a right side with parts of these widths.
fn circuit_cells(
    alloc: Global,
    base: &mut Base<'_>,
    scope: &[Variable],
    into: &mut Pieces,
    widths: &[u32],
    e: &Term,
) -> Result<(), NoMemory>
    requires ready { CircuitReady base.old.datas (types_on (in_scope scope.now)) widths.now
        (head_of e.now) (args_of e.now) }
    ensures cells { OnOk result (Adds (CircuitCells base.old (in_scope scope.now) (next into.old)
        widths.now (head_of e.now) (types_of e.now) (operands_of e.now)) into.old into.new) }
    ensures same { base.new ≡ base.old }
{
    let side = circuit_side(&e.head, &e.args);
    side_cells(alloc, base, scope, into, widths, side)
}

// The last wires, one for each part of these widths that has bits.
fn last_wires(alloc: Global, into: &Pieces, widths: &[u32]) -> Result<Seq<WireId>, NoMemory>
    ensures { IfOk result (λ wires. wires ≡ wires_from (next into.now - wire_count widths.now) (wire_count widths.now)) }
{
    let count = count_wires(widths)?;
    parts::wires_from(alloc, into.next().saturating_sub(count), count)
}

// Appends the cells of a right side with parts of these widths, and gives the wires of its result.
fn side_of(
    alloc: Global,
    base: &mut Base<'_>,
    scope: &[Variable],
    into: &mut Pieces,
    widths: &[u32],
    e: &Term,
) -> Result<Seq<WireId>, NoMemory>
    requires ready { CircuitReady base.old.datas (types_on (in_scope scope.now)) widths.now (head_of e.now) (args_of e.now) }
    ensures built { IfOk result (λ wires. (t : TypeTree) → HasParts base.old.datas Circuit t widths.now
        → Adds (λ p. SideBuilt base.old Circuit (in_scope scope.now) (next into.old) t e.now p wires) into.old into.new) }
    ensures same { base.new ≡ base.old }
{
    circuit_cells(alloc, base, scope, into, widths, e)?;
    last_wires(alloc, into, widths)
}

// Appends the cells of the right side of a binding, and gives the wires of its result.
fn side(
    alloc: Global,
    base: &mut Base<'_>,
    scope: &[Variable],
    into: &mut Pieces,
    binding: &Binding,
) -> Result<Seq<WireId>, NoMemory>
    requires ready { SideReady base.old.datas Circuit (types_on (in_scope scope.now)) binding.now.ty binding.now.body }
    ensures built { IfOk result (λ wires. Adds (λ p. SideBuilt base.old Circuit (in_scope scope.now)
        (next into.old) binding.now.ty binding.now.body p wires) into.old into.new) }
    ensures same { base.new ≡ base.old }
{
    let widths = port_parts(alloc, base, &binding.ty)?;
    side_of(alloc, base, scope, into, &widths, &binding.body)
}

// Appends the cells of right sides, and gives the wires of each.
fn sides(
    alloc: Global,
    base: &mut Base<'_>,
    scope: &[Variable],
    into: &mut Pieces,
    bindings: &[Binding],
) -> Result<Wires, NoMemory>
    requires ready { GroupReady base.old.datas Circuit (types_on (in_scope scope.now)) (group_of bindings.now) }
    ensures built { IfOk result (λ wires. Adds (λ p. GroupBuilt base.old Circuit (in_scope scope.now)
        (next into.old) (group_of bindings.now) p (bound_of bindings.now wires.items)) into.old into.new) }
    ensures same { base.new ≡ base.old }
{
    let mut found = Vec::new(alloc);
    for binding in bindings {
        found.push(side(alloc, base, scope, into, binding)?)?;
    }
    Ok(found)
}

// The wires of bindings whose right sides come behind inputs of these widths.
fn wires_of_bindings(
    alloc: Global,
    base: &mut Base<'_>,
    scope: &mut Vec<Variable>,
    inputs: &[u32],
    bindings: &[Binding],
) -> Result<Wires, NoMemory>
    requires ready { GroupReady base.old.datas Circuit (with_more (declared (group_of bindings.now))
        (types_on (in_scope scope.old.items))) (group_of bindings.now) }
    ensures built { IfOk result (λ wires. (outer : List Placed) × (p : Piece) × GroupBuilt base.old Circuit outer
        (length inputs.now) (group_of bindings.now) p (bound_of bindings.now wires.items)) }
    ensures scope { OnOk result (scope.new.items ≡ scope.old.items) }
    ensures same { base.new ≡ base.old }
{
    let left = scope.len();
    let none = Vec::new(alloc);
    enter(alloc, scope, bindings, &none)?;
    let mut scratch = Pieces::new(alloc, inputs)?;
    let found = sides(alloc, base, scope, &mut scratch, bindings);
    drop(scratch);
    scope.truncate(left);
    found
}

// Appends the cells of right sides, where the wires of the bindings are known.
fn group(
    alloc: Global,
    base: &mut Base<'_>,
    scope: &[Variable],
    into: &mut Pieces,
    bindings: &[Binding],
    wires: &[Seq<WireId>],
) -> Result<(), NoMemory>
    requires ready { GroupReady base.old.datas Circuit (types_on (in_scope scope.now)) (group_of bindings.now) }
    requires known { (outer : List Placed) × (p : Piece) × GroupBuilt base.old Circuit outer
        (next into.old) (group_of bindings.now) p (bound_of bindings.now wires.now) }
    ensures built { OnOk result (Adds (λ p. GroupBuilt base.old Circuit (in_scope scope.now)
        (next into.old) (group_of bindings.now) p (bound_of bindings.now wires.now)) into.old into.new) }
    ensures same { base.new ≡ base.old }
{
    let found = sides(alloc, base, scope, into, bindings)?;
    drop(found);
    Ok(())
}

// Appends the cells of bindings with these wires, and gives the wires of a variable in their scope.
fn variable_in(
    alloc: Global,
    base: &mut Base<'_>,
    scope: &mut Vec<Variable>,
    into: &mut Pieces,
    bindings: &[Binding],
    wires: &[Seq<WireId>],
    x: VarIx,
) -> Result<Seq<WireId>, NoMemory>
    requires ready { GroupReady base.old.datas Circuit (with_more (declared (group_of bindings.now))
        (types_on (in_scope scope.old.items))) (group_of bindings.now) }
    requires known { (outer : List Placed) × (p : Piece) × GroupBuilt base.old Circuit outer
        (next into.old) (group_of bindings.now) p (bound_of bindings.now wires.now) }
    ensures built { IfOk result (λ outputs. Adds (λ p. BlockBuilt base.old Circuit (in_scope scope.old.items)
        (next into.old) (letrec (group_of bindings.now) (var x.number)) p outputs) into.old into.new) }
    ensures same { base.new ≡ base.old }
{
    enter(alloc, scope, bindings, wires)?;
    group(alloc, base, scope, into, bindings, wires)?;
    copy_wires(alloc, wires_at(scope, x))
}

// Appends the cells of a letrec that gives a variable, and gives the wires of its result. The module has inputs of these widths.
fn letrec(
    alloc: Global,
    base: &mut Base<'_>,
    scope: &mut Vec<Variable>,
    into: &mut Pieces,
    inputs: &[u32],
    bindings: &[Binding],
    body: &Term,
) -> Result<Seq<WireId>, NoMemory>
    requires ready { BlockReady base.old.datas Circuit (types_on (in_scope scope.old.items))
        (letrec (group_of bindings.now) body.now) }
    requires fresh { next into.old ≡ length inputs.now }
    ensures built { IfOk result (λ outputs. Adds (λ p. BlockBuilt base.old Circuit (in_scope scope.old.items)
        (next into.old) (letrec (group_of bindings.now) body.now) p outputs) into.old into.new) }
    ensures same { base.new ≡ base.old }
{
    let x = name_of(body);
    let wires = wires_of_bindings(alloc, base, scope, inputs, bindings)?;
    let outputs = variable_in(alloc, base, scope, into, bindings, &wires, x);
    drop(wires);
    outputs
}

/// Appends the cells of a block behind inputs of these widths, and gives the wires of its result. The variables of its bindings stay in
/// scope.
pub(crate) fn block(
    alloc: Global,
    base: &mut Base<'_>,
    scope: &mut Vec<Variable>,
    into: &mut Pieces,
    inputs: &[u32],
    e: &Term,
) -> Result<Seq<WireId>, NoMemory>
    requires ready { BlockReady base.old.datas Circuit (types_on (in_scope scope.old.items)) e.now }
    requires fresh { next into.old ≡ length inputs.now }
    ensures built { IfOk result (λ outputs. Adds (λ p. BlockBuilt base.old Circuit (in_scope scope.old.items)
        (next into.old) e.now p outputs) into.old into.new) }
    ensures same { base.new ≡ base.old }
{
    match block_of(&e.head) {
        Block::Variable(x) => copy_wires(alloc, wires_at(scope, x)),
        Block::Letrec(bindings, body) => {
            letrec(alloc, base, scope, into, inputs, bindings, body)
        }
    }
}
