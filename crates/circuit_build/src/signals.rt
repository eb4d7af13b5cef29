//! The cells of primitives on signals, and of made definitions.
ghost use Rattle.std.specs.Prelude.{◌≡◌, List, IfOk, OnOk};
ghost use Rattle.chw_prims.specs.declared.prim.Primitive.TheVariants.{Fmap, Ap, Pure};
ghost use Rattle.chw_prims.specs.declared.prim.Primitive.TheVariants.{Register, BlockRam};
ghost use Rattle.chw_prims.specs.declared.prim.Primitive.TheVariants.{UnsafeSynchronizer};
ghost use Rattle.chw_terms.specs.TermTree.{prim, made};
ghost use Rattle.net_built.specs.Circuits.{CircuitCells, Ground, used};
ghost use Rattle.net_built.specs.Terms.{Variable as Placed};
ghost use Rattle.value_build.specs.Added.{Adds, next};
ghost use Rattle.value_build.specs.Arguments.{terms_in, types_in};
ghost use Rattle.value_build.specs.InScope.{in_scope};
ghost use Rattle.net_built.specs.Wires.{◌▸◌};
ghost use Rattle.net_ready.specs.Ready.{PureReady, RegisterReady, BlockRamReady};
ghost use Rattle.net_ready.specs.Ready.{AreNames};
ghost use Rattle.circuit_build.specs.Arguments.{steady_args, delay_args, memory_args};
ghost use Rattle.circuit_build.specs.Arguments.{crossing_args, lifting_args};
ghost use Rattle.circuit_build.specs.Lifting.{lifting, IsLiftedOn, AreLiftedReads};
ghost use Rattle.circuit_build.specs.Shapes.{IsMade, IsSomeLifted};

use crate::arguments::{Crossing, Delay, Lifting, Memory, Steady};
use crate::constants::{constant_bits, constant_words};
use crate::views::{Lifted, domain_of, lifted_of, made_of, one_width};
use chw_base::{MadeId, NoMemory, WireId};
use chw_terms::{Arg, Term};
use net_pieces::{Pieces, copies, memories};
use std::alloc::Global;
use value_build::Base;
use value_build::arguments::{closed_number, operand_wires};
use value_build::scope::{Variable, wires_of};

/// Appends one value at all times: `pure @d @a c`.
pub(crate) fn constant_signal(
    alloc: Global,
    base: &mut Base<'_>,
    into: &mut Pieces,
    widths: &[u32],
    p: Steady<'_>,
) -> Result<(), NoMemory>
    requires ready { PureReady base.old.datas widths.now (steady_args p) }
    ensures cells { OnOk result ((scope : List Placed) → Adds (CircuitCells base.old scope
        (next into.old) widths.now (prim Pure) (types_in (steady_args p.entry))
        (terms_in (steady_args p.entry))) into.old into.new) }
    ensures same { base.new ≡ base.old }
{
    let w = one_width(widths);
    let bits = constant_bits(alloc, base, p.payload, p.constant)?;
    copies::constant(into, w, bits)
}

/// Appends a register: `register @d @a c x`.
pub(crate) fn register(
    alloc: Global,
    base: &mut Base<'_>,
    scope: &[Variable],
    into: &mut Pieces,
    widths: &[u32],
    p: Delay<'_>,
) -> Result<(), NoMemory>
    requires ready { RegisterReady base.old.datas widths.now (delay_args p) }
    ensures cells { OnOk result (Adds (CircuitCells base.old (in_scope scope.now) (next into.old)
        widths.now (prim Register) (types_in (delay_args p.entry)) (terms_in (delay_args p.entry)))
        into.old into.new) }
    ensures same { base.new ≡ base.old }
{
    let domain = domain_of(p.domain);
    let w = one_width(widths);
    let bits = constant_bits(alloc, base, p.payload, p.first)?;
    copies::register(into, w, domain, bits, wires_of(scope, p.signal))
}

/// Appends a block RAM: `blockRam @d @n @k @a c x y`.
pub(crate) fn block_ram(
    alloc: Global,
    base: &mut Base<'_>,
    scope: &[Variable],
    into: &mut Pieces,
    widths: &[u32],
    p: Memory<'_>,
) -> Result<(), NoMemory>
    requires ready { BlockRamReady base.old.datas widths.now (memory_args p) }
    ensures cells { OnOk result (Adds (CircuitCells base.old (in_scope scope.now) (next into.old)
        widths.now (prim BlockRam) (types_in (memory_args p.entry))
        (terms_in (memory_args p.entry))) into.old into.new) }
    ensures same { base.new ≡ base.old }
{
    let domain = domain_of(p.domain);
    let w = one_width(widths);
    let words = constant_words(alloc, base, p.payload, p.words)?;
    let k = closed_number(p.bits);
    let read = wires_of(scope, p.read);
    let write = wires_of(scope, p.write);
    memories::memory(into, alloc, w, k, domain, words, read, write)
}

/// Appends a signal that is read in another domain: `unsafeSynchronizer @d @e @a x`.
pub(crate) fn synchronizer(
    scope: &[Variable],
    into: &mut Pieces,
    widths: &[u32],
    p: Crossing<'_>,
) -> Result<(), NoMemory>
    ensures { OnOk result ((g : Ground) → Adds (CircuitCells g (in_scope scope.now) (next into.old)
        widths.now (prim UnsafeSynchronizer) (types_in (crossing_args p.entry))
        (terms_in (crossing_args p.entry))) into.old into.new) }
{
    copies::copies(into, wires_of(scope, p.signal), widths)
}

// Appends a use of a made definition's module on these wires.
fn use_of(
    alloc: Global,
    base: &Base<'_>,
    into: &mut Pieces,
    widths: &[u32],
    m: MadeId,
    reads: &[WireId],
) -> Result<(), NoMemory>
    ensures { OnOk result (into.new
        ≡ into.old ▸ used base.now m.number (next into.old) reads.now widths.now) }
{
    let callee = base.module_of(m);
    copies::used(into, alloc, callee, reads, widths)
}

/// Appends a made definition that is lifted on one signal: `fmap @d @a @b m x`.
pub(crate) fn mapped(
    alloc: Global,
    base: &Base<'_>,
    scope: &[Variable],
    into: &mut Pieces,
    widths: &[u32],
    p: Lifting<'_>,
) -> Result<(), NoMemory>
    requires { IsMade p.function.now }
    ensures { OnOk result (Adds (CircuitCells base.now (in_scope scope.now) (next into.old)
        widths.now (prim Fmap) (types_in (lifting_args p.entry)) (terms_in (lifting_args p.entry)))
        into.old into.new) }
{
    let m = made_of(p.function);
    use_of(alloc, base, into, widths, m, wires_of(scope, p.signal))
}

// Adds the wires of the signal on which a made definition is lifted, and says which it is.
fn lifted_on_one(
    scope: &[Variable],
    p: Lifting<'_>,
    reads: &mut Vec<WireId>,
) -> Result<MadeId, NoMemory>
    requires { IsMade p.function.now }
    ensures { IfOk result (λ m. IsLiftedOn (in_scope scope.now) m.number (lifting Fmap p.entry)
        reads.old.items reads.new.items) }
{
    let m = made_of(p.function);
    reads.extend_from_slice(wires_of(scope, p.signal))?;
    Ok(m)
}

// Adds the wires of all signals on which a term lifts a made definition, and says which it is.
//
// Calls nest as deep as the term.
#[cycle(lifted)]
fn lifted(scope: &[Variable], u: &Term, reads: &mut Vec<WireId>) -> Result<MadeId, NoMemory>
    requires { IsSomeLifted u.now }
    ensures { IfOk result (λ m. IsLiftedOn (in_scope scope.now) m.number u.now
        reads.old.items reads.new.items) }
{
    match lifted_of(u) {
        Lifted::OnOne(p) => lifted_on_one(scope, p, reads),
        Lifted::OnMore(p) => lifted_on_more(scope, p, reads),
    }
}

// Adds the wires of the signals on which a function lifts a made definition, and of one signal
// more, and says which it is.
#[cycle(lifted)]
fn lifted_on_more(
    scope: &[Variable],
    p: Lifting<'_>,
    reads: &mut Vec<WireId>,
) -> Result<MadeId, NoMemory>
    requires { IsSomeLifted p.function.now }
    ensures { IfOk result (λ m. AreLiftedReads (in_scope scope.now) m.number p.entry.function.now
        p.entry.signal.now reads.old.items reads.new.items) }
{
    let m = lifted(scope, p.function, reads)?;
    reads.extend_from_slice(wires_of(scope, p.signal))?;
    Ok(m)
}

/// Appends a made definition that is lifted on several signals: `ap @d @a @b u x`.
pub(crate) fn lifted_call(
    alloc: Global,
    base: &Base<'_>,
    scope: &[Variable],
    into: &mut Pieces,
    widths: &[u32],
    p: Lifting<'_>,
) -> Result<(), NoMemory>
    requires { IsSomeLifted p.function.now }
    ensures { OnOk result (Adds (CircuitCells base.now (in_scope scope.now) (next into.old)
        widths.now (prim Ap) (types_in (lifting_args p.entry)) (terms_in (lifting_args p.entry)))
        into.old into.new) }
{
    let mut reads = Vec::new(alloc);
    let m = lifted_on_more(scope, p, &mut reads)?;
    use_of(alloc, base, into, widths, m, &reads)
}

/// Appends the cells of a made definition on these arguments.
pub(crate) fn call(
    alloc: Global,
    base: &Base<'_>,
    scope: &[Variable],
    into: &mut Pieces,
    widths: &[u32],
    m: MadeId,
    args: &[Arg],
) -> Result<(), NoMemory>
    requires { AreNames args.now }
    ensures { OnOk result (Adds (CircuitCells base.now (in_scope scope.now) (next into.old)
        widths.now (made m.number) (types_in args.now) (terms_in args.now)) into.old into.new) }
{
    let reads = operand_wires(alloc, scope, args)?;
    use_of(alloc, base, into, widths, m, &reads)
}
