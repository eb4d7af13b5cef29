//! Whether the widths of the wires of a module agree.
ghost use Rattle.std.specs.Prelude.{◌≡◌, ℕ, ◌+◌, ◌-◌, ◌<◌, ◌≤◌, Option, Some, None, length, slice_get, IfSome, MatchOption};
ghost use Rattle.std.specs.Bool.{Decides};
ghost use Rattle.std.specs.List.{AllByRecursion};
ghost use Rattle.netlist.specs.Sound.{AreArithmetic, AreCompared, AreEqual, AreShifted, Fits1, Fits2, HasWidth, IsWire, width_of_all};
ghost use Rattle.net_rules.specs.WellFormed.{AgreesRam, AgreesUse, Together, TopWidthsHold, WidthsAgree, WidthsHold};
ghost use Rattle.chw_clock.specs.declared.event.Port.{Port};

use chw_base::limits::{ADDRESS_BITS, ARITHMETIC_BITS};
use chw_base::{ModId, WireId};
use chw_clock::{Bits, Port, Ports};
use netlist::{Cell, Module, Net, Op1, Op2, RamIn};

/// The width of a wire, where it exists.
pub(crate) fn width(widths: &[u32], w: WireId) -> Option<u32>
    ensures { result ≡ slice_get widths.now w.number }
{
    widths.get(w.number as usize).copied()
}

/// Whether a wire exists.
pub(crate) fn is_wire(widths: &[u32], w: WireId) -> bool
    ensures { Decides result (IsWire widths.now w) }
{
    (w.number as usize) < widths.len()
}

/// Whether a wire exists and has this width.
pub(crate) fn has_width(widths: &[u32], w: WireId, n: u32) -> bool
    ensures { Decides result (HasWidth widths.now w n) }
{
    match width(widths, w) {
        Some(m) => m == n,
        None => false,
    }
}

// Whether two wires exist and have one width.
fn are_as_wide(widths: &[u32], w: WireId, a: WireId) -> bool
    ensures { Decides result ((n : ℕ) × HasWidth widths.now w n × HasWidth widths.now a n) }
{
    match width(widths, w) {
        Some(n) => has_width(widths, a, n),
        None => false,
    }
}

// Whether three wires exist and have one width.
fn are_equal(widths: &[u32], w: WireId, a: WireId, b: WireId) -> bool
    ensures { Decides result (AreEqual widths.now w a b) }
{
    match width(widths, w) {
        Some(n) => has_width(widths, a, n) && has_width(widths, b, n),
        None => false,
    }
}

// Whether three wires exist and have one width, on which arithmetic is done.
fn are_arithmetic(widths: &[u32], w: WireId, a: WireId, b: WireId) -> bool
    ensures { Decides result (AreArithmetic widths.now w a b) }
{
    match width(widths, w) {
        Some(n) => { n <= ARITHMETIC_BITS && has_width(widths, a, n) && has_width(widths, b, n) }
        None => false,
    }
}

// Whether a wire exists and has a bit of this number.
fn has_bit(widths: &[u32], a: WireId, bit: u32) -> bool
    ensures { Decides result ((n : ℕ) × (bit < n) × HasWidth widths.now a n) }
{
    match width(widths, a) {
        Some(n) => bit < n,
        None => false,
    }
}

// Whether an operator on one wire has widths that agree.
fn fits1(widths: &[u32], op: Op1, w: WireId, a: WireId) -> bool
    ensures { Decides result (Fits1 widths.now op w a) }
{
    match op {
        Op1::Not => are_as_wide(widths, w, a),
        Op1::RedAnd | Op1::RedOr | Op1::RedXor => has_width(widths, w, 1) && is_wire(widths, a),
    }
}

// Whether an operator on two wires has widths that agree.
fn fits2(widths: &[u32], op: Op2, w: WireId, a: WireId, b: WireId) -> bool
    ensures { Decides result (Fits2 widths.now op w a b) }
{
    match op {
        Op2::Add | Op2::Sub | Op2::Mul => are_arithmetic(widths, w, a, b),
        Op2::And | Op2::Or | Op2::Xor => are_equal(widths, w, a, b),
        Op2::Eq | Op2::LtU | Op2::LtS => has_width(widths, w, 1) && are_as_wide(widths, a, b),
        Op2::Shl | Op2::Shr | Op2::Sar => is_wire(widths, b) && are_as_wide(widths, w, a),
    }
}

// Whether the wires of a use are as wide as those of the module's inputs, which are its first wires.
fn reads_agree(widths: &[u32], reads: &[WireId], used: &[u32]) -> bool
    ensures { Decides result (Together (HasWidth widths.now) reads.now used.now) }
{
    reads
        .iter()
        .zip(used)
        .all(|(w, n)| has_width(widths, *w, *n))
}

// Whether the wires that a use drives are as wide as those of the module's outputs.
fn drives_agree(widths: &[u32], drives: &[WireId], used: &[u32], outputs: &[WireId]) -> bool
    ensures { Decides result (Together (λ w output. slice_get widths.now w.number ≡ slice_get used.now output.number) drives.now outputs.now) }
{
    drives
        .iter()
        .zip(outputs)
        .all(|(w, output)| width(widths, *w) == width(used, *output))
}

// Whether the wires of a use are as wide as the module's inputs and outputs.
fn use_agrees(widths: &[u32], used: &Module, reads: &[WireId], drives: &[WireId]) -> bool
    ensures { Decides result (AgreesUse widths.now used.now reads.now drives.now) }
{
    let inner = used.widths.as_slice();
    reads_agree(widths, reads, inner)
        && drives_agree(widths, drives, inner, used.outputs.as_slice())
}

// Whether a use of one of these modules has wires that agree. One of another module has no widths to agree with.
fn use_among_agrees(
    earlier: &[Module],
    widths: &[u32],
    m: ModId,
    reads: &[WireId],
    drives: &[WireId],
) -> bool
    ensures { Decides result (IfSome (slice_get earlier.now m.number) (λ used. AgreesUse widths.now used reads.now drives.now)) }
{
    match earlier.get(m.number as usize) {
        Some(used) => use_agrees(widths, used, reads, drives),
        None => true,
    }
}

// How many bits wires have side by side, where all exist.
fn total_width(widths: &[u32], parts: &[WireId]) -> Option<u128>
    ensures { MatchOption result (AllByRecursion (IsWire widths.now) parts.now → ⊥)
        (λ n. AllByRecursion (IsWire widths.now) parts.now × (n ≡ width_of_all widths.now parts.now)) }
{
    let mut total: u128 = 0;
    for part in parts {
        let Some(n) = width(widths, *part) else {
            return None;
        };
        total += u128::from(n);
    }
    Some(total)
}

// Whether wires exist, and the wire is as wide as they are side by side.
fn join_agrees(widths: &[u32], w: WireId, parts: &[WireId]) -> bool
    ensures { Decides result (AllByRecursion (IsWire widths.now) parts.now × HasWidth widths.now w (width_of_all widths.now parts.now)) }
{
    match (width(widths, w), total_width(widths, parts)) {
        (Some(n), Some(total)) => u128::from(n) == total,
        _ => false,
    }
}

// Whether each word has this many bits.
fn are_words(words: &[Bits], n: u32) -> bool
    ensures { Decides result (AllByRecursion (λ word. length word ≡ n) words.now) }
{
    words.iter().all(|word| word.len() == n)
}

// Whether a RAM shows, writes and holds words of one width.
fn words_agree(widths: &[u32], w: WireId, words: &[Bits], value: WireId) -> bool
    ensures { Decides result ((n : ℕ) × HasWidth widths.now w n × HasWidth widths.now value n × AllByRecursion (λ word. length word ≡ n) words.now) }
{
    match width(widths, w) {
        Some(n) => has_width(widths, value, n) && are_words(words, n),
        None => false,
    }
}

// Whether a RAM has addresses of 12 bits, and words of one width.
fn ram_agrees(widths: &[u32], w: WireId, words: &[Bits], inputs: &RamIn) -> bool
    ensures { Decides result (AgreesRam widths.now w words.now inputs.now) }
{
    has_width(widths, inputs.read, ADDRESS_BITS)
        && has_width(widths, inputs.enable, 1)
        && has_width(widths, inputs.place, ADDRESS_BITS)
        && words_agree(widths, w, words, inputs.value)
}

// Whether a wire exists, and has one bit more than this number.
fn has_bits_from(widths: &[u32], w: WireId, top: u32) -> bool
    ensures { Decides result (HasWidth widths.now w (top + 1)) }
{
    match width(widths, w) {
        Some(n) => n > 0 && n - 1 == top,
        None => false,
    }
}

// Whether a cut from one bit down to another is of a wire that has them, and is as wide as they are many.
fn cut_agrees(widths: &[u32], w: WireId, a: WireId, high: u32, low: u32) -> bool
    ensures { Decides result ((low ≤ high) × HasWidth widths.now w (high - low + 1) × ((n : ℕ) × (high < n) × HasWidth widths.now a n)) }
{
    low <= high && has_bits_from(widths, w, high - low) && has_bit(widths, a, high)
}

// Whether the widths of a cell's wires agree.
fn widths_agree(earlier: &[Module], widths: &[u32], cell: &Cell) -> bool
    ensures { Decides result (WidthsAgree earlier.now widths.now cell.now) }
{
    match cell {
        Cell::Const(w, bits) => has_width(widths, *w, bits.len()),
        Cell::Copy(w, a) => are_as_wide(widths, *w, *a),
        Cell::Join(w, parts) => join_agrees(widths, *w, parts.as_slice()),
        Cell::Cut(w, a, high, low) => cut_agrees(widths, *w, *a, *high, *low),
        Cell::Un(w, op, a) => fits1(widths, *op, *w, *a),
        Cell::Bin(w, op, a, b) => fits2(widths, *op, *w, *a, *b),
        Cell::Mux(w, c, a, b) => has_width(widths, *c, 1) && are_equal(widths, *w, *a, *b),
        Cell::Reg(w, _, initial, a) => {
            has_width(widths, *w, initial.len()) && has_width(widths, *a, initial.len())
        }
        Cell::Ram(w, _, words, inputs) => ram_agrees(widths, *w, words.as_slice(), inputs),
        Cell::Use(m, reads, drives) => {
            use_among_agrees(earlier, widths, *m, reads.as_slice(), drives.as_slice())
        }
    }
}

// Whether the widths of the wires of each cell agree.
fn cells_agree(earlier: &[Module], m: &Module) -> bool
    ensures { Decides result (AllByRecursion (WidthsAgree earlier.now m.now.widths) m.now.cells) }
{
    let widths = m.widths.as_slice();
    m.cells
        .as_slice()
        .iter()
        .all(|cell| widths_agree(earlier, widths, cell))
}

// Whether the inputs of the last module, which are its first wires, are as wide as the ports.
fn inputs_agree(ports: &[Port], widths: &[u32]) -> bool
    ensures { Decides result (Together (λ (port : Port) width. port.width ≡ width) ports.now widths.now) }
{
    ports
        .iter()
        .zip(widths)
        .all(|(port, width)| port.width == *width)
}

// Whether the outputs of the last module are as wide as the ports.
fn outputs_agree(widths: &[u32], ports: &[Port], outputs: &[WireId]) -> bool
    ensures { Decides result (Together (λ (port : Port) w. HasWidth widths.now w port.width) ports.now outputs.now) }
{
    ports
        .iter()
        .zip(outputs)
        .all(|(port, w)| has_width(widths, *w, port.width))
}

// Whether the inputs and outputs of the last module are as wide as the ports.
fn top_widths_hold(ports: &Ports, top: &Module) -> bool
    ensures { Decides result (TopWidthsHold ports.now top.now) }
{
    let widths = top.widths.as_slice();
    inputs_agree(ports.inputs.as_slice(), widths)
        && outputs_agree(widths, ports.outputs.as_slice(), top.outputs.as_slice())
}

/// Whether the widths of the wires of a module agree and, if it is the last, agree with those of the ports.
pub(crate) fn widths_hold(net: &Net, i: usize, m: &Module) -> bool
    requires { i < length net.now.modules }
    ensures { Decides result (WidthsHold net.now i m.now) }
{
    let modules = net.modules.as_slice();
    cells_agree(&modules[..i], m) && (i + 1 < modules.len() || top_widths_hold(&net.ports, m))
}
