//! Whether the widths of wires and of what is assigned to them agree.
ghost use Rattle.std.specs.Prelude.{◌≡◌, ◌≤◌, ◌==◌, [], ◌∷◌, OnOk, map, nat_le};
ghost use Rattle.std.specs.List.{flat_map};
ghost use Rattle.verilog_checks.specs.Formed.{IsFormed};
ghost use Rattle.verilog_checks.specs.Least.{least_after};
ghost use Rattle.verilog_judge.specs.Read.{AreNarrowWires, AreReadKinds, IsReadKind, IsReadValue};
ghost use Rattle.verilog_rules.specs.Checks.{check};
ghost use Rattle.chw_base.specs.declared.limits.TheConstants.{WIRE_BITS};
ghost use Rattle.verilog_rules.specs.Texts.{is_word_of, width};
ghost use Rattle.verilog_rules.specs.WidthRules.{arithmetic_checks, binary_checks, comparison_checks, cut_checks, equal_checks, join_checks};
ghost use Rattle.verilog_rules.specs.WidthRules.{kind_checks, memory_width_checks, range_check, unary_checks, value_checks, width_check, wire_checks};
ghost use Rattle.verilog_tree.specs.declared.word.Line.{Line};

use crate::sizes::wide;
use chw_base::NoMemory;
use chw_base::limits::ARITHMETIC_BITS;
use netlist::{Op1, Op2};
use std::alloc::Global;
use verilog_checks::Least;
use verilog_checks::literals::{is_word, is_zeros};
use verilog_checks::numbers::{bits_of, exact, has_bits, is, is_below, runs_down};
use verilog_rules::{Kind, Operand, Value, Wire};
use verilog_tree::{Line, Memory, Range, Word};

/// An operand of n bits.
pub(crate) fn check_width(least: &mut Least, widths: &[u32], n: u32, a: Operand)
    ensures { least.new ≡ least_after least.old (width_check widths.now n a ∷ []) }
{
    least.check(a.at, wide(widths, a) == n);
}

fn check_range(least: &mut Least, range: &Range<'_>)
    ensures { least.new ≡ least_after least.old (range_check range.now ∷ []) }
{
    least.check(range.to.at, is(range.to.bytes, 0));
}

/// A literal of n bits.
pub(crate) fn check_word(
    alloc: Global,
    least: &mut Least,
    n: u32,
    literal: &Word<'_>,
) -> Result<(), NoMemory>
    requires { IsFormed literal.now }
    ensures { OnOk result (least.new ≡ least_after least.old (check literal.now.at (is_word_of n literal.now) ∷ [])) }
{
    let fits = is_word(alloc, literal, n)?;
    least.check(literal.at, fits);
    Ok(())
}

// The memory of a register of n bits.
fn check_memory(least: &mut Least, n: u32, literal: &Word<'_>, memory: &Memory<'_>)
    ensures { least.new ≡ least_after least.old (memory_width_checks n literal.now memory.now) }
{
    least.check(literal.at, is_zeros(literal, n));
    check_range(least, &memory.width);
    least.check(memory.width.from.at, has_bits(&memory.width, n));
    least.check(memory.places.from.at, is(memory.places.from.bytes, 0));
}

fn check_kind(alloc: Global, least: &mut Least, n: u32, kind: &Kind<'_>) -> Result<(), NoMemory>
    requires { IsReadKind kind.now }
    ensures { OnOk result (least.new ≡ least_after least.old (kind_checks n kind.now)) }
{
    match kind {
        Kind::Register(literal, None) => check_word(alloc, least, n, literal),
        Kind::Register(literal, Some(memory)) => {
            check_memory(least, n, literal, memory);
            Ok(())
        }
        Kind::Input | Kind::Plain => Ok(()),
    }
}

fn check_wire(alloc: Global, least: &mut Least, wire: &Wire<'_>) -> Result<(), NoMemory>
    requires narrow { width wire.now.line.range ≤ WIRE_BITS }
    requires kind { IsReadKind wire.now.kind }
    ensures { OnOk result (least.new ≡ least_after least.old (wire_checks wire.now)) }
{
    let n = bits_of(&wire.line.range);
    check_range(least, &wire.line.range);
    check_kind(alloc, least, n, &wire.kind)
}

/// The wires of a module.
pub(crate) fn check_wires(
    alloc: Global,
    least: &mut Least,
    wires: &[Wire<'_>],
) -> Result<(), NoMemory>
    requires narrow { AreNarrowWires wires.now }
    requires kinds { AreReadKinds wires.now }
    ensures { OnOk result (least.new ≡ least_after least.old (flat_map wire_checks wires.now)) }
{
    for wire in wires {
        check_wire(alloc, least, wire)?;
    }
    Ok(())
}

fn check_line(least: &mut Least, line: &Line<'_>)
    ensures { least.new ≡ least_after least.old (range_check line.now.range ∷ []) }
{
    check_range(least, &line.range);
}

/// The outputs of a module.
pub(crate) fn check_lines(least: &mut Least, lines: &[Line<'_>])
    ensures { least.new ≡ least_after least.old (map (λ (l : Line). range_check l.range) lines.now) }
{
    for line in lines {
        check_line(least, line);
    }
}

// At most n bits.
fn check_most(least: &mut Least, n: u32, sum: u128, at: usize)
    ensures { least.new ≡ least_after least.old (check at (nat_le sum n) ∷ []) }
{
    least.check(at, sum <= u128::from(n));
}

// At least n bits.
fn check_least(least: &mut Least, n: u32, sum: u128, at: usize)
    ensures { least.new ≡ least_after least.old (check at (nat_le n sum) ∷ []) }
{
    least.check(at, u128::from(n) <= sum);
}

// Wires that are joined to one of n bits.
fn check_join(least: &mut Least, widths: &[u32], n: u32, parts: &[Operand], close: usize)
    ensures { least.new ≡ least_after least.old (join_checks widths.now n 0 parts.now close) }
{
    let mut sum: u128 = 0;
    for a in parts {
        sum += u128::from(wide(widths, *a));
        check_most(least, n, sum, a.at);
    }
    check_least(least, n, sum, close);
}

// Whether a cut stays within its wire. Where it doesn't, its end says nothing more, since it stands behind its begin.
fn check_cut(least: &mut Least, widths: &[u32], n: u32, a: Operand, range: &Range<'_>)
    requires { range.now.from.at ≤ range.now.to.at }
    ensures { least.new ≡ least_after least.old (cut_checks widths.now n a range.now) }
{
    let within = is_below(range.from.bytes, wide(widths, a));
    least.check(range.from.at, within);
    if !within {
        return;
    }
    let from = exact(range.from.bytes);
    least.check(range.to.at, runs_down(from, range.to.bytes, n));
}

fn check_unary(least: &mut Least, widths: &[u32], n: u32, op: Op1, sign: usize, a: Operand)
    ensures { least.new ≡ least_after least.old (unary_checks widths.now n op sign a) }
{
    match op {
        Op1::Not => check_width(least, widths, n, a),
        Op1::RedAnd | Op1::RedOr | Op1::RedXor => least.check(sign, n == 1),
    }
}

// Operands that are as wide as the result.
fn check_equal(least: &mut Least, widths: &[u32], n: u32, a: Operand, b: Operand)
    ensures { least.new ≡ least_after least.old (equal_checks widths.now n a b) }
{
    check_width(least, widths, n, a);
    check_width(least, widths, n, b);
}

fn check_arithmetic(least: &mut Least, widths: &[u32], n: u32, sign: usize, a: Operand, b: Operand)
    ensures { least.new ≡ least_after least.old (arithmetic_checks widths.now n sign a b) }
{
    least.check(sign, n <= ARITHMETIC_BITS);
    check_equal(least, widths, n, a, b);
}

fn check_comparison(least: &mut Least, widths: &[u32], n: u32, sign: usize, a: Operand, b: Operand)
    ensures { least.new ≡ least_after least.old (comparison_checks widths.now n sign a b) }
{
    least.check(sign, n == 1);
    check_width(least, widths, wide(widths, a), b);
}

fn check_binary(
    least: &mut Least,
    widths: &[u32],
    n: u32,
    op: Op2,
    sign: usize,
    a: Operand,
    b: Operand,
)
    ensures { least.new ≡ least_after least.old (binary_checks widths.now n op sign a b) }
{
    match op {
        Op2::Add | Op2::Sub | Op2::Mul => check_arithmetic(least, widths, n, sign, a, b),
        Op2::And | Op2::Or | Op2::Xor => check_equal(least, widths, n, a, b),
        Op2::Eq | Op2::LtU | Op2::LtS => check_comparison(least, widths, n, sign, a, b),
        Op2::Shl | Op2::Shr | Op2::Sar => check_width(least, widths, n, a),
    }
}

fn check_choice(least: &mut Least, widths: &[u32], n: u32, c: Operand, a: Operand, b: Operand)
    ensures { least.new ≡ least_after least.old (width_check widths.now 1 c ∷ equal_checks widths.now n a b) }
{
    check_width(least, widths, 1, c);
    check_equal(least, widths, n, a, b);
}

/// What is assigned to a wire of n bits.
pub(crate) fn check_value(
    alloc: Global,
    least: &mut Least,
    widths: &[u32],
    n: u32,
    value: &Value<'_>,
) -> Result<(), NoMemory>
    requires { IsReadValue value.now }
    ensures { OnOk result (least.new ≡ least_after least.old (value_checks widths.now n value.now)) }
{
    match value {
        Value::Constant(literal) => check_word(alloc, least, n, literal),
        Value::Cut(a, range) => Ok(check_cut(least, widths, n, *a, range)),
        Value::Copy(a) => Ok(check_width(least, widths, n, *a)),
        Value::Join(parts, close) => Ok(check_join(least, widths, n, parts.as_slice(), *close)),
        Value::Unary(op, sign, a) => Ok(check_unary(least, widths, n, *op, *sign, *a)),
        Value::Binary(op, sign, a, b) => Ok(check_binary(least, widths, n, *op, *sign, *a, *b)),
        Value::Choice(c, a, b) => Ok(check_choice(least, widths, n, *c, *a, *b)),
    }
}
