//! The right sides of assignments.
ghost use Rattle.std.specs.Prelude.{◌≡◌, ◌∷◌, ◌++◌, IfOk, OnOk, map};
ghost use Rattle.verilog_checks.specs.Least.{least_after};
ghost use Rattle.verilog_rules.specs.NameRules.{is_copy, operand_check, operands_of};
ghost use Rattle.verilog_rules.specs.Resolving.{operand, value_of};

use crate::wires::Wires;
use chw_base::{NoMemory, Seq};
use std::alloc::Global;
use verilog_checks::Least;
use verilog_rules::{Operand, Value};
use verilog_tree::{Join, Right, Word};

// The wires of names, behind others.
fn read_all<'t>(
    wires: &Wires<'t>,
    least: &mut Least,
    names: &[Word<'t>],
    operands: &mut Vec<Operand>,
) -> Result<(), NoMemory>
    ensures operands { OnOk result (operands.new.items ≡ operands.old.items ++ map (operand wires.now) names.now) }
    ensures checks { OnOk result (least.new ≡ least_after least.old (map (operand_check wires.now) names.now)) }
{
    for name in names {
        let operand = wires.read(least, name);
        operands.push(operand)?;
    }
    Ok(())
}

// The joined wires.
fn join<'t>(
    alloc: Global,
    wires: &Wires<'t>,
    least: &mut Least,
    parts: &Join<'t>,
) -> Result<Vec<Operand>, NoMemory>
    ensures operands { IfOk result (λ v. v.items ≡ map (operand wires.now) (parts.now.first ∷ parts.now.others)) }
    ensures checks { OnOk result (least.new ≡ least_after least.old (map (operand_check wires.now) (parts.now.first ∷ parts.now.others))) }
{
    let mut operands = Vec::new(alloc);
    let first = wires.read(least, &parts.first);
    operands.push(first)?;
    read_all(wires, least, parts.others.as_slice(), &mut operands)?;
    Ok(operands)
}

/// The right side of an assignment, behind these wires.
pub(crate) fn value<'t>(
    alloc: Global,
    wires: &Wires<'t>,
    least: &mut Least,
    right: &Right<'t>,
) -> Result<Value<'t>, NoMemory>
    ensures value { IfOk result (λ v. v ≡ value_of wires.now right.now) }
    ensures checks { OnOk result (least.new ≡ least_after least.old (map (operand_check wires.now) (operands_of right.now))) }
{
    match right {
        Right::Constant(literal) => Ok(Value::Constant(*literal)),
        Right::Copy(a) => Ok(Value::Copy(wires.read(least, a))),
        Right::Join(parts) => {
            let operands = join(alloc, wires, least, parts)?;
            Ok(Value::Join(Seq::from(operands), parts.close))
        }
        Right::Cut(a, range) => Ok(Value::Cut(wires.read(least, a), *range)),
        Right::Unary(op, sign, a) => Ok(Value::Unary(*op, *sign, wires.read(least, a))),
        Right::Binary(op, sign, a, b) => {
            let a = wires.read(least, a);
            let b = wires.read(least, b);
            Ok(Value::Binary(*op, *sign, a, b))
        }
        Right::Choice(c, a, b) => {
            let c = wires.read(least, c);
            let a = wires.read(least, a);
            let b = wires.read(least, b);
            Ok(Value::Choice(c, a, b))
        }
    }
}

/// Whether the right side is a name alone.
pub(crate) fn is_copy(right: &Right<'_>) -> bool
    ensures { result ≡ is_copy right.now }
{
    matches!(right, Right::Copy(_))
}
