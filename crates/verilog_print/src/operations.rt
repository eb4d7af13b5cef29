//! Assignments of operators and choices.
ghost use Rattle.std.specs.Prelude.{◌≡◌, ◌++◌, ℕ, List, OnOk};
ghost use Rattle.verilog_text.specs.Text.{assign_line, choice_text, name_in, sign1, sign2};
ghost use Rattle.verilog_text.specs.Text.{left_text, right_text};
ghost use Rattle.verilog_print.specs.Parts.{operand, operation_text};
ghost use Rattle.verilog_print.specs.Scopes.{scope_of};

use crate::assigns::start_assign;
use crate::names::put_name;
use crate::pieces::put;
use crate::scope::Scope;
use chw_base::{NoMemory, WireId};
use netlist::{Op1, Op2};

/// The sign of an operator on one wire.
fn sign_of_one(op: Op1) -> &'static [u8]
    ensures { result.now ≡ sign1 op }
{
    match op {
        Op1::Not => b"~",
        Op1::RedAnd => b"&",
        Op1::RedOr => b"|",
        Op1::RedXor => b"^",
    }
}

/// The sign of an operator on two wires, with its spaces.
fn sign_of_two(op: Op2) -> &'static [u8]
    ensures { result.now ≡ sign2 op }
{
    match op {
        Op2::Add => b" + ",
        Op2::Sub => b" - ",
        Op2::Mul => b" * ",
        Op2::And => b" & ",
        Op2::Or => b" | ",
        Op2::Xor => b" ^ ",
        Op2::Eq => b" == ",
        Op2::LtU => b" < ",
        Op2::LtS => b" < ",
        Op2::Shl => b" << ",
        Op2::Shr => b" >> ",
        Op2::Sar => b" >>> ",
    }
}

/// Whether the left operand is read as a signed number.
fn is_left_signed(op: Op2) -> bool
    ensures { (text : List ℕ) → left_text op text ≡ operand result text }
{
    matches!(op, Op2::LtS | Op2::Sar)
}

/// Whether the right operand is read as a signed number.
fn is_right_signed(op: Op2) -> bool
    ensures { (text : List ℕ) → right_text op text ≡ operand result text }
{
    matches!(op, Op2::LtS)
}

/// Writes the name of a wire that is read, as a signed number or as it is.
fn put_operand(out: &mut Vec<u8>, scope: &Scope, wire: WireId, signed: bool) -> Result<(), NoMemory>
    ensures { OnOk result (out.new.items ≡ out.old.items ++ operand signed (name_in (scope_of scope.now) wire)) }
{
    if !signed {
        return put_name(out, scope, wire);
    }
    put(out, b"$signed(")?;
    put_name(out, scope, wire)?;
    put(out, b")")?;
    Ok(())
}

/// Writes the line of an operator on one wire.
pub fn put_un(
    out: &mut Vec<u8>,
    scope: &Scope,
    wire: WireId,
    op: Op1,
    a: WireId,
) -> Result<(), NoMemory>
    ensures { OnOk result (out.new.items ≡ out.old.items
        ++ assign_line (name_in (scope_of scope.now) wire) (sign1 op ++ name_in (scope_of scope.now) a)) }
{
    start_assign(out, scope, wire)?;
    put(out, sign_of_one(op))?;
    put_name(out, scope, a)?;
    put(out, b";\n")?;
    Ok(())
}

/// Writes an operator between its two wires.
fn put_operation(
    out: &mut Vec<u8>,
    scope: &Scope,
    op: Op2,
    a: WireId,
    b: WireId,
) -> Result<(), NoMemory>
    ensures { OnOk result (out.new.items ≡ out.old.items
        ++ operation_text op (name_in (scope_of scope.now) a) (name_in (scope_of scope.now) b)) }
{
    put_operand(out, scope, a, is_left_signed(op))?;
    put(out, sign_of_two(op))?;
    put_operand(out, scope, b, is_right_signed(op))?;
    Ok(())
}

/// Writes the line of an operator on two wires.
pub fn put_bin(
    out: &mut Vec<u8>,
    scope: &Scope,
    wire: WireId,
    op: Op2,
    a: WireId,
    b: WireId,
) -> Result<(), NoMemory>
    ensures { OnOk result (out.new.items ≡ out.old.items ++ assign_line (name_in (scope_of scope.now) wire)
        (operation_text op (name_in (scope_of scope.now) a) (name_in (scope_of scope.now) b))) }
{
    start_assign(out, scope, wire)?;
    put_operation(out, scope, op, a, b)?;
    put(out, b";\n")?;
    Ok(())
}

/// Writes a choice between two wires.
fn put_choice(
    out: &mut Vec<u8>,
    scope: &Scope,
    condition: WireId,
    a: WireId,
    b: WireId,
) -> Result<(), NoMemory>
    ensures { OnOk result (out.new.items ≡ out.old.items ++ choice_text (name_in (scope_of scope.now) condition)
        (name_in (scope_of scope.now) a) (name_in (scope_of scope.now) b)) }
{
    put_name(out, scope, condition)?;
    put(out, b" ? ")?;
    put_name(out, scope, a)?;
    put(out, b" : ")?;
    put_name(out, scope, b)?;
    Ok(())
}

/// Writes the line of a choice.
pub fn put_mux(
    out: &mut Vec<u8>,
    scope: &Scope,
    wire: WireId,
    condition: WireId,
    a: WireId,
    b: WireId,
) -> Result<(), NoMemory>
    ensures { OnOk result (out.new.items ≡ out.old.items ++ assign_line (name_in (scope_of scope.now) wire)
        (choice_text (name_in (scope_of scope.now) condition)
        (name_in (scope_of scope.now) a) (name_in (scope_of scope.now) b))) }
{
    start_assign(out, scope, wire)?;
    put_choice(out, scope, condition, a, b)?;
    put(out, b";\n")?;
    Ok(())
}
