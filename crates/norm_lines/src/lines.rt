//! The lines of a run.
ghost use Rattle.std.specs.Prelude.{◌≡◌, ◌++◌, map, OnOk};
ghost use Rattle.norm_lines.specs.Places.{where_of};
ghost use Rattle.norm_lines.specs.Lines.{lines_from, made_line, normal_lines, step_line};

use crate::counts::put_counts;
use crate::names::{rule_name, sort_name};
use crate::pieces::{put, put_number, put_path};
use crate::place::StepAt;
use chw_base::NoMemory;
use chw_terms::Made;

// Appends the line of a step.
fn put_step(out: &mut Vec<u8>, number: usize, step: &StepAt) -> Result<(), NoMemory>
    ensures { OnOk result (out.new.items ≡ out.old.items ++ step_line number (where_of step.now)) }
{
    put_number(out, number)?;
    put(out, b" ")?;
    put(out, rule_name(step.rule).as_bytes())?;
    put(out, b" ")?;
    put_number(out, step.made.number as usize)?;
    put(out, b" ")?;
    put_path(out, &step.path)?;
    put(out, b"\n")
}

// Appends the lines of steps.
fn put_steps(out: &mut Vec<u8>, trace: &[StepAt]) -> Result<(), NoMemory>
    ensures { OnOk result (out.new.items ≡ out.old.items ++ lines_from step_line 0 (map where_of trace.now)) }
{
    for (number, step) in trace.iter().enumerate() {
        put_step(out, number, step)?;
    }
    Ok(())
}

// Appends the line of a made definition.
fn put_one_made(out: &mut Vec<u8>, number: usize, it: &Made) -> Result<(), NoMemory>
    ensures { OnOk result (out.new.items ≡ out.old.items ++ made_line number it.now) }
{
    put(out, b"made ")?;
    put_number(out, number)?;
    put(out, b" ")?;
    put(out, sort_name(it.sort).as_bytes())?;
    put(out, b" ")?;
    put_counts(out, &it.body)?;
    put(out, b"\n")
}

// Appends the lines of made definitions.
fn put_made(out: &mut Vec<u8>, made: &[Made]) -> Result<(), NoMemory>
    ensures { OnOk result (out.new.items ≡ out.old.items ++ lines_from made_line 0 made.now) }
{
    for (number, it) in made.iter().enumerate() {
        put_one_made(out, number, it)?;
    }
    Ok(())
}

/// Appends the lines of a run: one for each step, in order, and then one for each made definition, in order.
///
/// The line of a step is `NUMBER RULE MADE PATH`: its number, the name of its rule, the number of the made definition, and the path in
/// the body of that definition. The path is the numbers of the children, joined by dots, or `-` for the root. The line of a made
/// definition is `made NUMBER SORT params P bindings B`: P lambdas lead its body, and a letrec of B bindings stands under them. B is 0
/// if none stands there. Steps and made definitions are counted from 0.
///
/// `NoMemory` comes where the text can't grow so far, and where more than 2^32 - 1 lambdas lead a body. Nothing is then promised of the
/// text. The time is linear in the length of the lines and in the number of lambdas that lead the bodies.
pub fn put_lines(out: &mut Vec<u8>, trace: &[StepAt], made: &[Made]) -> Result<(), NoMemory>
    ensures { OnOk result (out.new.items ≡ out.old.items ++ normal_lines (map where_of trace.now) made.now) }
{
    put_steps(out, trace)?;
    put_made(out, made)
}
