//! The text of declarations and of the top, a line each.
ghost use Rattle.std.specs.Prelude.{◌≡◌, ◌++◌, OnOk};
ghost use Rattle.std.specs.List.{flat_map};
ghost use Rattle.chw_grammar.specs.Text.{parameter_lexemes, fields_lexemes, constructor_lexemes, constructors_lexemes, ports_lexemes, top_lexemes, line, declaration_text};
ghost use Rattle.chw_text.specs.Spaced.{Puts};

use crate::heads::put_typed_name;
use crate::pieces::{put_before, put_end, put_kind, put_reset, put_sign, put_word};
use crate::terms::put_term;
use crate::types::put_type;
use chw_base::NoMemory;
use chw_grammar::{Constructor, Declaration, Parameter, Stand, Terminal, Top, TypeTree, Word};

/// Writes a declaration as a line.
pub fn put_declaration(out: &mut Vec<u8>, declaration: &Declaration) -> Result<(), NoMemory>
    ensures { OnOk result (out.new.items ≡ out.old.items ++ declaration_text declaration.now) }
{
    match declaration {
        Declaration::Domain(name, has_reset) => {
            put_sign(out, Terminal::Domain)?;
            put_word(out, name)?;
            put_reset(out, *has_reset)?;
            put_end(out)?;
            Ok(())
        }
        Declaration::Data(name, parameters, constructors) => {
            put_sign(out, Terminal::Data)?;
            put_word(out, name)?;
            put_parameters(out, parameters.as_slice())?;
            put_sign(out, Terminal::Equals)?;
            put_constructors(out, constructors.as_slice())?;
            put_end(out)?;
            Ok(())
        }
        Declaration::Def(name, ty, term) => {
            put_sign(out, Terminal::Def)?;
            put_typed_name(out, name, ty)?;
            put_term(out, term, false)?;
            put_end(out)?;
            Ok(())
        }
    }
}

/// Writes the top as a line.
pub fn put_top(out: &mut Vec<u8>, top: &Top) -> Result<(), NoMemory>
    ensures { OnOk result (out.new.items ≡ out.old.items ++ line (top_lexemes top.now)) }
{
    put_sign(out, Terminal::Top)?;
    put_word(out, &top.definition)?;
    put_ports(out, top.inputs.as_slice())?;
    put_ports(out, top.outputs.as_slice())?;
    put_end(out)?;
    Ok(())
}

/// Writes the parameters of a data type.
fn put_parameters(out: &mut Vec<u8>, parameters: &[Parameter]) -> Result<(), NoMemory>
    ensures { OnOk result (Puts out.old.items (flat_map parameter_lexemes parameters.now) out.new.items) }
{
    for parameter in parameters {
        put_parameter(out, parameter)?;
    }
    Ok(())
}

fn put_parameter(out: &mut Vec<u8>, parameter: &Parameter) -> Result<(), NoMemory>
    ensures { OnOk result (Puts out.old.items (parameter_lexemes parameter.now) out.new.items) }
{
    put_sign(out, Terminal::Open)?;
    put_word(out, &parameter.name)?;
    put_sign(out, Terminal::Colon)?;
    put_kind(out, parameter.kind)?;
    put_sign(out, Terminal::Close)?;
    Ok(())
}

/// Writes the constructors of a data type with `|` between.
fn put_constructors(out: &mut Vec<u8>, constructors: &[Constructor]) -> Result<(), NoMemory>
    ensures { OnOk result (Puts out.old.items (constructors_lexemes constructors.now) out.new.items) }
{
    for (i, constructor) in constructors.iter().enumerate() {
        put_before(out, i, Terminal::Bar)?;
        put_constructor(out, constructor)?;
    }
    Ok(())
}

fn put_constructor(out: &mut Vec<u8>, constructor: &Constructor) -> Result<(), NoMemory>
    ensures { OnOk result (Puts out.old.items (constructor_lexemes constructor.now) out.new.items) }
{
    put_word(out, &constructor.name)?;
    put_fields(out, constructor.fields.as_slice())?;
    Ok(())
}

fn put_fields(out: &mut Vec<u8>, fields: &[TypeTree]) -> Result<(), NoMemory>
    ensures { OnOk result (Puts out.old.items (fields_lexemes fields.now) out.new.items) }
{
    for field in fields {
        put_type(out, field, Stand::Simple)?;
    }
    Ok(())
}

/// Writes the names of ports in parentheses, with commas between.
fn put_ports(out: &mut Vec<u8>, names: &[Word]) -> Result<(), NoMemory>
    ensures { OnOk result (Puts out.old.items (ports_lexemes names.now) out.new.items) }
{
    put_sign(out, Terminal::Open)?;
    for (i, name) in names.iter().enumerate() {
        put_before(out, i, Terminal::Comma)?;
        put_word(out, name)?;
    }
    put_sign(out, Terminal::Close)?;
    Ok(())
}
