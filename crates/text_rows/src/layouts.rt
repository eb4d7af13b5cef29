//! The widths of types, and values as bits.
ghost use Rattle.std.specs.Prelude.{length};
ghost use Rattle.chw_layout.specs.Encodes.{IsValueOf};
ghost use Rattle.chw_layout.specs.Measured.{HasWidth};
ghost use Rattle.chw_terms.specs.Tidy.{IsTidy};
ghost use Rattle.chw_types.specs.References.{HasNoCycle};
ghost use Rattle.data_bits.specs.Encoding.{Fits};

use crate::typed::program_in;
use chw_base::{NoMemory, Or};
use chw_bits::Bits;
use chw_layout::{DataNode, DataValue, NoLayout, width};
use chw_terms::Program;
use chw_types::{Data, Ty};
use chw_typing::named_laws::data_types_in_order;
use data_bits::{decode, encode};
use itoa::Buffer;
use row_tables::{Unread, put, put_number};
use std::alloc::Global;

/// Writes the width of the type of a text's last definition, or what has none.
pub(crate) fn put_width(alloc: Global, text: &str, out: &mut Vec<u8>) -> Result<(), Or<Unread>> {
    let program = program_in(alloc, text)?;
    let outcome = put_width_in(alloc, &program, out);
    drop(program);
    outcome
}

// The same of a program.
fn put_width_in(alloc: Global, program: &Program, out: &mut Vec<u8>) -> Result<(), Or<Unread>>
    requires { IsTidy program.now }
{
    data_types_in_order();
    let Some(last) = program.defs.as_slice().last() else {
        return Err(Or::Fault(Unread));
    };
    match width(alloc, &last.ty, program.datas.as_slice()) {
        Ok(width) => Ok(put_number(out, "", width)?),
        Err(Or::Fault(why)) => Ok(put_no_width(alloc, why, out)?),
        Err(Or::Memory) => Err(Or::Memory),
    }
}

fn put_no_width(alloc: Global, why: NoLayout, out: &mut Vec<u8>) -> Result<(), NoMemory> {
    let shown = format!(in alloc; "{why}")?;
    put(out, shown.as_str())
}

/// Writes what a number means as a value of the type of a text's last definition, and the number
/// of the bits of that value.
pub(crate) fn put_value(alloc: Global, text: &str, out: &mut Vec<u8>) -> Result<(), Or<Unread>> {
    let Some((number, text)) = text.split_once(' ') else {
        return Err(Or::Fault(Unread));
    };
    let Ok(number) = number.parse::<u32>() else {
        return Err(Or::Fault(Unread));
    };
    let program = program_in(alloc, text)?;
    let outcome = put_value_in(alloc, number, &program, out);
    drop(program);
    outcome
}

// The same of a program.
fn put_value_in(
    alloc: Global,
    number: u32,
    program: &Program,
    out: &mut Vec<u8>,
) -> Result<(), Or<Unread>>
    requires { IsTidy program.now }
{
    data_types_in_order();
    let Some(last) = program.defs.as_slice().last() else {
        return Err(Or::Fault(Unread));
    };
    Ok(put_number_as(alloc, number, &last.ty, program.datas.as_slice(), out)?)
}

// The same of a type.
fn put_number_as(
    alloc: Global,
    number: u32,
    t: &Ty,
    datas: &[Data],
    out: &mut Vec<u8>,
) -> Result<(), NoMemory>
    requires { HasNoCycle datas.now }
{
    let Ok(width) = width(alloc, t, datas) else {
        return put(out, "no value");
    };
    let Ok(bits) = Bits::of_number(alloc, width, u128::from(number)) else {
        return put(out, "no value");
    };
    let outcome = put_bits_as(alloc, &bits, t, datas, out);
    drop(bits);
    outcome
}

// Writes what bits mean as a value of a type, and the number of the bits of that value.
fn put_bits_as(
    alloc: Global,
    bits: &Bits,
    t: &Ty,
    datas: &[Data],
    out: &mut Vec<u8>,
) -> Result<(), NoMemory>
    requires order { HasNoCycle datas.now }
    requires width { HasWidth datas.now t.now (length bits.now) }
{
    let Some(value) = decode(alloc, bits, t, datas)? else {
        return put(out, "no value");
    };
    let outcome = put_encoded(alloc, &value, t, datas, out);
    drop(value);
    outcome
}

// Writes a value of a data type, and the number of its bits.
fn put_encoded(
    alloc: Global,
    value: &DataValue,
    t: &Ty,
    datas: &[Data],
    out: &mut Vec<u8>,
) -> Result<(), NoMemory>
    requires order { HasNoCycle datas.now }
    requires value { IsValueOf datas.now t.now value.now }
    requires fits { Fits datas.now t.now }
{
    let Some((constructor, field)) = parts_of(value) else {
        return put(out, "no value");
    };
    put_number(out, "constructor ", constructor)?;
    put_wide(out, ", field ", field)?;
    let bits = encode(alloc, value, t, datas)?;
    let number = bits.number();
    drop(bits);
    put_wide(out, ", bits ", number)
}

// The number of the constructor, and that of its field.
fn parts_of(v: &DataValue) -> Option<(u32, Option<u128>)> {
    let DataNode::Data(con, values) = &v.node else {
        return None;
    };
    match values.first() {
        Some(field) => match &field.node {
            DataNode::Scalar(bits) => Some((con.number, bits.number())),
            _ => None,
        },
        None => Some((con.number, None)),
    }
}

// Writes a number after a sign, if there is one.
fn put_wide(out: &mut Vec<u8>, sign: &str, number: Option<u128>) -> Result<(), NoMemory> {
    let Some(number) = number else {
        return Ok(());
    };
    let mut digits = Buffer::new();
    put(out, sign)?;
    put(out, digits.format(number))
}
