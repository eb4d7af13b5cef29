//! Values as bits.
ghost use Rattle.std.specs.Prelude.{◌≡◌, ◌+◌, ◌-◌, ◌++◌, ◌<◌, ◌≤◌, ◌^◌, false, length, replicate, IfOk, OnOk};
ghost use Rattle.chw_bits.specs.Bits.{bits_of};
ghost use Rattle.chw_types.specs.References.{HasNoCycle};
ghost use Rattle.chw_types.specs.Arguments.{arguments};
ghost use Rattle.chw_types.specs.TypeView.{trees_of};
ghost use Rattle.chw_layout.specs.DatumView.{datums_of};
ghost use Rattle.chw_layout.specs.Encodes.{IsValueOf, AreElements, AreFields, Encodes, EncodesElements, EncodesFields};
ghost use Rattle.data_bits.specs.Encoding.{Adds, Fits, FieldsFit};

use crate::constructors::constructor;
use crate::known_width::width_of;
use chw_base::{NoMemory, Or};
use chw_bits::Bits;
use chw_layout::{DataNode, DataValue};
use chw_types::{Data, Ty, TyNode, put_arguments};
use std::alloc::Global;

/// The bits of a value of a closed type that has a width: a scalar's own, those of a vector's elements in order, and of data the number
/// of the constructor among those of its data type, the fields in order, and zeros up to the width.
pub fn encode(alloc: Global, v: &DataValue, t: &Ty, datas: &[Data]) -> Result<Bits, NoMemory>
    requires order { HasNoCycle datas.now }
    requires value { IsValueOf datas.now t.now v.now }
    requires fits { Fits datas.now t.now }
    ensures { IfOk result (λ b. Encodes datas.now t.now v.now b) }
{
    let mut bits = Vec::new(alloc);
    encode_into(alloc, v, t, datas, &mut bits)?;
    Ok(Bits::of_list(bits))
}

// Adds the bits of a value at the end.
#[cycle(encoding)]
fn encode_into(
    alloc: Global,
    v: &DataValue,
    t: &Ty,
    datas: &[Data],
    into: &mut Vec<bool>,
) -> Result<(), NoMemory>
    requires order { HasNoCycle datas.now }
    requires value { IsValueOf datas.now t.now v.now }
    requires fits { Fits datas.now t.now }
    ensures { OnOk result (Adds (Encodes datas.now t.now v.now) into.old.items into.new.items) }
{
    match &v.node {
        DataNode::Scalar(bits) => {
            into.extend_from_slice(bits.as_slice())?;
            Ok(())
        }
        DataNode::Vec(values) => {
            let TyNode::Vec(_, of) = &t.node else {
                unreachable!();
            };
            Ok(encode_elements(alloc, values, of, datas, into)?)
        }
        DataNode::Data(con, values) => {
            let TyNode::DataOf(at, args) = &t.node else {
                unreachable!();
            };
            let width = width_of(alloc, t, datas)?;
            let from = into.len();
            let found = constructor(datas, at.number, con.number)?;
            push_number(alloc, into, found.width, found.tag)?;
            encode_fields(alloc, values, found.fields, args, datas, into)?;
            Ok(fill(into, from, width)?)
        }
    }
}

// Adds the bits of these values of one type.
#[cycle(encoding)]
fn encode_elements(
    alloc: Global,
    values: &[DataValue],
    of: &Ty,
    datas: &[Data],
    into: &mut Vec<bool>,
) -> Result<(), NoMemory>
    requires order { HasNoCycle datas.now }
    requires values { AreElements datas.now of.now (datums_of values.now) }
    requires fits { Fits datas.now of.now }
    ensures { OnOk result (Adds (EncodesElements datas.now of.now (datums_of values.now)) into.old.items into.new.items) }
{
    for value in values {
        encode_into(alloc, value, of, datas, into)?;
    }
    Ok(())
}

// Adds the bits of the values of these fields, with the arguments put in.
#[cycle(encoding)]
fn encode_fields(
    alloc: Global,
    values: &[DataValue],
    fields: &[Ty],
    args: &[Ty],
    datas: &[Data],
    into: &mut Vec<bool>,
) -> Result<(), NoMemory>
    requires order { HasNoCycle datas.now }
    requires values { AreFields datas.now fields.now (arguments (trees_of args.now)) (datums_of values.now) }
    requires fits { FieldsFit datas.now fields.now (arguments (trees_of args.now)) }
    ensures { OnOk result (Adds (EncodesFields datas.now fields.now (arguments (trees_of args.now)) (datums_of values.now)) into.old.items into.new.items) }
{
    for (i, value) in values.iter().enumerate() {
        let of = put_arguments(alloc, &fields[i], args)?;
        encode_into(alloc, value, &of, datas, into)?;
    }
    Ok(())
}

// Adds a number in as many bits as the width.
fn push_number(alloc: Global, into: &mut Vec<bool>, width: u32, number: u32) -> Result<(), NoMemory>
    requires { number < 2 ^ width }
    ensures { OnOk result (into.new.items ≡ into.old.items ++ bits_of width number) }
{
    match Bits::of_number(alloc, width, u128::from(number)) {
        Ok(bits) => {
            into.extend_from_slice(bits.as_slice())?;
            Ok(())
        }
        Err(Or::Memory) => Err(NoMemory),
        Err(Or::Fault(_)) => unreachable!(),
    }
}

// Adds zeros until so many bits stand from a place on.
fn fill(into: &mut Vec<bool>, from: usize, width: u32) -> Result<(), NoMemory>
    requires { from ≤ length into.old.items }
    ensures { OnOk result (into.new.items ≡ into.old.items ++ replicate (width - (length into.old.items - from)) false) }
{
    let missing = (width as usize).saturating_sub(into.len() - from);
    for _place in 0..missing {
        into.push(false)?;
    }
    Ok(())
}
