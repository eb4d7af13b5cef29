//! The bits of constants.
ghost use Rattle.std.specs.Prelude.{◌≡◌, ◌-◌, ◌++◌, ◌≤◌, false, length, replicate, IfOk, OnOk};
ghost use Rattle.chw_bits.specs.Bits.{bits_of};
ghost use Rattle.chw_types.specs.Arguments.{arguments};
ghost use Rattle.chw_types.specs.TypeMoves.{sub};
ghost use Rattle.chw_types.specs.TypeView.{trees_of};
ghost use Rattle.chw_terms.specs.TermTree.{con};
ghost use Rattle.chw_terms.specs.TermView.{applied};
ghost use Rattle.net_built.specs.Memories.{HasBits, HasWords};
ghost use Rattle.net_ready.specs.Ready.{HasSomeBits, HasSomeWords};
ghost use Rattle.value_build.specs.Arguments.{terms_in};
ghost use Rattle.circuit_build.specs.Constants.{AddsBits, AddsElements, AddsFields, AreWords};
ghost use Rattle.circuit_build.specs.Constants.{HaveBits, FieldsHaveBits, HaveWords};

use crate::views::{Constant, constant_of, element_type, elements_of, types_applied};
use chw_base::{ConId, NoMemory, Seq, narrow};
use chw_bits::Bits;
use chw_layout::tag_width;
use chw_terms::{Arg, Term};
use chw_types::{Ty, put_arguments};
use layout_laws::laws::numbers_of_constructors;
use net_pieces::parts;
use std::alloc::Global;
use value_build::Base;

/// The bits of a constant of this type.
pub(crate) fn constant_bits(
    alloc: Global,
    base: &mut Base<'_>,
    t: &Ty,
    e: &Term,
) -> Result<Bits, NoMemory>
    requires bits { HasSomeBits base.old.datas t.now e.now }
    ensures bits { IfOk result (HasBits base.old.datas t.now e.now) }
    ensures same { base.new ≡ base.old }
{
    let mut bits = Vec::new(alloc);
    add_bits(alloc, base, t, e, &mut bits)?;
    let _count = narrow(bits.len())?;
    Ok(Bits::of_list(bits))
}

/// The bits of each element of a constant vector.
pub(crate) fn constant_words(
    alloc: Global,
    base: &mut Base<'_>,
    t: &Ty,
    e: &Term,
) -> Result<Seq<Bits>, NoMemory>
    requires words { HasSomeWords base.old.datas t.now e.now }
    ensures words { IfOk result (HasWords base.old.datas t.now e.now) }
    ensures same { base.new ≡ base.old }
{
    words(alloc, base, t, elements_of(&e.head))
}

// The bits of each of these constants of one type.
fn words(
    alloc: Global,
    base: &mut Base<'_>,
    t: &Ty,
    elements: &[Term],
) -> Result<Seq<Bits>, NoMemory>
    requires words { HaveWords base.old.datas t.now elements.now }
    ensures words { IfOk result (AreWords base.old.datas t.now elements.now) }
    ensures same { base.new ≡ base.old }
{
    let mut words = Vec::new(alloc);
    for element in elements {
        words.push(constant_bits(alloc, base, t, element)?)?;
    }
    Ok(Seq::from(words))
}

// Adds the bits of a constant of this type.
#[cycle(constants)]
fn add_bits(
    alloc: Global,
    base: &mut Base<'_>,
    t: &Ty,
    e: &Term,
    into: &mut Vec<bool>,
) -> Result<(), NoMemory>
    requires bits { HasSomeBits base.old.datas t.now e.now }
    ensures bits { OnOk result (AddsBits base.old.datas t.now e.now into.old.items into.new.items) }
    ensures same { base.new ≡ base.old }
{
    match constant_of(e) {
        Constant::Literal(bits) => add_literal(bits, into),
        Constant::Vector(elements) => add_elements(alloc, base, element_type(t), elements, into),
        Constant::Data(c, args) => add_data(alloc, base, t, c, args, into),
    }
}

// Adds the bits of a literal.
fn add_literal(bits: &Bits, into: &mut Vec<bool>) -> Result<(), NoMemory>
    ensures { OnOk result (into.new.items ≡ into.old.items ++ bits.now) }
{
    into.extend_from_slice(bits.as_slice())?;
    Ok(())
}

// Adds the bits of these constants of one type.
#[cycle(constants)]
fn add_elements(
    alloc: Global,
    base: &mut Base<'_>,
    t: &Ty,
    elements: &[Term],
    into: &mut Vec<bool>,
) -> Result<(), NoMemory>
    requires bits { HaveBits base.old.datas t.now elements.now }
    ensures bits { OnOk result (AddsElements base.old.datas t.now elements.now
        into.old.items into.new.items) }
    ensures same { base.new ≡ base.old }
{
    for element in elements {
        add_bits(alloc, base, t, element, into)?;
    }
    Ok(())
}

// Adds the bits of data of this type: the tag, the fields, and zeros up to the width.
#[cycle(constants)]
fn add_data(
    alloc: Global,
    base: &mut Base<'_>,
    t: &Ty,
    c: ConId,
    args: &[Arg],
    into: &mut Vec<bool>,
) -> Result<(), NoMemory>
    requires bits { HasSomeBits base.old.datas t.now (applied (con c.number) args.now) }
    ensures bits { OnOk result (AddsBits base.old.datas t.now (applied (con c.number) args.now)
        into.old.items into.new.items) }
    ensures same { base.new ≡ base.old }
{
    numbers_of_constructors();
    let Some(it) = base.constructor(c) else {
        unreachable!()
    };
    let width = base.width(alloc, t)?;
    let first = into.len();
    add_number(alloc, tag_width(it.it.cons.len()), it.place, into)?;
    add_fields(
        alloc,
        base,
        it.decl.fields.as_slice(),
        types_applied(t),
        args,
        into,
    )?;
    fill(into, first, width)
}

// Adds the bits of the terms among arguments, one for each of these fields with the arguments of
// the type put in.
#[cycle(constants)]
fn add_fields(
    alloc: Global,
    base: &mut Base<'_>,
    fields: &[Ty],
    types: &[Ty],
    args: &[Arg],
    into: &mut Vec<bool>,
) -> Result<(), NoMemory>
    requires bits { FieldsHaveBits base.old.datas fields.now (arguments (trees_of types.now))
        (terms_in args.now) }
    ensures bits { OnOk result (AddsFields base.old.datas fields.now (arguments (trees_of types.now))
        (terms_in args.now) into.old.items into.new.items) }
    ensures same { base.new ≡ base.old }
{
    let mut next: usize = 0;
    for arg in args {
        let Arg::OfTerm(e) = arg else {
            continue;
        };
        add_field(alloc, base, &fields[next], types, e, into)?;
        next += 1;
    }
    Ok(())
}

// Adds the bits of a constant of a field's type with the arguments put in.
#[cycle(constants)]
fn add_field(
    alloc: Global,
    base: &mut Base<'_>,
    field: &Ty,
    types: &[Ty],
    e: &Term,
    into: &mut Vec<bool>,
) -> Result<(), NoMemory>
    requires bits { HasSomeBits base.old.datas (sub field.now (arguments (trees_of types.now)))
        e.now }
    ensures bits { OnOk result (AddsBits base.old.datas (sub field.now (arguments (trees_of types.now)))
        e.now into.old.items into.new.items) }
    ensures same { base.new ≡ base.old }
{
    let t = put_arguments(alloc, field, types)?;
    let added = add_bits(alloc, base, &t, e, into);
    drop(t);
    added
}

// Adds the lowest bits of a number, so many.
fn add_number(alloc: Global, width: u32, number: u32, into: &mut Vec<bool>) -> Result<(), NoMemory>
    ensures { OnOk result (into.new.items ≡ into.old.items ++ bits_of width number) }
{
    let bits = parts::number(alloc, width, number)?;
    into.extend_from_slice(bits.as_slice())?;
    Ok(())
}

// Adds zeros until so many bits stand from a place on.
fn fill(into: &mut Vec<bool>, first: usize, width: u32) -> Result<(), NoMemory>
    requires { first ≤ length into.old.items }
    ensures { OnOk result (into.new.items
        ≡ into.old.items ++ replicate (width - (length into.old.items - first)) false) }
{
    let missing = (width as usize).saturating_sub(into.len() - first);
    for _place in 0..missing {
        into.push(false)?;
    }
    Ok(())
}
