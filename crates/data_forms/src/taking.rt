//! Bits, judged by a form.
ghost use Rattle.std.specs.Prelude.{◌≡◌, ◌<◌, ◌≤◌, ◌*◌, ◌↔◌, length, map, Some, IfOk, IfSome, IfNone, IsTrue};
ghost use Rattle.std.specs.List.{AllByRecursion, slice_get};
ghost use Rattle.chw_bits.specs.Bits.{number_of};
ghost use Rattle.chw_types.specs.References.{HasNoCycle};
ghost use Rattle.chw_types.specs.TypeTree.{ty_var};
ghost use Rattle.chw_layout.specs.Datum.{Datums};
ghost use Rattle.chw_layout.specs.Measured.{HasWidth};
ghost use Rattle.data_bits.specs.Decoding.{ArePadded, FieldsWithin, IsRow};
ghost use Rattle.data_forms.specs.Forms.{AreForms, HasRowWidth, IsEncoding, type_at};

use crate::forms::{Form, Shape};
use crate::reading::{after, all_zero, number};
use chw_base::{NoMemory, Seq};
use chw_bits::Bits;
use chw_types::{Data, Ty};
use data_bits::decode;
use std::alloc::Global;

/// Whether the bits, which are as many as the width of the type at this place of the table, encode a value of the type.
///
/// Memory is taken only where a value is decoded.
#[cycle(taking)]
pub fn takes(
    alloc: Global,
    forms: &[Form],
    at: usize,
    bits: &[bool],
    datas: &[Data],
) -> Result<bool, NoMemory>
    requires order { HasNoCycle datas.now }
    requires forms { AreForms datas.now forms.now }
    requires within { at < length forms.now }
    requires width { HasWidth datas.now (type_at forms.now at) (length bits.now) }
    ensures { IfOk result (λ yes. IsTrue yes ↔ IsEncoding datas.now (type_at forms.now at) bits.now) }
{
    let form = &forms[at];
    match &form.shape {
        Shape::All => Ok(true),
        Shape::Row { count, of } => Ok(takes_row(alloc, forms, *of, *count, bits, datas)?),
        Shape::Choice { tag, cons } => {
            let tag = *tag as usize;
            let Some(places) = chosen(cons.as_slice(), &bits[..tag]) else {
                return Ok(false);
            };
            Ok(takes_fields(alloc, forms, places, after(bits, tag), datas)?)
        }
        Shape::Decoded => is_decoded(alloc, bits, &form.ty, datas),
    }
}

// The places of the fields of the constructor with this number, where there is one.
fn chosen<'a>(cons: &'a [Seq<usize>], first: &[bool]) -> Option<&'a [usize]>
    requires { length first.now ≤ 64 }
    ensures some { IfSome result (λ places. slice_get cons.now (number_of first.now) ≡ Some places.now) }
    ensures none { IfNone result (length cons.now ≤ number_of first.now) }
{
    let places = cons.get(number(first))?;
    Some(places.as_slice())
}

// Whether a value of the type can be decoded.
fn is_decoded(alloc: Global, bits: &[bool], t: &Ty, datas: &[Data]) -> Result<bool, NoMemory>
    requires order { HasNoCycle datas.now }
    requires width { HasWidth datas.now t.now (length bits.now) }
    ensures { IfOk result (λ yes. IsTrue yes ↔ IsEncoding datas.now t.now bits.now) }
{
    let bits = Bits::of_list(Vec::from_slice(alloc, bits)?);
    Ok(decode(alloc, &bits, t, datas)?.is_some())
}

// Whether the bits encode so many values of the type at this place, one after the other.
#[cycle(taking)]
fn takes_row(
    alloc: Global,
    forms: &[Form],
    of: usize,
    count: u32,
    bits: &[bool],
    datas: &[Data],
) -> Result<bool, NoMemory>
    requires order { HasNoCycle datas.now }
    requires forms { AreForms datas.now forms.now }
    requires within { of < length forms.now }
    requires width { HasRowWidth datas.now (type_at forms.now of) count (length bits.now) }
    ensures { IfOk result (λ yes. IsTrue yes ↔ ((values : Datums) × IsRow datas.now (type_at forms.now of) count bits.now values)) }
{
    let width = forms[of].width;
    let mut rest = bits;
    for _place in 0..count {
        if !takes(alloc, forms, of, &rest[..width], datas)? {
            return Ok(false);
        }
        rest = after(rest, width);
    }
    Ok(true)
}

// Whether the bits encode values of the types at these places, one after the other, and are zero behind them.
#[cycle(taking)]
fn takes_fields(
    alloc: Global,
    forms: &[Form],
    places: &[usize],
    bits: &[bool],
    datas: &[Data],
) -> Result<bool, NoMemory>
    requires order { HasNoCycle datas.now }
    requires forms { AreForms datas.now forms.now }
    requires within { AllByRecursion (λ at. at < length forms.now) places.now }
    requires width { FieldsWithin datas.now (map (type_at forms.now) places.now) ty_var (length bits.now) }
    ensures { IfOk result (λ yes. IsTrue yes ↔ ((values : Datums) × ArePadded datas.now (map (type_at forms.now) places.now) ty_var bits.now values)) }
{
    let mut rest = bits;
    for at in places {
        let width = forms[*at].width;
        if !takes(alloc, forms, *at, &rest[..width], datas)? {
            return Ok(false);
        }
        rest = after(rest, width);
    }
    Ok(all_zero(rest))
}
