//! Bits as values.
ghost use Rattle.std.specs.Prelude.{◌≡◌, ◌*◌, ◌↔◌, ◌≤◌, false, length, drop, replicate, IsTrue, IfOk, IfSome, IfNone};
ghost use Rattle.chw_base.specs.declared.limits.TheConstants.{DATA_BITS};
ghost use Rattle.chw_bits.specs.Bits.{number_of};
ghost use Rattle.chw_types.specs.References.{HasNoCycle};
ghost use Rattle.chw_types.specs.Arguments.{arguments};
ghost use Rattle.chw_types.specs.TypeTree.{data_of};
ghost use Rattle.chw_types.specs.TypeView.{trees_of};
ghost use Rattle.chw_layout.specs.Datum.{Datum, Datums};
ghost use Rattle.chw_layout.specs.DatumView.{datums_of};
ghost use Rattle.chw_layout.specs.Measured.{closed_value, HasWidth};
ghost use Rattle.chw_layout.specs.Encodes.{Encodes};
ghost use Rattle.data_bits.specs.Decoding.{IsRow, ArePadded, FieldsWithin};

use crate::constructors::constructor_id;
use crate::known_width::width_of;
use chw_base::{ConId, NoMemory};
use chw_bits::Bits;
use chw_layout::{DataNode, DataValue, tag_width};
use chw_types::{Data, Ty, TyNode, put_arguments};
use std::alloc::Global;

/// The value of a closed type that has these bits, which are as many as the type's width.
///
/// `None` comes where no value has them: the tag is past the constructors, or what fills the width isn't zero.
pub fn decode(
    alloc: Global,
    bits: &Bits,
    t: &Ty,
    datas: &[Data],
) -> Result<Option<DataValue>, NoMemory>
    requires order { HasNoCycle datas.now }
    requires width { HasWidth datas.now t.now (length bits.now) }
    ensures some { IfOk result (λ r. IfSome r (λ v. Encodes datas.now t.now v bits.now)) }
    ensures none { IfOk result (λ r. IfNone r ((v : Datum) → Encodes datas.now t.now v bits.now → ⊥)) }
{
    decode_value(alloc, bits.as_slice(), t, datas)
}

// The value of a type that has these bits.
#[cycle(decoding)]
fn decode_value(
    alloc: Global,
    bits: &[bool],
    t: &Ty,
    datas: &[Data],
) -> Result<Option<DataValue>, NoMemory>
    requires order { HasNoCycle datas.now }
    requires width { HasWidth datas.now t.now (length bits.now) }
    ensures some { IfOk result (λ r. IfSome r (λ v. Encodes datas.now t.now v bits.now)) }
    ensures none { IfOk result (λ r. IfNone r ((v : Datum) → Encodes datas.now t.now v bits.now → ⊥)) }
{
    match &t.node {
        TyNode::Vec(len, of) => {
            let width = width_of(alloc, of, datas)?;
            let count = closed_number(len);
            let Some(values) = decode_elements(alloc, bits, count, of, width, datas)? else {
                return Ok(None);
            };
            let node = DataNode::Vec(values);
            Ok(Some(DataValue { node }))
        }
        TyNode::DataOf(at, args) => Ok(decode_data(alloc, bits, at.number, args, datas)?),
        // What has a width and is neither a vector nor data is a scalar.
        _ => {
            let node = DataNode::Scalar(bits_of_slice(alloc, bits)?);
            Ok(Some(DataValue { node }))
        }
    }
}

// So many values of one type, one after the other.
#[cycle(decoding)]
fn decode_elements(
    alloc: Global,
    bits: &[bool],
    count: u32,
    of: &Ty,
    width: u32,
    datas: &[Data],
) -> Result<Option<Vec<DataValue>>, NoMemory>
    requires order { HasNoCycle datas.now }
    requires width { HasWidth datas.now of.now width }
    requires length { length bits.now ≡ count * width }
    ensures some { IfOk result (λ r. IfSome r (λ vs. IsRow datas.now of.now count bits.now (datums_of vs.items))) }
    ensures none { IfOk result (λ r. IfNone r ((vs : Datums) → IsRow datas.now of.now count bits.now vs → ⊥)) }
{
    let width = width as usize;
    let mut values = Vec::new(alloc);
    let mut rest = bits;
    for _place in 0..count {
        let Some(value) = decode_value(alloc, &rest[..width], of, datas)? else {
            return Ok(None);
        };
        values.push(value)?;
        rest = after(rest, width);
    }
    Ok(Some(values))
}

// A constructor of the data type at these arguments, and its fields.
#[cycle(decoding)]
fn decode_data(
    alloc: Global,
    bits: &[bool],
    at: u32,
    args: &[Ty],
    datas: &[Data],
) -> Result<Option<DataValue>, NoMemory>
    requires order { HasNoCycle datas.now }
    requires width { HasWidth datas.now (data_of at (trees_of args.now)) (length bits.now) }
    ensures some { IfOk result (λ r. IfSome r (λ v. Encodes datas.now (data_of at (trees_of args.now)) v bits.now)) }
    ensures none { IfOk result (λ r. IfNone r ((v : Datum) → Encodes datas.now (data_of at (trees_of args.now)) v bits.now → ⊥)) }
{
    let at = at as usize;
    let cons = datas[at].cons.as_slice();
    let width = tag_width(cons.len()) as usize;
    let tag = number_in(alloc, &bits[..width])?;
    if tag >= cons.len() as u128 {
        return Ok(None);
    }
    let tag = tag as usize;
    let fields = cons[tag].fields.as_slice();
    let rest = after(bits, width);
    let Some(values) = decode_fields(alloc, rest, fields, args, datas)? else {
        return Ok(None);
    };
    let node = DataNode::Data(constructor_id(datas, at, tag)?, values);
    Ok(Some(DataValue { node }))
}

// Values of these fields with the arguments put in, one after the other, and zeros after them.
#[cycle(decoding)]
fn decode_fields(
    alloc: Global,
    bits: &[bool],
    fields: &[Ty],
    args: &[Ty],
    datas: &[Data],
) -> Result<Option<Vec<DataValue>>, NoMemory>
    requires order { HasNoCycle datas.now }
    requires width { FieldsWithin datas.now fields.now (arguments (trees_of args.now)) (length bits.now) }
    ensures some { IfOk result (λ r. IfSome r (λ vs. ArePadded datas.now fields.now (arguments (trees_of args.now)) bits.now (datums_of vs.items))) }
    ensures none { IfOk result (λ r. IfNone r ((vs : Datums) → ArePadded datas.now fields.now (arguments (trees_of args.now)) bits.now vs → ⊥)) }
{
    let mut values = Vec::new(alloc);
    let mut rest = bits;
    for field in fields {
        let of = put_arguments(alloc, field, args)?;
        let width = width_of(alloc, &of, datas)? as usize;
        let Some(value) = decode_value(alloc, &rest[..width], &of, datas)? else {
            return Ok(None);
        };
        values.push(value)?;
        rest = after(rest, width);
    }
    if !all_zero(rest) {
        return Ok(None);
    }
    Ok(Some(values))
}

// The bits after so many.
fn after(bits: &[bool], count: usize) -> &[bool]
    requires { count ≤ length bits.now }
    ensures { result.now ≡ drop count bits.now }
{
    &bits[count..]
}

// Whether no bit is set.
fn all_zero(bits: &[bool]) -> bool
    ensures { IsTrue result ↔ (bits.now ≡ replicate (length bits.now) false) }
{
    for bit in bits {
        if *bit {
            return false;
        }
    }
    true
}

fn bits_of_slice(alloc: Global, bits: &[bool]) -> Result<Bits, NoMemory>
    requires { length bits.now ≤ DATA_BITS }
    ensures { IfOk result (λ b. b ≡ bits.now) }
{
    Ok(Bits::of_list(Vec::from_slice(alloc, bits)?))
}

// The number that these bits mean.
fn number_in(alloc: Global, bits: &[bool]) -> Result<u128, NoMemory>
    requires { length bits.now ≤ 128 }
    ensures { IfOk result (λ n. n ≡ number_of bits.now) }
{
    let bits = bits_of_slice(alloc, bits)?;
    match bits.number() {
        Some(number) => Ok(number),
        None => unreachable!(),
    }
}

// The natural that a closed type means, where sums and products end at 4,294,967,295; 0 where it is none.
#[tactic(auto, unfolding(chw_types::specs::SamePromises::natural_value))]
fn closed_number(t: &Ty) -> u32
    ensures { result ≡ closed_value t.now }
{
    match &t.node {
        TyNode::NatLit(n) => *n,
        TyNode::Sum(a, b) => closed_number(a).saturating_add(closed_number(b)),
        TyNode::Times(a, b) => closed_number(a).saturating_mul(closed_number(b)),
        _ => 0,
    }
}
