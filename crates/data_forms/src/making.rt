//! Tables of forms, made.
ghost use Rattle.std.specs.Prelude.{◌≡◌, List, ◌++◌, ◌∷◌, [], length, IfOk, OnOk};
ghost use Rattle.std.specs.Bool.{OnTrue};
ghost use Rattle.std.specs.List.{AllByRecursion};
ghost use Rattle.chw_types.specs.Arguments.{arguments};
ghost use Rattle.chw_types.specs.References.{HasNoCycle};
ghost use Rattle.chw_types.specs.declared.declarations.Data.{Data};
ghost use Rattle.chw_types.specs.TypeMoves.{sub};
ghost use Rattle.chw_types.specs.TypeTree.{data_of};
ghost use Rattle.chw_types.specs.TypeView.{trees_of};
ghost use Rattle.chw_layout.specs.Encodes.{HaveConstructors};
ghost use Rattle.chw_layout.specs.Measured.{closed_value, HasWidth};
ghost use Rattle.data_bits.specs.Encoding.{Fits, FieldsFit};
ghost use Rattle.data_forms.specs.Forms.{AreForms, AreTypesAt, Grows, IsShape, IsTypeAt, TakesAll, fields_of};

use crate::forms::{Form, Shape};
use chw_base::{NoMemory, Or, Seq};
use chw_layout::laws::zero_value;
use chw_layout::{tag_width, width};
use chw_types::{Data, Ty, TyNode, put_arguments};
use std::alloc::Global;

/// Where a table has so many forms, the bits of further data types, and of vectors of them, are decoded.
const FORMS: usize = 4_096;

/// The width of a type that has one.
fn width_of(alloc: Global, t: &Ty, datas: &[Data]) -> Result<usize, NoMemory>
    requires order { HasNoCycle datas.now }
    requires fits { Fits datas.now t.now }
    ensures { IfOk result (HasWidth datas.now t.now) }
{
    match width(alloc, t, datas) {
        Ok(width) => Ok(width as usize),
        Err(Or::Memory) => Err(NoMemory),
        Err(Or::Fault(_)) => unreachable!(),
    }
}

/// The natural that a closed type means, where sums and products end at 4,294,967,295; 0 where it is none.
#[tactic(auto, unfolding(chw_types::specs::SamePromises::natural_value))]
fn closed_number(t: &Ty) -> u32
    ensures { result ≡ closed_value t.now }
{
    match &t.node {
        TyNode::NatLit(n) => *n,
        TyNode::Sum(a, b) => closed_number(a).saturating_add(closed_number(b)),
        TyNode::Times(a, b) => closed_number(a).saturating_mul(closed_number(b)),
        _ => 0,
    }
}

/// Whether the type is a scalar, or a vector of such a type: all bits of its width are then encodings.
fn is_plain(t: &Ty) -> bool
    ensures { OnTrue result ((datas : List Data) → TakesAll datas t.now) }
{
    match &t.node {
        TyNode::Vec(_, of) => is_plain(of),
        TyNode::DataOf(_, _) => false,
        // What has a width and is neither a vector nor data is a scalar.
        _ => true,
    }
}

/// Puts the form of a type that has a width into the table, behind the forms of its parts, and says its place.
#[cycle(making)]
pub fn put_form(
    alloc: Global,
    t: &Ty,
    datas: &[Data],
    forms: &mut Vec<Form>,
) -> Result<usize, NoMemory>
    requires order { HasNoCycle datas.now }
    requires inhabited { HaveConstructors datas.now }
    requires fits { Fits datas.now t.now }
    requires forms { AreForms datas.now forms.old.items }
    ensures forms { OnOk result (AreForms datas.now forms.new.items) }
    ensures grown { OnOk result (Grows forms.old.items forms.new.items) }
    ensures at { IfOk result (λ at. IsTypeAt forms.new.items at t.now) }
{
    let width = width_of(alloc, t, datas)?;
    let shape = shape_of(alloc, t, width, datas, forms)?;
    push_form(alloc, t, width, shape, forms)
}

// Puts a form at the end.
fn push_form(
    alloc: Global,
    t: &Ty,
    width: usize,
    shape: Shape,
    forms: &mut Vec<Form>,
) -> Result<usize, NoMemory>
    ensures at { IfOk result (λ at. at ≡ length forms.old.items) }
    ensures put { OnOk result (forms.new.items ≡ forms.old.items ++ record { ty = t.now; width = width; shape = shape } ∷ []) }
{
    let ty = t.copy(alloc)?;
    let at = forms.len();
    forms.push(Form { ty, width, shape })?;
    Ok(at)
}

// The shape of a type of this width. The forms of its parts are put into the table.
#[cycle(making)]
fn shape_of(
    alloc: Global,
    t: &Ty,
    width: usize,
    datas: &[Data],
    forms: &mut Vec<Form>,
) -> Result<Shape, NoMemory>
    requires order { HasNoCycle datas.now }
    requires inhabited { HaveConstructors datas.now }
    requires width { HasWidth datas.now t.now width }
    requires forms { AreForms datas.now forms.old.items }
    ensures forms { OnOk result (AreForms datas.now forms.new.items) }
    ensures grown { OnOk result (Grows forms.old.items forms.new.items) }
    ensures shape { IfOk result (IsShape datas.now forms.new.items (length forms.new.items) t.now) }
{
    zero_value();
    if width == 0 {
        return Ok(Shape::All);
    }
    if is_plain(t) {
        return Ok(Shape::All);
    }
    if forms.len() >= FORMS {
        return Ok(Shape::Decoded);
    }
    match &t.node {
        TyNode::Vec(len, of) => {
            let count = closed_number(len);
            let of = put_form(alloc, of, datas, forms)?;
            Ok(Shape::Row { count, of })
        }
        TyNode::DataOf(at, args) => Ok(data_shape(alloc, at.number, args, datas, forms)?),
        _ => Ok(Shape::Decoded),
    }
}

// The shape of a data type at these arguments.
#[cycle(making)]
fn data_shape(
    alloc: Global,
    at: u32,
    args: &[Ty],
    datas: &[Data],
    forms: &mut Vec<Form>,
) -> Result<Shape, NoMemory>
    requires order { HasNoCycle datas.now }
    requires inhabited { HaveConstructors datas.now }
    requires fits { Fits datas.now (data_of at (trees_of args.now)) }
    requires forms { AreForms datas.now forms.old.items }
    ensures forms { OnOk result (AreForms datas.now forms.new.items) }
    ensures grown { OnOk result (Grows forms.old.items forms.new.items) }
    ensures shape { IfOk result (IsShape datas.now forms.new.items (length forms.new.items) (data_of at (trees_of args.now))) }
{
    let cons = datas[at as usize].cons.as_slice();
    let mut places = Vec::new(alloc);
    for con in cons {
        places.push(field_places(alloc, con.fields.as_slice(), args, datas, forms)?)?;
    }
    Ok(Shape::Choice {
        tag: tag_width(cons.len()),
        cons: Seq::from(places),
    })
}

// The places of the forms of these fields with the arguments put in.
#[cycle(making)]
fn field_places(
    alloc: Global,
    fields: &[Ty],
    args: &[Ty],
    datas: &[Data],
    forms: &mut Vec<Form>,
) -> Result<Seq<usize>, NoMemory>
    requires order { HasNoCycle datas.now }
    requires inhabited { HaveConstructors datas.now }
    requires fit { FieldsFit datas.now fields.now (arguments (trees_of args.now)) }
    requires forms { AreForms datas.now forms.old.items }
    ensures forms { OnOk result (AreForms datas.now forms.new.items) }
    ensures grown { OnOk result (Grows forms.old.items forms.new.items) }
    ensures at { IfOk result (AreTypesAt forms.new.items (length forms.new.items) (fields_of fields.now (arguments (trees_of args.now)))) }
{
    let mut places = Vec::new(alloc);
    for field in fields {
        places.push(put_field(alloc, field, args, datas, forms)?)?;
    }
    Ok(Seq::from(places))
}

// Puts the form of a field with the arguments put in.
#[cycle(making)]
fn put_field(
    alloc: Global,
    field: &Ty,
    args: &[Ty],
    datas: &[Data],
    forms: &mut Vec<Form>,
) -> Result<usize, NoMemory>
    requires order { HasNoCycle datas.now }
    requires inhabited { HaveConstructors datas.now }
    requires fits { Fits datas.now (sub field.now (arguments (trees_of args.now))) }
    requires forms { AreForms datas.now forms.old.items }
    ensures forms { OnOk result (AreForms datas.now forms.new.items) }
    ensures grown { OnOk result (Grows forms.old.items forms.new.items) }
    ensures at { IfOk result (λ at. IsTypeAt forms.new.items at (sub field.now (arguments (trees_of args.now)))) }
{
    let of = put_arguments(alloc, field, args)?;
    let at = put_form(alloc, &of, datas, forms);
    drop(of);
    at
}

/// Puts the forms of types that have widths into the table, and says the place of each.
pub fn put_forms(
    alloc: Global,
    types: &[Ty],
    datas: &[Data],
    forms: &mut Vec<Form>,
) -> Result<Vec<usize>, NoMemory>
    requires order { HasNoCycle datas.now }
    requires inhabited { HaveConstructors datas.now }
    requires fit { AllByRecursion (Fits datas.now) types.now }
    requires forms { AreForms datas.now forms.old.items }
    ensures forms { OnOk result (AreForms datas.now forms.new.items) }
    ensures at { IfOk result (λ places. AreTypesAt forms.new.items (length forms.new.items) types.now places.items) }
{
    let mut places = Vec::new(alloc);
    for t in types {
        places.push(put_form(alloc, t, datas, forms)?)?;
    }
    Ok(places)
}
