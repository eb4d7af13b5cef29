//! The fields of a constructor that a pattern binds, at the arguments of the data type.
ghost use Rattle.std.specs.Prelude.{◌≡◌, reverse, length, IfOk, IfSome, IsTrue};
ghost use Rattle.std.specs.List.{slice_get};
ghost use Rattle.chw_types.specs.Arguments.{arguments};
ghost use Rattle.chw_types.specs.KindFound.{kind_found};
ghost use Rattle.chw_types.specs.TypeMoves.{shift, sub};
ghost use Rattle.chw_types.specs.TypeView.{trees_of};
ghost use Rattle.chw_typing.specs.Scopes.{setting_in};
ghost use Rattle.term_frames.specs.FieldTypes.{args_seen, kind_declared, kind_or_val, kinds_by_form, put_type, put_kind};
ghost use Rattle.term_frames.specs.VarsView.{bound_types, bound_kinds};

use chw_base::{DataId, Name, NoMemory, TyIx};
use chw_terms::Scene;
use chw_types::{Data, Kind, Ty, TyNode, kind_of, put_arguments};
use seen_types::closed::has_no_variables;
use seen_types::found::Found;
use seen_types::seen::{Seen, raised_on};
use std::alloc::Global;

/// The arguments of a data type, written in the description or part of a type that was made.
#[derive(Clone, Copy)]
pub enum Args<'f, 't> {
    Written(&'t [Ty]),
    Made(&'f [Ty]),
}

impl<'f, 't> Args<'f, 't> {
    /// The arguments, the first one first.
    pub fn types(&self) -> &[Ty]
        ensures { result.now ≡ args_seen self.now }
    {
        match self {
            Args::Written(args) => *args,
            Args::Made(args) => *args,
        }
    }
}

/// The fields of a constructor, the first one first, with the arguments of its data type.
///
/// The arguments are put into a field only where the field is named.
#[derive(Clone, Copy)]
pub struct Fields<'f, 't> {
    pub datas: &'t [Data],
    pub domains: &'t [Name],
    /// The kinds of the data type's parameters, the outermost first.
    pub params: &'t [Kind],
    pub types: &'t [Ty],
    pub args: Args<'f, 't>,
}

/// What a pattern binds, the first variable first.
#[derive(Drop)]
pub enum Bound<'f, 't> {
    OfFields(Fields<'f, 't>),
    /// Types that were made.
    Settled(Vec<Found<'t>>),
}

/// Types of variables from outside, the first one first, with type variables of these kinds, the outermost first.
///
/// They are as fields of a constructor without arguments are: the kind of one is found where its variable is used. So many variables may
/// be in scope, and a term that names few of them takes time for these alone.
pub fn outside<'t>(scene: &Scene<'t>, kinds: &'t [Kind], types: &'t [Ty]) -> Bound<'t, 't>
    ensures types { bound_types result ≡ types.now }
    ensures kinds { bound_kinds result ≡ kinds_by_form (setting_in scene.now) (reverse kinds.now) types.now }
{
    Bound::OfFields(Fields {
        datas: scene.program.datas.as_slice(),
        domains: scene.program.domains.as_slice(),
        params: kinds,
        types,
        args: Args::Written(&types[..0]),
    })
}

/// A field at the arguments, raised by so many type binders, with its kind.
///
/// Where a type variable would pass 32 bits, or the type would be too large, the answer is want of
/// memory.
pub(crate) fn field_found<'t>(
    alloc: Global,
    fields: &Fields<'_, 't>,
    field: &'t Ty,
    by: u32,
) -> Result<Found<'t>, NoMemory>
    ensures { IfOk result (λ f. (f.ty ≡ shift (put_type fields.now field.now) 0 by) × (f.kind ≡ put_kind fields.now field.now)) }
{
    let kind = field_kind(fields, field);
    let ty = field_type(alloc, field, fields.args)?;
    let ty = raised_on(alloc, ty, by)?;
    Ok(Found { ty, kind })
}

// A field's kind, which it has without the arguments too. Only a part of the field is looked at
// where that is enough.
#[tactic(auto, unfolding(crate::specs::FieldTypes::kind_by_form))]
fn field_kind(fields: &Fields, field: &Ty) -> Kind
    ensures { result ≡ put_kind fields.now field.now }
{
    match &field.node {
        TyNode::Var(at) => param_kind(fields.params, *at),
        TyNode::NatLit(_) | TyNode::Sum(_, _) | TyNode::Times(_, _) => Kind::Nat,
        TyNode::DomOf(_) => Kind::Dom,
        TyNode::Unsigned(_) | TyNode::Signed(_) | TyNode::BitVector(_) => Kind::Val,
        TyNode::Vec(_, of) => field_kind(fields, of),
        TyNode::DataOf(at, _) => data_kind(fields.datas, *at),
        TyNode::Fun(_, to) => field_kind(fields, to),
        TyNode::Signal(_, _) => Kind::Cir,
        TyNode::Forall(_, _) => whole_kind(fields, field),
    }
}

// The kind of a data type.
fn data_kind(datas: &[Data], at: DataId) -> Kind
    ensures { result ≡ kind_declared (slice_get datas.now at.number) }
{
    match datas.get(at.number as usize) {
        Some(it) => it.kind,
        None => Kind::Val,
    }
}

// A field's kind, where all of the field is looked at.
fn whole_kind(fields: &Fields, field: &Ty) -> Kind
    ensures { result ≡ kind_or_val (kind_found fields.now.datas.now (length fields.now.domains.now) (reverse fields.now.params.now) field.now) }
{
    match kind_of(field, fields.params, fields.datas, fields.domains) {
        Ok(kind) => kind,
        Err(_) => Kind::Val,
    }
}

// The kind of a parameter.
fn param_kind(params: &[Kind], at: TyIx) -> Kind
    ensures { result ≡ kind_or_val (slice_get (reverse params.now) at.number) }
{
    let number = at.number as usize;
    if number < params.len() {
        return params[params.len() - 1 - number];
    }
    Kind::Val
}

// A field at these arguments.
fn field_type<'t>(alloc: Global, field: &'t Ty, args: Args<'_, 't>) -> Result<Seen<'t>, NoMemory>
    ensures { IfOk result (λ r. r ≡ sub field.now (arguments (trees_of (args_seen args.entry)))) }
{
    match args {
        Args::Written(args) => field_written(alloc, field, args),
        Args::Made(args) => field_made(alloc, field, args),
    }
}

// A field at written arguments. A field that is a parameter is the argument itself.
fn field_written<'t>(alloc: Global, field: &'t Ty, args: &'t [Ty]) -> Result<Seen<'t>, NoMemory>
    ensures { IfOk result (λ r. r ≡ sub field.now (arguments (trees_of args.now))) }
{
    match argument(field, args) {
        Some(ty) => Ok(Seen::written(ty)),
        None => field_made(alloc, field, args),
    }
}

// The argument for a field that is a parameter.
fn argument<'t>(field: &Ty, args: &'t [Ty]) -> Option<&'t Ty>
    ensures { IfSome result (λ t. t.now ≡ sub field.now (arguments (trees_of args.now))) }
{
    let TyNode::Var(at) = &field.node else {
        return None;
    };
    let number = at.number as usize;
    if number < args.len() {
        return Some(&args[args.len() - 1 - number]);
    }
    None
}

// A field at arguments of any form.
fn field_made<'t>(alloc: Global, field: &'t Ty, args: &[Ty]) -> Result<Seen<'t>, NoMemory>
    ensures { IfOk result (λ r. r ≡ sub field.now (arguments (trees_of args.now))) }
{
    if stays(field, args) {
        return Ok(Seen::written(field));
    }
    Ok(Seen::made(put_arguments(alloc, field, args)?))
}

// Whether a field is the same at these arguments: there are none, or no variable is in the field.
fn stays(field: &Ty, args: &[Ty]) -> bool
    ensures { IsTrue result → field.now ≡ sub field.now (arguments (trees_of args.now)) }
{
    if args.is_empty() {
        return true;
    }
    has_no_variables(field)
}
