//! What the pattern of an alternative binds.
ghost use Rattle.std.specs.Prelude.{◌≡◌, reverse, IfOk, IsTrue, ◌↔◌, MatchOption};
ghost use Rattle.chw_types.specs.TypeTree.{data_of};
ghost use Rattle.chw_types.specs.TypeView.{trees_of};
ghost use Rattle.chw_typing.specs.Scopes.{HasKind, setting_in};
ghost use Rattle.chw_typing.specs.Programs.{IsSound};
ghost use Rattle.term_types.specs.Binding.{BindsKinded, BindsNothing, IsLiteralOf, AreBoundSettled, NoneSettled, is_looked_at};
ghost use Rattle.term_frames.specs.FieldTypes.{args_seen};
ghost use Rattle.term_frames.specs.Signatures.{IsSignature};
ghost use Rattle.chw_terms.specs.declared.term.Pattern.TheVariants.{OfCon};

use crate::heads::literal_type;
use chw_base::{ConId, DataId, NoMemory};
use chw_bits::Bits;
use chw_terms::{Pattern, Scene};
use chw_types::{Kind, Scalar, Ty, TyNode, put_arguments, same};
use seen_types::kept::keep_kinds;
use seen_types::seen::Seen;
use std::alloc::Global;
use term_frames::fields::{Args, Bound, Fields};
use term_frames::signature::Signature;
use term_spines::kinding::settled;

/// The types of the variables that a pattern binds, the first one first, where it is one for values of this type.
pub(crate) fn bound_types<'f, 't>(
    alloc: Global,
    scene: &'t Scene,
    signature: &'t Signature,
    kinds: &[Kind],
    of: &'f Seen<'t>,
    pattern: &Pattern,
) -> Result<Option<Bound<'f, 't>>, NoMemory>
    requires sound { IsSound (setting_in scene.now) }
    requires table { IsSignature scene.now.program.now signature.now }
    requires kinded { (k : _) × HasKind (setting_in scene.now) (reverse kinds.now) of.now k }
    ensures { IfOk result (λ r. MatchOption r (BindsNothing (setting_in scene.now) (reverse kinds.now) of.now pattern.now) (λ bound. BindsKinded (setting_in scene.now) (reverse kinds.now) of.now pattern.now bound)) }
{
    match pattern {
        Pattern::OfCon(at, names) => { fields(alloc, scene, signature, kinds, of, *at, *names) }
        Pattern::OfLit(sort, bits) => {
            if is_literal_of(alloc, of.ty(), *sort, bits)? {
                return Ok(Some(Bound::Settled(Vec::new(alloc))));
            }
            Ok(None)
        }
        Pattern::Default => Ok(Some(Bound::Settled(Vec::new(alloc)))),
    }
}

// Whether a literal is one of this type.
fn is_literal_of(alloc: Global, of: &Ty, sort: Scalar, bits: &Bits) -> Result<bool, NoMemory>
    ensures { IfOk result (λ r. IsTrue r ↔ IsLiteralOf of.now sort bits.now) }
{
    match literal_type(alloc, sort, bits)? {
        Some(ty) => Ok(same(alloc, of, &ty)?),
        None => Ok(false),
    }
}

// The arguments of a data type, where a type is of it.
fn arguments_of(ty: &Ty, of: DataId) -> Option<&[Ty]>
    ensures { MatchOption result ((ts : _) → ty.now ≡ data_of of.number ts → ⊥) (λ args. ty.now ≡ data_of of.number (trees_of args.now)) }
{
    match &ty.node {
        TyNode::DataOf(at, args) => {
            if at.number == of.number {
                return Some(args.as_slice());
            }
            None
        }
        _ => None,
    }
}

// The same, where the type is seen.
fn arguments_seen<'f, 't>(ty: &'f Seen<'t>, of: DataId) -> Option<Args<'f, 't>>
    ensures { MatchOption result ((ts : _) → ty.now ≡ data_of of.number ts → ⊥) (λ args. ty.now ≡ data_of of.number (trees_of (args_seen args))) }
{
    match ty.if_written() {
        Some(written) => match arguments_of(written, of) {
            Some(args) => Some(Args::Written(args)),
            None => None,
        },
        None => match arguments_of(ty.ty(), of) {
            Some(args) => Some(Args::Made(args)),
            None => None,
        },
    }
}

// The types of a constructor's fields at the arguments of a type, where it is one of that type and has as many fields.
//
// If the fields keep their kinds, their types aren't made here.
fn fields<'f, 't>(
    alloc: Global,
    scene: &'t Scene,
    signature: &'t Signature,
    kinds: &[Kind],
    of: &'f Seen<'t>,
    at: ConId,
    names: u32,
) -> Result<Option<Bound<'f, 't>>, NoMemory>
    requires sound { IsSound (setting_in scene.now) }
    requires table { IsSignature scene.now.program.now signature.now }
    requires kinded { (k : _) × HasKind (setting_in scene.now) (reverse kinds.now) of.now k }
    ensures { IfOk result (λ r. MatchOption r (BindsNothing (setting_in scene.now) (reverse kinds.now) of.now (OfCon at names)) (λ bound. BindsKinded (setting_in scene.now) (reverse kinds.now) of.now (OfCon at names) bound)) }
{
    let Some(con) = signature.constructors.at(at) else {
        return Ok(None);
    };
    let Some(args) = arguments_seen(of, con.of) else {
        return Ok(None);
    };
    let fields = con.decl.fields.as_slice();
    if fields.len() != names as usize {
        return Ok(None);
    }
    let given = args.types();
    if !keep_kinds(fields, given) {
        return Ok(all_settled(alloc, scene, kinds, fields, given)?);
    }
    Ok(Some(Bound::OfFields(Fields {
        datas: scene.program.datas.as_slice(),
        domains: scene.program.domains.as_slice(),
        params: con.it.params.as_slice(),
        types: fields,
        args,
    })))
}

// The types of fields at these arguments, each with a kind, where there are such up to naturals.
fn all_settled<'f, 't>(
    alloc: Global,
    scene: &Scene,
    kinds: &[Kind],
    fields: &[Ty],
    args: &[Ty],
) -> Result<Option<Bound<'f, 't>>, NoMemory>
    ensures { IfOk result (λ r. MatchOption r (NoneSettled (setting_in scene.now) (reverse kinds.now) fields.now args.now) (λ bound. AreBoundSettled (setting_in scene.now) (reverse kinds.now) fields.now args.now bound)) }
{
    let mut bound = Vec::new(alloc);
    for field in fields {
        let ty = put_arguments(alloc, field, args)?;
        match settled(alloc, scene, kinds, ty)? {
            Some(found) => bound.push(found)?,
            None => return Ok(None),
        }
    }
    Ok(Some(Bound::Settled(bound)))
}

/// Whether a case may look at values of this type.
pub(crate) fn is_looked_at(ty: &Ty) -> bool
    ensures { result ≡ is_looked_at ty.now }
{
    match &ty.node {
        TyNode::Unsigned(_) => true,
        TyNode::Signed(_) => true,
        TyNode::BitVector(_) => true,
        TyNode::DataOf(_, _) => true,
        _ => false,
    }
}
