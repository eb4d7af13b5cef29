//! What is kept of a program for finding the types of its terms.
ghost use Rattle.std.specs.Prelude.{◌≡◌, Some, [], length, map, IfOk, IfSome, IfNone};
ghost use Rattle.std.specs.List.{slice_get};
ghost use Rattle.chw_prims.specs.declared.names.TheConstants.{ALL};
ghost use Rattle.chw_prims.specs.Schemas.{schema_type};
ghost use Rattle.chw_types.specs.KindFound.{kind_found};
ghost use Rattle.chw_typing.specs.HeadTypes.{con_type};
ghost use Rattle.con_places.specs.Constructing.{constructor_of};
ghost use Rattle.term_frames.specs.Signatures.{IsSignature, kinds_declared, head_type, primitive_types, AreOfConstructors};

use crate::constructors::{con_type, parts_left_after};
use crate::numbering::Numbering;
use chw_base::limits::TYPE_PARTS;
use chw_base::{ConId, NoMemory};
use chw_prims::{ALL, Prim, schema};
use chw_terms::Program;
use chw_types::{Kind, Ty, kind_of};
use con_places::{Constructor, Constructors};
use std::alloc::Global;

/// The type of a head that is no variable, with its kind, where it has one.
#[derive(Drop)]
pub struct HeadType {
    pub ty: Ty,
    pub kind: Option<Kind>,
}

/// A program's constructors in a table, the kinds of its definitions' types, the types of
/// constructors and primitives, and numbers of types.
#[derive(Drop)]
pub struct Signature<'p> {
    pub constructors: Constructors<'p>,
    /// The kind of each definition's declared type, where it has one.
    pub kinds: Vec<Option<Kind>>,
    /// The type of each constructor by its number, where it is kept.
    pub kept: Vec<Option<HeadType>>,
    /// The type of each primitive, in the order of `ALL`.
    pub primitives: Vec<HeadType>,
    /// The numbers of the types of definitions and of the constructors' types that are kept.
    pub numbering: Numbering,
}

impl<'p> Signature<'p> {
    /// The signature of a program.
    ///
    /// Where a number would pass 32 bits, the answer is want of memory.
    pub fn of(alloc: Global, program: &'p Program) -> Result<Signature<'p>, NoMemory>
        ensures { IfOk result (λ r. IsSignature program.now r) }
    {
        let constructors = Constructors::of(alloc, program.datas.as_slice())?;
        let kinds = declared_kinds(alloc, program)?;
        let kept = kept_types(alloc, program, &constructors)?;
        let primitives = primitive_types(alloc, program)?;
        let numbering = Numbering::of(alloc, program, kept.as_slice())?;
        Ok(Signature {
            constructors,
            kinds,
            kept,
            primitives,
            numbering,
        })
    }

    /// The kind of the declared type of the definition of this number, where there is one and it has a kind.
    pub fn definition_kind(&self, number: usize) -> Option<Kind>
        ensures some { IfSome result (λ k. slice_get self.now.kinds.items number ≡ Some (Some k)) }
        ensures none { IfNone result ((k : _) → slice_get self.now.kinds.items number ≡ Some (Some k) → ⊥) }
    {
        match self.kinds.as_slice().get(number) {
            Some(kind) => *kind,
            None => None,
        }
    }

    /// The type of the constructor of this number, where it is kept.
    pub fn kept_type(&self, at: ConId) -> Option<&HeadType>
        ensures { IfSome result (λ t. slice_get self.now.kept.items at.number ≡ Some (Some t.now)) }
    {
        match self.kept.as_slice().get(at.number as usize) {
            Some(Some(it)) => Some(it),
            _ => None,
        }
    }
}

// The kinds of the declared types of a program's definitions.
fn declared_kinds(alloc: Global, program: &Program) -> Result<Vec<Option<Kind>>, NoMemory>
    ensures { IfOk result (λ ks. ks.items ≡ kinds_declared program.now) }
{
    let mut kinds = Vec::new(alloc);
    for it in program.defs.as_slice() {
        kinds.push(closed_kind(program, &it.ty))?;
    }
    Ok(kinds)
}

// The types of constructors by their numbers, in turn, each kept if there is room for its parameters.
//
// A field is written in the description once. A data type's parameters are parts of the type of each
// of its constructors, so in all kept types these have at most `TYPE_PARTS` parts.
fn kept_types(
    alloc: Global,
    program: &Program,
    constructors: &Constructors,
) -> Result<Vec<Option<HeadType>>, NoMemory>
    requires { constructors.now ≡ program.now.datas }
    ensures { IfOk result (λ ts. AreOfConstructors program.now ts.items) }
{
    let mut types = Vec::new(alloc);
    let mut parts = TYPE_PARTS;
    for number in 0..u32::MAX {
        let Some(con) = constructors.at(ConId { number }) else {
            return Ok(types);
        };
        types.push(type_to_keep(alloc, program, &con, &mut parts)?)?;
    }
    Ok(types)
}

// A constructor's type, if so many parts are enough for its parameters. These are taken from them.
fn type_to_keep(
    alloc: Global,
    program: &Program,
    con: &Constructor<'_>,
    parts: &mut u32,
) -> Result<Option<HeadType>, NoMemory>
    ensures { IfOk result (λ r. IfSome r (λ t. t ≡ head_type program.now (con_type (constructor_of con.now)))) }
{
    let Some(left) = parts_left_after(con, *parts) else {
        return Ok(None);
    };
    *parts = left;
    let ty = con_type(alloc, con)?;
    let kind = closed_kind(program, &ty);
    Ok(Some(HeadType { ty, kind }))
}

// The primitives' types, in the order of `ALL`.
fn primitive_types(alloc: Global, program: &Program) -> Result<Vec<HeadType>, NoMemory>
    ensures { IfOk result (λ ts. ts.items ≡ primitive_types program.now) }
{
    let all = ALL;
    let mut types = Vec::new(alloc);
    for which in &all {
        types.push(primitive_type(alloc, program, *which)?)?;
    }
    Ok(types)
}

// A primitive's type.
fn primitive_type(alloc: Global, program: &Program, which: Prim) -> Result<HeadType, NoMemory>
    ensures { IfOk result (λ t. t ≡ head_type program.now (schema_type which)) }
{
    let ty = schema(alloc, which)?;
    let kind = closed_kind(program, &ty);
    Ok(HeadType { ty, kind })
}

/// The place of a primitive in `ALL`.
pub fn place_in_all(which: Prim) -> usize
    ensures { slice_get ALL result ≡ Some which }
{
    which as usize
}

// The kind of a type without variables, where it has one.
fn closed_kind(program: &Program, ty: &Ty) -> Option<Kind>
    ensures { result ≡ kind_found program.now.datas (length program.now.domains) [] ty.now }
{
    match kind_of(
        ty,
        &[],
        program.datas.as_slice(),
        program.domains.as_slice(),
    ) {
        Ok(kind) => Some(kind),
        Err(_) => None,
    }
}
