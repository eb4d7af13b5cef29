//! Primitives on vectors, written out.
ghost use Rattle.std.specs.Prelude.{◌≡◌, ◌↔◌, List, [], reverse, IfOk, MatchOption, IsTrue, false, Some, None};
ghost use Rattle.chw_types.specs.TypeTree.{TypeTree};
ghost use Rattle.chw_types.specs.References.{HasNoCycle};
ghost use Rattle.chw_prims.specs.declared.prim.Primitive.TheVariants.{VAt};
ghost use Rattle.chw_terms.specs.declared.rule.Rule.TheVariants.{Unroll};
ghost use Rattle.chw_terms.specs.TermTree.{TermTree, prim};
ghost use Rattle.chw_terms.specs.TermView.{applied};
ghost use Rattle.chw_terms.specs.Unrolled.{CanUnroll, body_of, unrolled};
ghost use Rattle.chw_typing.specs.Scopes.{setting_in};
ghost use Rattle.term_types.specs.Answers.{IsReady};
ghost use Rattle.term_frames.specs.Signatures.{IsSignature};
ghost use Rattle.rewriting.specs.Origins.{origins_of};
ghost use Rattle.rewriting.specs.Spots.{spot_of};
ghost use Rattle.rule_parts.specs.Cores.{AnswersCore};
ghost use Rattle.work_prims.specs.Given.{as_args};
ghost use Rattle.work_prims.specs.Unnamed.{IsUnnamed, BeginsUnnamed, IsWrittenOut};

use crate::given::{copy_terms, split_types};
use chw_base::NoMemory;
use chw_prims::{Prim, Row};
use chw_terms::{Arg, Mode, Place, Scene, Term};
use chw_types::Ty;
use chw_typing::found_laws::found_is_type;
use chw_typing::laws::{one_type, types_are_term_types};
use prim_vec::{can_unroll, unroll};
use rewriting::scene_laws::{names_of_modes, settings_of_scenes};
use rule_parts::named::is_named;
use std::alloc::Global;
use term_types::{Signature, type_in_scope};

// Whether the primitives of a line are ever written out.
fn has_form(row: Row) -> bool
    ensures { result ≡ false → (types : List TypeTree) → body_of row types ≡ None }
{
    match row {
        Row::Binary(_) | Row::WideSum(_) | Row::WideProduct(_) | Row::Unary(_) => false,
        Row::Shift(_) | Row::Compare(_) | Row::Extend(_) | Row::Truncate(_) | Row::Cut => false,
        Row::Joined | Row::Reduce | Row::Packed(_) | Row::Unpacked(_) => false,
        Row::Mapping | Row::Applying | Row::Constant | Row::Delay | Row::Memory => false,
        Row::Crossing | Row::Element(_) => false,
        _ => true,
    }
}

// Whether a vector has a type that isn't named at its place, which is of no constant.
fn is_unnamed(
    alloc: Global,
    scene: &Scene,
    signature: &Signature,
    place: &Place,
    vector: &Term,
) -> Result<bool, NoMemory>
    requires ready { IsReady (setting_in scene.now) [] (reverse place.now.vars) }
    requires table { IsSignature scene.now.program.now signature.now }
    requires order { HasNoCycle scene.now.program.now.datas }
    ensures { IfOk result (λ b. IsTrue b ↔ IsUnnamed (origins_of scene.now) (spot_of place.now) vector.now) }
{
    if let Mode::K = place.mode {
        return Ok(false);
    }
    settings_of_scenes();
    found_is_type();
    one_type();
    types_are_term_types();
    names_of_modes();
    let Some(ty) = type_in_scope(alloc, scene, signature, &place.vars, vector)? else {
        return Ok(false);
    };
    let named = is_named(alloc, scene.program.datas.as_slice(), place.mode, &ty);
    drop(ty);
    Ok(!named?)
}

// Whether the first argument is such a vector.
fn begins_unnamed(
    alloc: Global,
    scene: &Scene,
    signature: &Signature,
    place: &Place,
    args: &[Arg],
) -> Result<bool, NoMemory>
    requires ready { IsReady (setting_in scene.now) [] (reverse place.now.vars) }
    requires table { IsSignature scene.now.program.now signature.now }
    requires order { HasNoCycle scene.now.program.now.datas }
    ensures { IfOk result (λ b. IsTrue b ↔ BeginsUnnamed (origins_of scene.now) (spot_of place.now) args.now) }
{
    match args.first() {
        Some(Arg::OfTerm(vector)) => is_unnamed(alloc, scene, signature, place, vector),
        _ => Ok(false),
    }
}

// Whether a primitive other than an element by a word, or such an element of a vector without a name.
fn may_unroll(
    alloc: Global,
    scene: &Scene,
    signature: &Signature,
    place: &Place,
    p: Prim,
    args: &[Arg],
) -> Result<bool, NoMemory>
    requires ready { IsReady (setting_in scene.now) [] (reverse place.now.vars) }
    requires table { IsSignature scene.now.program.now signature.now }
    requires order { HasNoCycle scene.now.program.now.datas }
    ensures { IfOk result (λ b. IsTrue b ↔ (p ≡ VAt → BeginsUnnamed (origins_of scene.now) (spot_of place.now) args.now)) }
{
    match p {
        Prim::VAt => begins_unnamed(alloc, scene, signature, place, args),
        _ => Ok(true),
    }
}

// A primitive at types on terms, written out where it can be.
fn written_out(alloc: Global, p: Prim, types: &[Ty], es: &[Term]) -> Result<Option<Term>, NoMemory>
    ensures { IfOk result (λ r. MatchOption r (CanUnroll p types.now es.now → ⊥) (λ e. CanUnroll p types.now es.now × (unrolled p types.now es.now ≡ Some e))) }
{
    if !can_unroll(alloc, p, types, es)? {
        return Ok(None);
    }
    Ok(Some(unroll(alloc, p, types, es)?))
}

// The same where the terms are arguments.
fn on_args(alloc: Global, p: Prim, types: &[Ty], rest: &[Arg]) -> Result<Option<Term>, NoMemory>
    ensures { IfOk result (λ r. MatchOption r ((es : List TermTree) → rest.now ≡ as_args es → CanUnroll p types.now es → ⊥) (λ e. IsWrittenOut p types.now rest.now e)) }
{
    let Some(es) = copy_terms(alloc, rest)? else {
        return Ok(None);
    };
    let made = written_out(alloc, p, types, &es);
    drop(es);
    made
}

/// p @types es  ==>  p at these types on es, written out; an element by a word only where the vector has no name
pub(crate) fn unrolled(
    alloc: Global,
    scene: &Scene,
    signature: &Signature,
    place: &Place,
    p: Prim,
    args: &[Arg],
) -> Result<Option<Term>, NoMemory>
    requires ready { IsReady (setting_in scene.now) [] (reverse place.now.vars) }
    requires table { IsSignature scene.now.program.now signature.now }
    requires order { HasNoCycle scene.now.program.now.datas }
    ensures { IfOk result (AnswersCore (origins_of scene.now) (spot_of place.now) Unroll (applied (prim p) args.now)) }
{
    if !has_form(Row::of(p)) {
        return Ok(None);
    }
    let (types, rest) = split_types(alloc, args)?;
    if !may_unroll(alloc, scene, signature, place, p, rest)? {
        return Ok(None);
    }
    on_args(alloc, p, &types, rest)
}
