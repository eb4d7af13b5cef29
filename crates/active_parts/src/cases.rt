//! The parts of a case: what it is on, and then its alternatives.
ghost use Rattle.std.specs.Prelude.{◌≡◌, [], ◌∷◌, suc, map, reverse, slice_get, Some, IfOk, MatchOption};
ghost use Rattle.chw_types.specs.Arguments.{arguments};
ghost use Rattle.chw_types.specs.TypeMoves.{sub};
ghost use Rattle.chw_types.specs.TypeTree.{TypeTree};
ghost use Rattle.chw_types.specs.TypeView.{trees_of};
ghost use Rattle.chw_terms.specs.TermTree.{case_of};
ghost use Rattle.chw_terms.specs.TermView.{alts_of};
ghost use Rattle.chw_typing.specs.HeadTypes.{PatternOf};
ghost use Rattle.chw_typing.specs.Scopes.{setting_in};
ghost use Rattle.rewriting.specs.Origins.{origins_of};
ghost use Rattle.rewriting.specs.Spots.{spot_of};
ghost use Rattle.active_parts.specs.Below.{HasFields, IsVariable};
ghost use Rattle.active_parts.specs.Grounds.{IsGround, IsTypedAt};
ghost use Rattle.active_parts.specs.Parts.{FindsPart};

use crate::ground::Ground;
use crate::modes::{builds_value, scrutinee_mode};
use crate::naming::is_unnamed;
use crate::parts::Part;
use chw_base::NoMemory;
use chw_terms::{Alt, Head, Mode, Pattern, Place, Term};
use chw_types::{Ty, TyNode, put_arguments};
use rule_parts::named::is_named;
use std::alloc::Global;
use term_types::Signature;

/// The part of a case of this number, where it is a place.
pub(crate) fn part_of_case<'t>(
    alloc: Global,
    ground: &Ground,
    on: &'t Term,
    alts: &'t [Alt],
    number: usize,
    place: &Place,
) -> Result<Option<Part<'t>>, NoMemory>
    requires ground { IsGround ground.now }
    requires typed { IsTypedAt (setting_in ground.now.scene.now) (spot_of place.now) (case_of on.now (alts_of alts.now)) }
    ensures { IfOk result (FindsPart (origins_of ground.now.scene.now) (spot_of place.now) (case_of on.now (alts_of alts.now)) (number ∷ []) (reverse place.now.vars)) }
{
    if number == 0 {
        return scrutinee(alloc, ground, on, alts, place);
    }
    branch(alloc, ground, on, alts, number - 1, place)
}

// What a case is on, where its type isn't named.
fn scrutinee<'t>(
    alloc: Global,
    ground: &Ground,
    on: &'t Term,
    alts: &[Alt],
    place: &Place,
) -> Result<Option<Part<'t>>, NoMemory>
    requires ground { IsGround ground.now }
    requires typed { IsTypedAt (setting_in ground.now.scene.now) (spot_of place.now) (case_of on.now (alts_of alts.now)) }
    ensures { IfOk result (FindsPart (origins_of ground.now.scene.now) (spot_of place.now) (case_of on.now (alts_of alts.now)) (0 ∷ []) (reverse place.now.vars)) }
{
    if !is_unnamed(alloc, ground, on, place)? {
        return Ok(None);
    }
    let mode = scrutinee_mode(&ground.signature.constructors, place.mode, alts);
    let more = Vec::new(alloc);
    Ok(Some(Part {
        term: on,
        mode,
        gives: false,
        more,
    }))
}

// The alternative of this number, where a value is built by a case on a variable of a named type.
fn branch<'t>(
    alloc: Global,
    ground: &Ground,
    on: &Term,
    alts: &'t [Alt],
    number: usize,
    place: &Place,
) -> Result<Option<Part<'t>>, NoMemory>
    requires ground { IsGround ground.now }
    requires typed { IsTypedAt (setting_in ground.now.scene.now) (spot_of place.now) (case_of on.now (alts_of alts.now)) }
    ensures { IfOk result (FindsPart (origins_of ground.now.scene.now) (spot_of place.now) (case_of on.now (alts_of alts.now)) (suc number ∷ []) (reverse place.now.vars)) }
{
    if !builds_value(place.mode) {
        return Ok(None);
    }
    let Some(alt) = alts.get(number) else {
        return Ok(None);
    };
    let Some(of) = variable_type(alloc, place, on)? else {
        return Ok(None);
    };
    let datas = ground.scene.program.datas.as_slice();
    if !is_named(alloc, datas, Mode::V, &of)? {
        return Ok(None);
    }
    let more = field_types(alloc, ground.signature, &of, &alt.pattern)?;
    let term = &alt.body;
    Ok(Some(Part {
        term,
        mode: Mode::V,
        gives: true,
        more,
    }))
}

// The type of a variable in scope, where the term is one.
fn variable_type(alloc: Global, place: &Place, at: &Term) -> Result<Option<Ty>, NoMemory>
    ensures { IfOk result (λ r. MatchOption r ((u : TypeTree) → IsVariable (reverse place.now.vars) at.now u → ⊥) (IsVariable (reverse place.now.vars) at.now)) }
{
    let Head::Var(x) = &at.head else {
        return Ok(None);
    };
    if !at.args.is_empty() {
        return Ok(None);
    }
    match place.vars.from_end(x.number as usize) {
        Some(ty) => Ok(Some(ty.copy(alloc)?)),
        None => Ok(None),
    }
}

// The types of the variables that a pattern for values of this type binds.
fn field_types(
    alloc: Global,
    signature: &Signature,
    of: &Ty,
    pattern: &Pattern,
) -> Result<Vec<Ty>, NoMemory>
    requires { HasFields signature.now.constructors of.now pattern.now }
    ensures { IfOk result (λ r. PatternOf signature.now.constructors of.now pattern.now r.items) }
{
    match pattern {
        Pattern::OfCon(at, _) => {
            let Some(con) = signature.constructors.at(*at) else {
                unreachable!()
            };
            let TyNode::DataOf(_, args) = &of.node else {
                unreachable!()
            };
            fields_at(alloc, con.decl.fields.as_slice(), args)
        }
        Pattern::OfLit(_, _) | Pattern::Default => Ok(Vec::new(alloc)),
    }
}

// The fields of a constructor at these arguments of its data type.
fn fields_at(alloc: Global, fields: &[Ty], args: &[Ty]) -> Result<Vec<Ty>, NoMemory>
    ensures { IfOk result (λ r. r.items ≡ map (λ f. sub f (arguments (trees_of args.now))) fields.now) }
{
    let mut done = Vec::new(alloc);
    for field in fields {
        done.push(put_arguments(alloc, field, args)?)?;
    }
    Ok(done)
}
