//! The parts of a term by number, in the order of their paths: how many there are, and which of them are places.
ghost use Rattle.std.specs.Prelude.{◌≡◌, ◌≤◌, ◌<◌, [], ◌∷◌, length, reverse, IfOk};
ghost use Rattle.chw_terms.specs.TermView.{tree_of, group_of, applied};
ghost use Rattle.chw_typing.specs.Scopes.{setting_in, declared};
ghost use Rattle.chw_typing.specs.Paths.{argument_path};
ghost use Rattle.rewriting.specs.Origins.{origins_of};
ghost use Rattle.rewriting.specs.Spots.{spot_of};
ghost use Rattle.active_parts.specs.Grounds.{IsGround, IsTypedAt};
ghost use Rattle.active_parts.specs.Parts.{path_to, around, declares, arguments_of, IsAmong, IsInside, FindsPart, AreAmongFirst, AreAmongArguments};

use crate::arguments::{constant_argument, primitive_argument};
use crate::cases::part_of_case;
use crate::elements::element;
use crate::ground::Ground;
use crate::letrecs::part_of_letrec;
use crate::modes::{builds_value, has_parts, is_constant};
use chw_base::NoMemory;
use chw_terms::{Arg, Binding, Head, Mode, Place, Term};
use chw_types::Ty;
use std::alloc::Global;

/// A part of a term that is a place: the term there, what the place is for, and the types of the variables that come into scope there
/// alone.
#[derive(Drop)]
pub struct Part<'t> {
    pub term: &'t Term,
    pub mode: Mode,
    /// Whether what the term gives is what the body gives.
    pub gives: bool,
    /// The innermost one last.
    pub more: Vec<Ty>,
}

/// How many parts of a term come into question at a place of this mode. Each place below the term is one of these parts.
pub fn count_parts(mode: Mode, at: &Term) -> usize
    ensures first { AreAmongFirst mode at.now result }
    ensures arguments { AreAmongArguments at.now result }
{
    if at.args.is_empty() {
        return count_children(mode, &at.head);
    }
    count_arguments(mode, &at.head, &at.args)
}

// The same of a head alone.
fn count_children(mode: Mode, head: &Head) -> usize
    ensures { AreAmongFirst mode (tree_of head.now) result }
{
    match head {
        Head::LetRec(bindings, _) => {
            if has_parts(mode) {
                bindings.len() + 1
            } else {
                0
            }
        }
        Head::Case(_, alts) => {
            if builds_value(mode) {
                alts.len() + 1
            } else {
                1
            }
        }
        Head::VecLit(_, elements) => { if is_constant(mode) { elements.len() } else { 0 } }
        _ => 0,
    }
}

// The same of a head with arguments.
fn count_arguments(mode: Mode, head: &Head, args: &[Arg]) -> usize
    requires { args.now ≡ [] → ⊥ }
    ensures first { AreAmongFirst mode (applied (tree_of head.now) args.now) result }
    ensures arguments { result ≤ length args.now }
{
    match head {
        Head::Con(_) => { if is_constant(mode) { args.len() } else { 0 } }
        Head::PrimOf(_) => args.len(),
        _ => 0,
    }
}

/// The bindings whose variables are in scope in all parts of a term: those of a letrec, or none.
pub fn group_around_parts(at: &Term) -> &[Binding]
    ensures { declared (group_of result.now) ≡ declares at.now }
{
    if !at.args.is_empty() {
        return &[];
    }
    let Head::LetRec(bindings, _) = &at.head else {
        return &[];
    };
    bindings.as_slice()
}

/// The part of this number, where it is a place. Nothing comes exactly where no place is at its path.
///
/// The variables of `group_around_parts` are in scope at the place. The term is typed there.
pub fn part_at<'t>(
    alloc: Global,
    ground: &Ground,
    at: &'t Term,
    number: usize,
    place: &Place,
) -> Result<Option<Part<'t>>, NoMemory>
    requires ground { IsGround ground.now }
    requires inside { IsInside place.now at.now }
    requires typed { IsTypedAt (setting_in ground.now.scene.now) (around place.now at.now) at.now }
    requires number { IsAmong (arguments_of at.now) number }
    ensures { IfOk result (FindsPart (origins_of ground.now.scene.now) (around place.now at.now) at.now (path_to at.now number) (reverse place.now.vars)) }
{
    if at.args.is_empty() {
        return child_at(alloc, ground, &at.head, number, place);
    }
    argument_at(alloc, ground, &at.head, &at.args, number, place)
}

// The same of a head alone.
fn child_at<'t>(
    alloc: Global,
    ground: &Ground,
    head: &'t Head,
    number: usize,
    place: &Place,
) -> Result<Option<Part<'t>>, NoMemory>
    requires ground { IsGround ground.now }
    requires inside { IsInside place.now (tree_of head.now) }
    requires typed { IsTypedAt (setting_in ground.now.scene.now) (around place.now (tree_of head.now)) (tree_of head.now) }
    ensures { IfOk result (FindsPart (origins_of ground.now.scene.now) (around place.now (tree_of head.now)) (tree_of head.now) (number ∷ []) (reverse place.now.vars)) }
{
    match head {
        Head::LetRec(bindings, body) => {
            part_of_letrec(alloc, ground, bindings, body, number, place)
        }
        Head::Case(on, alts) => part_of_case(alloc, ground, on, alts, number, place),
        Head::VecLit(ty, elements) => Ok(element(alloc, ty, elements, number, place)),
        _ => Ok(None),
    }
}

// The same of a head with arguments.
fn argument_at<'t>(
    alloc: Global,
    ground: &Ground,
    head: &Head,
    args: &'t [Arg],
    number: usize,
    place: &Place,
) -> Result<Option<Part<'t>>, NoMemory>
    requires ground { IsGround ground.now }
    requires typed { IsTypedAt (setting_in ground.now.scene.now) (spot_of place.now) (applied (tree_of head.now) args.now) }
    requires number { number < length args.now }
    ensures { IfOk result (FindsPart (origins_of ground.now.scene.now) (spot_of place.now) (applied (tree_of head.now) args.now) (argument_path number (length args.now)) (reverse place.now.vars)) }
{
    let Arg::OfTerm(at) = &args[number] else {
        return Ok(None);
    };
    match head {
        Head::Con(con) => Ok(constant_argument(alloc, ground, *con, args, number, at, place)),
        Head::PrimOf(which) => primitive_argument(alloc, ground, *which, args, number, at, place),
        _ => Ok(None),
    }
}
