//! The types of the variables in scope.
ghost use Rattle.std.specs.Prelude.{◌≡◌, ◌+◌, [], ◌∷◌, ◌++◌, map, reverse, IfOk};
ghost use Rattle.chw_types.specs.TypeMoves.{shift};
ghost use Rattle.chw_typing.specs.Scopes.{under_binder, with_more};
ghost use Rattle.term_frames.specs.VarsView.{IsAt, written_types, written_kinds, bound_types, bound_kinds};

use crate::fields::{Bound, Fields, field_found};
use chw_base::NoMemory;
use chw_types::{Kind, Ty};
use seen_types::found::{Found, Kinded};
use seen_types::seen::{raised, raised_again};
use std::alloc::Global;
use std::marker::Model;

/// The types of the variables in scope with their kinds, which contracts see as lists, the innermost first, each type as it is at the place
/// itself.
///
/// Each type is kept as it was where its variable was bound, and is raised over the type binders since then only where the variable is used.
/// The frames live as long as `'f`, the types that are written in the description as long as `'t`.
#[cycle(vars)]
#[derive(Drop)]
pub struct Vars<'f, 't> {
    frame: Frame<'f, 't>,
}

/// What bound the innermost variables.
#[cycle(vars)]
#[derive(Drop)]
enum Frame<'f, 't> {
    /// Nothing is in scope.
    Empty,
    /// A type binder, which binds no variable.
    UnderType(&'f Vars<'f, 't>),
    OfLambda(&'t Ty, Kind, &'f Vars<'f, 't>),
    /// Variables that are bound together, the first one first.
    OfGroup(&'f [Kinded<'t>], &'f Vars<'f, 't>),
    /// What a pattern binds, with types that were made, the first one first.
    OfPattern(&'f [Found<'t>], &'f Vars<'f, 't>),
    /// The fields of a constructor that a pattern binds.
    OfFields(&'f Fields<'f, 't>, &'f Vars<'f, 't>),
}

impl<'f, 't> Model for Vars<'f, 't> {
    ghost use Rattle.term_frames.specs.InScope.{InScope, coded_scope};

    ghost Value = { InScope };

    ghost coded = { coded_scope };

    ghost use Rattle.term_frames.specs.VarsView.{in_scope};

    ghost view = { λ v. in_scope v.frame };

    ghost size = { λ v. v.depth };

    ghost use Rattle.std.proofs.Common.{arith};

    ghost size_decreases = { λ a h. Prim.grind arith };
}

impl<'f, 't> Vars<'f, 't> {
    /// No variables.
    pub fn none() -> Vars<'f, 't>
        ensures types { result.vars ≡ [] }
        ensures kinds { result.kinds ≡ [] }
    {
        Vars {
            frame: Frame::Empty,
        }
    }

    /// The same variables under one more type binder.
    pub fn under_type(&'f self) -> Vars<'f, 't>
        ensures types { result.vars ≡ under_binder self.now.vars }
        ensures kinds { result.kinds ≡ self.now.kinds }
    {
        Vars {
            frame: Frame::UnderType(self),
        }
    }

    /// One more variable.
    pub fn with_one(&'f self, ty: &'t Ty, kind: Kind) -> Vars<'f, 't>
        ensures types { result.vars ≡ ty.now ∷ self.now.vars }
        ensures kinds { result.kinds ≡ kind ∷ self.now.kinds }
    {
        Vars {
            frame: Frame::OfLambda(ty, kind, self),
        }
    }

    /// Variables of these types too, which are bound together.
    pub fn with_group(&'f self, bound: &'f [Kinded<'t>]) -> Vars<'f, 't>
        ensures types { result.vars ≡ with_more (written_types bound.now) self.now.vars }
        ensures kinds { result.kinds ≡ reverse (written_kinds bound.now) ++ self.now.kinds }
    {
        Vars {
            frame: Frame::OfGroup(bound, self),
        }
    }

    /// The variables of a pattern too.
    pub fn with_bound(&'f self, bound: &'f Bound<'f, 't>) -> Vars<'f, 't>
        ensures types { result.vars ≡ with_more (bound_types bound.now) self.now.vars }
        ensures kinds { result.kinds ≡ reverse (bound_kinds bound.now) ++ self.now.kinds }
    {
        match bound {
            Bound::OfFields(fields) => Vars {
                frame: Frame::OfFields(fields, self),
            },
            Bound::Settled(found) => Vars {
                frame: Frame::OfPattern(found.as_slice(), self),
            },
        }
    }

    /// The type of the variable of this number with its kind, where it is in scope, raised by so many type binders.
    ///
    /// Where a type variable would pass 32 bits, the answer is want of memory.
    pub fn at(&self, alloc: Global, number: usize, by: u32) -> Result<Option<Found<'t>>, NoMemory>
        ensures { IfOk result (IsAt (map (λ t. shift t 0 by) self.now.vars) self.now.kinds number) }
    {
        match &self.frame {
            Frame::Empty => Ok(None),
            Frame::UnderType(outer) => {
                let by = one_more(by)?;
                Ok(outer.at(alloc, number, by)?)
            }
            Frame::OfLambda(ty, kind, outer) => {
                if number == 0 {
                    return Ok(Some(written(alloc, *ty, *kind, by)?));
                }
                Ok(outer.at(alloc, number - 1, by)?)
            }
            Frame::OfGroup(bound, outer) => {
                let count = bound.len();
                if number < count {
                    let it = bound[count - 1 - number];
                    return Ok(Some(written(alloc, it.ty, it.kind, by)?));
                }
                Ok(outer.at(alloc, number - count, by)?)
            }
            Frame::OfPattern(bound, outer) => {
                let count = bound.len();
                if number < count {
                    return Ok(Some(found_again(alloc, &bound[count - 1 - number], by)?));
                }
                Ok(outer.at(alloc, number - count, by)?)
            }
            Frame::OfFields(fields, outer) => {
                let count = fields.types.len();
                if number < count {
                    let it = &fields.types[count - 1 - number];
                    return Ok(Some(field_found(alloc, *fields, it, by)?));
                }
                Ok(outer.at(alloc, number - count, by)?)
            }
        }
    }
}

// The number after this one.
fn one_more(by: u32) -> Result<u32, NoMemory>
    ensures { IfOk result (λ n. n ≡ by + 1) }
{
    by.checked_add(1).ok_or(NoMemory)
}

// A written type of this kind, raised.
fn written<'t>(alloc: Global, ty: &'t Ty, kind: Kind, by: u32) -> Result<Found<'t>, NoMemory>
    ensures { IfOk result (λ f. (f.ty ≡ shift ty.now 0 by) × (f.kind ≡ kind)) }
{
    let ty = raised(alloc, ty, by)?;
    Ok(Found { ty, kind })
}

// What was found, raised.
fn found_again<'t>(alloc: Global, found: &Found<'t>, by: u32) -> Result<Found<'t>, NoMemory>
    ensures { IfOk result (λ f. (f.ty ≡ shift found.now.ty 0 by) × (f.kind ≡ found.now.kind)) }
{
    let ty = raised_again(alloc, &found.ty, by)?;
    Ok(Found {
        ty,
        kind: found.kind,
    })
}
