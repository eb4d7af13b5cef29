//! The kinds of the type variables in scope, under the type binders that were passed.
ghost use Rattle.std.specs.Prelude.{◌≡◌, ◌∷◌, reverse};
ghost use Rattle.std.specs.List.{slice_get};

use crate::kind::Kind;
use std::marker::Model;

/// The kinds of the type variables in scope. Contracts see them as a list, the innermost first.
#[cycle(scope)]
#[derive(Drop)]
pub(crate) struct Scope<'a> {
    binders: Binders<'a>,
}

#[cycle(scope)]
#[derive(Drop)]
enum Binders<'a> {
    /// What was in scope from the beginning, the outermost first.
    Outside(&'a [Kind]),
    /// One more binder.
    Under(Kind, &'a Scope<'a>),
}

impl<'a> Model for Scope<'a> {
    ghost use Rattle.std.specs.Prelude.{List, length, ◌+◌};
    ghost use Rattle.chw_types.specs.declared.kind.Kind.{Kind};

    ghost Value = { List Kind };

    ghost use Rattle.chw_types.specs.Scopes.{kinds_of};

    ghost view = { λ s. kinds_of s.binders };

    ghost size = { length };

    ghost use Rattle.std.proofs.Common.{arith};

    ghost size_decreases = { λ a h. Prim.grind arith };
}

impl<'a> Scope<'a> {
    /// The variables of this list, the outermost first.
    pub(crate) fn outside(kinds: &'a [Kind]) -> Scope<'a>
        ensures { result ≡ reverse kinds.now }
    {
        Scope {
            binders: Binders::Outside(kinds),
        }
    }

    /// One more binder.
    pub(crate) fn under(&'a self, kind: Kind) -> Scope<'a>
        ensures { result ≡ kind ∷ self.now }
    {
        Scope {
            binders: Binders::Under(kind, self),
        }
    }

    /// The kind of the variable of this number, where it is in scope.
    pub(crate) fn at(&self, number: u32) -> Option<Kind>
        ensures { result ≡ slice_get self.now number }
    {
        match &self.binders {
            Binders::Outside(kinds) => {
                let number = number as usize;
                if number < kinds.len() {
                    Some(kinds[kinds.len() - 1 - number])
                } else {
                    None
                }
            }
            Binders::Under(kind, outer) => {
                if number == 0 {
                    Some(*kind)
                } else {
                    outer.at(number - 1)
                }
            }
        }
    }
}
