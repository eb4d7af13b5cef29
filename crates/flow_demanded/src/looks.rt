//! The arguments at which primitives look.
ghost use Rattle.std.specs.Prelude.{◌≡◌, ◌↔◌, ℕ, IfSome, IfNone, IsTrue};
ghost use Rattle.chw_prims.specs.Schemas.{schema_type};
ghost use Rattle.rewriting.specs.Spots.{LooksAt, asked_for};

use chw_prims::Prim;

/// Whether the primitive looks at its argument of this number: at the vector of which it takes an element, at the signals on which it
/// maps or applies.
pub(crate) fn looks_at(which: Prim, number: usize) -> bool
    ensures { IsTrue result ↔ LooksAt which number }
{
    match which {
        Prim::VGet | Prim::VGetC | Prim::VAt => number == 3,
        Prim::Fmap => number == 4,
        Prim::Ap => number == 3 || number == 4,
        _ => false,
    }
}

/// How many arguments the primitive names, where it looks at some of them. Nothing comes exactly where it looks at none.
pub(crate) fn named_args(which: Prim) -> Option<usize>
    ensures some { IfSome result (λ n. n ≡ asked_for (schema_type which)) }
    ensures none { IfNone result ((i : ℕ) → LooksAt which i → ⊥) }
{
    match which {
        Prim::VGet | Prim::VGetC => Some(4),
        Prim::VAt | Prim::Fmap | Prim::Ap => Some(5),
        _ => None,
    }
}
