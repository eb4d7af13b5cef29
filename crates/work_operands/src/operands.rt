//! Which arguments of a head are operands.
ghost use Rattle.std.specs.Prelude.{◌↔◌, IsTrue};
ghost use Rattle.rewriting.specs.Spots.{HasLets, IsRowOnWords, TakesElement};
ghost use Rattle.rewriting.specs.Operands.{IsSignal};
ghost use Rattle.work_operands.specs.Firsts.{IsAmong};

use chw_prims::{Prim, Row};
use chw_terms::Mode;

/// Which arguments of a head are operands.
#[derive(Clone, Copy)]
pub(crate) enum Operands {
    /// All of a constructor or of a call.
    Each,
    /// The words of this primitive, its vector and its index, or its signals.
    OfPrim(Prim),
}

// Whether a row of primitives is one on words.
fn is_on_words(row: Row) -> bool
    ensures { IsTrue result ↔ IsRowOnWords row }
{
    match row {
        Row::Binary(_) | Row::WideSum(_) | Row::WideProduct(_) | Row::Unary(_) => true,
        Row::Shift(_) | Row::Compare(_) | Row::Extend(_) | Row::Truncate(_) => true,
        Row::Cut | Row::Joined | Row::Reduce | Row::Packed(_) | Row::Unpacked(_) => true,
        _ => false,
    }
}

// Whether a primitive takes an element of a vector.
fn takes_element(which: Prim) -> bool
    ensures { IsTrue result ↔ TakesElement which }
{
    match which {
        Prim::VGet | Prim::VGetC | Prim::VAt => true,
        _ => false,
    }
}

// Whether the argument of this number is a signal of which the primitive makes another.
fn is_signal(which: Prim, number: usize) -> bool
    ensures { IsTrue result ↔ IsSignal which number }
{
    match which {
        Prim::Register | Prim::UnsafeSynchronizer => number == 3,
        Prim::BlockRam => number == 5 || number == 6,
        Prim::Fmap => number == 4,
        Prim::Ap => number == 3 || number == 4,
        _ => false,
    }
}

/// Whether the argument of this number is an operand.
pub(crate) fn is_among(among: Operands, number: usize) -> bool
    ensures { IsTrue result ↔ IsAmong among number }
{
    match among {
        Operands::Each => true,
        Operands::OfPrim(which) => is_on_words(Row::of(which))
            || takes_element(which)
            || is_signal(which, number),
    }
}

/// Whether letrecs may stand at places of this mode.
pub(crate) fn has_lets(mode: Mode) -> bool
    ensures { IsTrue result ↔ HasLets mode }
{
    match mode {
        Mode::V | Mode::C => true,
        Mode::HV | Mode::HC | Mode::K => false,
    }
}
