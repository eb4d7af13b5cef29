//! The operators on words of at most 128 bits.
ghost use Rattle.std.specs.Prelude.{◌≡◌, ◌≤◌, length};
ghost use Rattle.chw_bits.specs.Bits.{number_of};
ghost use Rattle.net_sim.specs.Operands.{Suit};
ghost use Rattle.netlist.specs.Operators.{operator1, operator2};

use crate::word::Word;
use chw_bits::machine;
use netlist::{Op1, Op2};

/// The number of what an operator makes of a word.
pub(crate) fn made_of_one(op: Op1, word: &Word) -> u128
    requires { length word.now ≤ 128 }
    ensures { result ≡ number_of (operator1 op word.now) }
{
    let width = word.len();
    let n = word.number();
    match op {
        Op1::Not => machine::flipped(width, n),
        Op1::RedAnd => u128::from(machine::all_set(width, n)),
        Op1::RedOr => u128::from(machine::any_set(n)),
        Op1::RedXor => u128::from(machine::odd_set(n)),
    }
}

/// The number of what an operator makes of two words.
pub(crate) fn made_of_two(op: Op2, left: &Word, right: &Word) -> u128
    requires left { length left.now ≤ 128 }
    requires right { length right.now ≤ 128 }
    requires suit { Suit op left.now right.now }
    ensures { result ≡ number_of (operator2 op left.now right.now) }
{
    let width = left.len();
    let a = left.number();
    let b = right.number();
    match op {
        Op2::Add => machine::sum(width, a, b),
        Op2::Sub => machine::difference(width, a, b),
        Op2::Mul => machine::product(width, a, b),
        Op2::And => machine::both(a, b),
        Op2::Or => machine::either(a, b),
        Op2::Xor => machine::differing(a, b),
        Op2::Eq => u128::from(a == b),
        Op2::LtU => u128::from(a < b),
        Op2::LtS => u128::from(machine::less_signed(width, a, b)),
        Op2::Shl => machine::up(width, a, b),
        Op2::Shr => machine::down(a, b),
        Op2::Sar => machine::signed_down(width, a, b),
    }
}
