//! The operators on words of at most 64 bits.
ghost use Rattle.std.specs.Prelude.{◌≡◌, ◌-◌, ◌^◌, ◌≤◌, length};
ghost use Rattle.chw_bits.specs.Bits.{number_of};
ghost use Rattle.net_sim.specs.Operands.{Suit};
ghost use Rattle.net_sim.specs.Steps.{IsQuick};
ghost use Rattle.netlist.specs.Operators.{operator2};

use crate::word::Word;
use netlist::Op2;

/// The number of what an operator makes of two words, with the mask of the left one's width.
pub(crate) fn small_of_two(op: Op2, mask: u64, left: &Word, right: &Word) -> u64
    requires left { length left.now ≤ 64 }
    requires right { length right.now ≤ 64 }
    requires suit { Suit op left.now right.now }
    requires quick { IsQuick op }
    requires mask { mask ≡ 2 ^ length left.now - 1 }
    ensures { result ≡ number_of (operator2 op left.now right.now) }
{
    let a = left.small();
    let b = right.small();
    match op {
        Op2::Add => a.wrapping_add(b) & mask,
        Op2::Sub => a.wrapping_sub(b) & mask,
        Op2::Mul => a.wrapping_mul(b) & mask,
        Op2::And => a & b,
        Op2::Or => a | b,
        Op2::Xor => a ^ b,
        Op2::Eq => u64::from(a == b),
        Op2::LtU => u64::from(a < b),
        Op2::LtS | Op2::Shl | Op2::Shr | Op2::Sar => unreachable!(),
    }
}
