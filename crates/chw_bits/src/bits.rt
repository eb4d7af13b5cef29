//! `Bits`, a list of bits, the most significant first.
ghost use Rattle.std.specs.Prelude.{◌≡◌, ◌+◌, ◌<◌, ◌≤◌, ◌^◌, ◌++◌, length, slice_index_or, false, IfOk, SomeIff, ◌↔◌, IsTrue};
ghost use Rattle.chw_base.specs.Outcome.{IfFault, OnMemory};
ghost use Rattle.chw_bits.specs.Bits.{number_of, bits_of, cut_of};
ghost use Rattle.std.specs.Bool.{beq};
ghost use Rattle.std.specs.Cmp.{partial_equiv_from_equiv, bool_eq_equiv};
ghost use Rattle.std.specs.Cmp.Lexicographic.{pointwise, lists_per, lists_equiv};

use crate::places::{bit_at, fits};
use chw_base::{NoMemory, Or};
use std::alloc::Global;
use std::marker::Model;
use thiserror::Error;

/// Bits, the most significant first; contracts see them as a list of booleans.
///
/// There are fewer than 2 to the 32.
#[derive(Debug, Drop)]
pub struct Bits {
    pub(crate) bits: Vec<bool>,
}

impl Model for Bits {
    ghost use Rattle.std.specs.Prelude.{List, Bool, length, ◌<◌, ◌^◌};

    ghost Value = { List Bool };

    ghost view = { λ b. b.bits.items };

    ghost invariant = { λ b. length b.bits.items < 2 ^ 32 };
}

/// The number has a bit above the width.
#[derive(Clone, Copy, Debug, PartialEq, Eq, Error)]
#[error("the number doesn't fit its width")]
pub struct DoesNotFit;

impl Bits {
    /// How many bits there are.
    pub fn len(&self) -> u32
        ensures { result ≡ length self.now }
    {
        self.bits.len() as u32
    }

    /// The bits, the most significant first.
    pub fn as_slice(&self) -> &[bool]
        ensures value { result.now ≡ self.now }
        ensures small { length self.now < 2 ^ 32 }
    {
        self.bits.as_slice()
    }

    /// The bit at this place of the list, the most significant at 0.
    pub fn at(&self, i: u32) -> bool
        requires { i < length self.now }
        ensures { result ≡ slice_index_or self.now i false }
    {
        self.bits[i as usize]
    }

    /// The bits of a list, the most significant first.
    pub fn of_list(bits: Vec<bool>) -> Bits
        requires { length bits.items < 2 ^ 32 }
        ensures { result ≡ bits.items }
    {
        Bits { bits }
    }

    /// The lowest bits of a number, as many as the width, where it has no bit above them.
    ///
    /// `DoesNotFit` comes where the number isn't below 2 to the width, before any memory is asked for.
    pub fn of_number(alloc: Global, width: u32, n: u128) -> Result<Bits, Or<DoesNotFit>>
        ensures bits { IfOk result (λ b. (n < 2 ^ width) × (b ≡ bits_of width n)) }
        ensures does_not_fit { IfFault result (λ _. 2 ^ width ≤ n) }
        ensures memory { OnMemory result (n < 2 ^ width) }
    {
        if !fits(n, width) {
            return Err(Or::Fault(DoesNotFit));
        }
        let mut bits = Vec::new(alloc);
        for i in 0..width {
            bits.push(bit_at(n, width - 1 - i))?;
        }
        Ok(Bits { bits })
    }

    /// Makes these the lowest bits of a number, as many as they are. It takes no memory.
    pub fn put_number(&mut self, n: u128)
        ensures { self.new ≡ bits_of (length self.old) n }
    {
        let width = self.len();
        for i in 0..width {
            self.bits[i as usize] = bit_at(n, width - 1 - i);
        }
    }

    /// Puts these bits in place of its own, which are as many. It takes no memory.
    pub fn put_list(&mut self, bits: &[bool])
        requires { length bits.now ≡ length self.old }
        ensures { self.new ≡ bits.now }
    {
        self.bits.copy_from_slice(bits);
    }

    /// The number that these bits mean, where there are at most 128.
    pub fn number(&self) -> Option<u128>
        ensures { SomeIff result (length self.now ≤ 128) (number_of self.now) }
    {
        if self.bits.len() > 128 {
            return None;
        }
        let mut n: u128 = 0;
        for bit in &self.bits {
            n = 2 * n + u128::from(*bit);
        }
        Some(n)
    }

    /// The same bits once more.
    pub fn copy(&self, alloc: Global) -> Result<Bits, NoMemory>
        ensures { IfOk result (λ b. b ≡ self.now) }
    {
        let bits = Vec::from_slice(alloc, &self.bits)?;
        Ok(Bits { bits })
    }

    /// These bits with others after them, these the most significant.
    pub fn join(&self, alloc: Global, low: &Bits) -> Result<Bits, NoMemory>
        requires { length self.now + length low.now < 2 ^ 32 }
        ensures { IfOk result (λ b. b ≡ self.now ++ low.now) }
    {
        let mut bits = Vec::from_slice(alloc, &self.bits)?;
        bits.extend_from_slice(&low.bits)?;
        Ok(Bits { bits })
    }

    /// The bits from one place down to another, the least significant place 0.
    pub fn cut(&self, alloc: Global, high: u32, low: u32) -> Result<Bits, NoMemory>
        requires order { low ≤ high }
        requires within { high < length self.now }
        ensures { IfOk result (λ b. b ≡ cut_of high low self.now) }
    {
        let from = self.bits.len() - 1 - high as usize;
        let to = self.bits.len() - low as usize;
        let bits = Vec::from_slice(alloc, &self.bits[from..to])?;
        Ok(Bits { bits })
    }
}

impl PartialEq for Bits {
    ghost eq = { pointwise beq };

    ghost laws = { lists_per (partial_equiv_from_equiv bool_eq_equiv) };

    fn eq(&self, other: &Bits) -> bool
        ensures value { result ≡ pointwise beq self.now other.now }
        ensures same { IsTrue result ↔ self.now ≡ other.now }
    {
        self.bits.as_slice() == other.bits.as_slice()
    }
}

impl Eq for Bits {
    ghost laws = { lists_equiv bool_eq_equiv };
}
