//! `Word`, the bits of a wire or of a RAM's address.
ghost use Rattle.std.specs.Prelude.{◌≡◌, ◌<◌, ◌≤◌, ◌^◌, length, replicate, slice_index_or, false, IfOk};
ghost use Rattle.chw_bits.specs.Bits.{bits_of, number_of};
ghost use Rattle.net_sim.specs.Kept.{IsKept, kept_bits};

use crate::reading::{bit_at, number_of_list};
use chw_base::NoMemory;
use chw_bits::Bits;
use std::alloc::Global;
use std::marker::Model;

/// The widest word that is kept as its number.
pub(crate) const NARROW: u32 = 128;

/// The widest word whose number is kept in the word itself.
pub(crate) const SMALL: u32 = 64;

// How a word is kept: as its width and its number, or as the list of its bits. The number of a
// small word stands in the word itself, and that of another narrow one in a box.
#[derive(Debug, Drop)]
enum Kept {
    Small(u32, u64),
    Narrow(u32, Box<u128>),
    Wide(Box<Vec<bool>>),
}

/// Bits of a width that stays; contracts see them as a list, the most significant first.
///
/// A word of at most 128 bits is kept as its number, a wider one as the list of its bits.
#[derive(Debug, Drop)]
pub(crate) struct Word {
    kept: Kept,
}

// A large table of small words fits the caches.
const _: () = prove!(size_of::<Word>() == 16);

impl Model for Word {
    ghost use Rattle.std.specs.Prelude.{List, Bool};

    ghost Value = { List Bool };

    ghost use Rattle.net_sim.specs.Kept.{IsKept, kept_bits};

    ghost view = { λ w. kept_bits w.kept };

    ghost invariant = { λ w. IsKept w.kept };
}

/// So many bits that are not set.
pub(crate) fn no_bits(alloc: Global, count: usize) -> Result<Vec<bool>, NoMemory>
    ensures { IfOk result (λ bits. bits.items ≡ replicate count false) }
{
    Ok(vec![in alloc; false; count]?)
}

// How a word of zeros is kept.
fn zeros_kept(alloc: Global, width: u32) -> Result<Kept, NoMemory>
    ensures kept { IfOk result IsKept }
    ensures zeros { IfOk result (λ kept. kept_bits kept ≡ bits_of width 0) }
{
    if width <= SMALL {
        return Ok(Kept::Small(width, 0));
    }
    if width <= NARROW {
        return Ok(Kept::Narrow(width, Box::new(alloc, 0)?));
    }
    let bits = no_bits(alloc, width as usize)?;
    Ok(Kept::Wide(Box::new(alloc, bits)?))
}

impl Word {
    /// A word of zeros.
    pub(crate) fn zeros(alloc: Global, width: u32) -> Result<Word, NoMemory>
        ensures { IfOk result (λ w. w ≡ bits_of width 0) }
    {
        let kept = zeros_kept(alloc, width)?;
        Ok(Word { kept })
    }

    /// How many bits there are.
    pub(crate) fn len(&self) -> u32
        ensures { result ≡ length self.now }
    {
        match &self.kept {
            Kept::Small(width, _) => *width,
            Kept::Narrow(width, _) => *width,
            Kept::Wide(bits) => bits.len() as u32,
        }
    }

    /// The number of a narrow word.
    pub(crate) fn number(&self) -> u128
        requires { length self.now ≤ 128 }
        ensures bits { self.now ≡ bits_of (length self.now) result }
        ensures below { result < 2 ^ length self.now }
        ensures number { result ≡ number_of self.now }
    {
        match &self.kept {
            Kept::Small(_, number) => u128::from(*number),
            Kept::Narrow(_, number) => **number,
            Kept::Wide(_) => 0,
        }
    }

    /// The number of a small word.
    pub(crate) fn small(&self) -> u64
        requires { length self.now ≤ 64 }
        ensures bits { self.now ≡ bits_of (length self.now) result }
        ensures below { result < 2 ^ length self.now }
        ensures number { result ≡ number_of self.now }
    {
        match &self.kept {
            Kept::Small(_, number) => *number,
            _ => unreachable!(),
        }
    }

    /// The bits of a wide word.
    pub(crate) fn list(&self) -> &[bool]
        requires { 128 < length self.now }
        ensures { result.now ≡ self.now }
    {
        match &self.kept {
            Kept::Wide(bits) => bits.as_slice(),
            _ => &[],
        }
    }

    /// The bit at this place of the list, the most significant at 0.
    pub(crate) fn bit(&self, i: u32) -> bool
        requires { i < length self.now }
        ensures { result ≡ slice_index_or self.now i false }
    {
        if self.len() > NARROW {
            self.list()[i as usize]
        } else {
            bit_at(self.len(), self.number(), i)
        }
    }

    /// Puts these bits in place of others, which are as many.
    pub(crate) fn put_into(&self, bits: &mut Bits)
        requires { length self.now ≡ length bits.old }
        ensures { bits.new ≡ self.now }
    {
        if self.len() > NARROW {
            bits.put_list(self.list());
        } else {
            bits.put_number(self.number());
        }
    }

    /// Makes a narrow word the one of a number.
    pub(crate) fn put_number(&mut self, n: u128)
        requires narrow { length self.old ≤ 128 }
        requires below { n < 2 ^ length self.old }
        ensures { self.new ≡ bits_of (length self.old) n }
    {
        match &mut self.kept {
            Kept::Small(_, number) => *number = n as u64,
            Kept::Narrow(_, number) => **number = n,
            Kept::Wide(_) => {}
        }
    }

    /// Makes a small word the one of a number.
    pub(crate) fn put_small(&mut self, n: u64)
        requires small { length self.old ≤ 64 }
        requires below { n < 2 ^ length self.old }
        ensures { self.new ≡ bits_of (length self.old) n }
    {
        match &mut self.kept {
            Kept::Small(_, number) => *number = n,
            _ => unreachable!(),
        }
    }

    // Puts these bits in place of those of a wide word.
    fn put_list(&mut self, bits: &[bool])
        requires wide { 128 < length self.old }
        requires width { length bits.now ≡ length self.old }
        ensures { self.new ≡ bits.now }
    {
        if let Kept::Wide(list) = &mut self.kept {
            list.copy_from_slice(bits);
        }
    }

    // Sets no bit of a wide word.
    fn clear_list(&mut self)
        requires { 128 < length self.old }
        ensures { self.new ≡ bits_of (length self.old) 0 }
    {
        if let Kept::Wide(list) = &mut self.kept {
            list.fill(false);
        }
    }

    /// Sets no bit.
    pub(crate) fn clear(&mut self)
        ensures { self.new ≡ bits_of (length self.old) 0 }
    {
        if self.len() > NARROW {
            self.clear_list();
        } else {
            self.put_number(0);
        }
    }

    /// Puts these bits in place of its own.
    pub(crate) fn put_bits(&mut self, bits: &[bool])
        requires { length bits.now ≡ length self.old }
        ensures { self.new ≡ bits.now }
    {
        if self.len() > NARROW {
            self.put_list(bits);
        } else {
            self.put_number(number_of_list(bits));
        }
    }

    /// Puts the bits of another word of its width in place of its own.
    pub(crate) fn copy_from(&mut self, other: &Word)
        requires { length other.now ≡ length self.old }
        ensures { self.new ≡ other.now }
    {
        let width = self.len();
        if width <= SMALL {
            self.put_small(other.small());
        } else if width <= NARROW {
            self.put_number(other.number());
        } else {
            self.put_list(other.list());
        }
    }
}
