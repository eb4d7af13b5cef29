//! `Memory`, the words of a RAM.
ghost use Rattle.std.specs.Prelude.{◌≡◌, ◌<◌, ◌≤◌, [], length, map, IfOk, slice_set};
ghost use Rattle.net_sim.specs.Tables.{value_in};

use crate::word::Word;
use chw_base::NoMemory;
use chw_bits::Bits;
use std::alloc::Global;
use std::marker::Model;

/// The words of a RAM by their addresses; none for a wire that no RAM drives.
#[derive(Debug, Drop)]
pub(crate) struct Memory {
    words: Vec<Word>,
}

impl Model for Memory {
    ghost use Rattle.std.specs.Prelude.{List, Bool};

    ghost Value = { List (List Bool) };

    ghost view = { λ m. m.words.items };
}

// A word of these bits.
fn word_of(alloc: Global, bits: &Bits) -> Result<Word, NoMemory>
    ensures { IfOk result (λ w. w ≡ bits.now) }
{
    let mut word = Word::zeros(alloc, bits.len())?;
    word.put_bits(bits.as_slice());
    Ok(word)
}

impl Memory {
    /// No words.
    pub(crate) fn none(alloc: Global) -> Memory
        ensures { result ≡ [] }
    {
        Memory {
            words: Vec::new(alloc),
        }
    }

    /// These words.
    pub(crate) fn of_words(alloc: Global, words: &[Bits]) -> Result<Memory, NoMemory>
        ensures { IfOk result (λ m. m ≡ words.now) }
    {
        let mut copies = Vec::new(alloc);
        for bits in words {
            copies.push(word_of(alloc, bits)?)?;
        }
        Ok(Memory { words: copies })
    }

    /// How many words there are.
    pub(crate) fn len(&self) -> usize
        ensures { result ≡ length self.now }
    {
        self.words.len()
    }

    /// The word at an address.
    pub(crate) fn word(&self, address: usize) -> &Word
        requires { address < length self.now }
        ensures { result.now ≡ value_in self.now address }
    {
        &self.words[address]
    }

    /// Puts the bits of a word in place of those at an address.
    pub(crate) fn put(&mut self, address: usize, word: &Word)
        requires within { address < length self.old }
        requires width { length word.now ≡ length (value_in self.old address) }
        ensures { self.new ≡ slice_set self.old address word.now }
    {
        self.words[address].copy_from(word);
    }
}
