//! The codes of the variables.
ghost use Rattle.std.specs.Prelude.{◌≡◌, [], ◌∷◌, IfOk, IfSome};
ghost use Rattle.name_tables.specs.Names.{place_of};
ghost use Rattle.wave_read.specs.Codes.{AreShort};

use chw_base::NoMemory;
use name_tables::Declared as Names;
use std::alloc::Global;
use std::marker::Model;

/// How many codes of one byte there may be.
const BYTES: u32 = 256;

/// The codes of the variables, which contracts see as a list.
#[derive(Drop)]
pub struct Codes<'a> {
    names: Names<'a>,
    /// The place of each code of one byte, by that byte.
    short: Vec<Option<u32>>,
}

impl<'a> Model for Codes<'a> {
    ghost use Rattle.std.specs.Prelude.{List, ℕ};

    ghost Value = { List (List ℕ) };

    ghost use Rattle.wave_read.specs.Codes.{AreShort};

    ghost view = { λ c. c.names };

    ghost invariant = { λ c. AreShort c.names c.short.items };
}

/// The place of each code of one byte, by that byte.
fn short_of(alloc: Global, names: &Names) -> Result<Vec<Option<u32>>, NoMemory>
    ensures { IfOk result (λ short. AreShort names.now short.items) }
{
    let mut short = Vec::with_capacity(alloc, BYTES as usize)?;
    for byte in 0..BYTES {
        let code = [byte as u8];
        short.push(names.find(&code))?;
    }
    Ok(short)
}

/// The byte of a code of one byte.
fn only_byte(code: &[u8]) -> Option<u8>
    ensures { IfSome result (λ byte. code.now ≡ byte ∷ []) }
{
    match code {
        [byte] => Some(*byte),
        _ => None,
    }
}

impl<'a> Codes<'a> {
    /// These codes.
    pub fn of(alloc: Global, names: Names<'a>) -> Result<Codes<'a>, NoMemory>
        ensures { IfOk result (λ codes. codes ≡ names.entry) }
    {
        let short = short_of(alloc, &names)?;
        Ok(Codes { names, short })
    }

    /// The place of a code among these.
    pub fn find(&self, code: &[u8]) -> Option<u32>
        ensures { result ≡ place_of self.now code.now }
    {
        if let Some(byte) = only_byte(code) {
            if (byte as usize) < self.short.len() {
                return self.short[byte as usize];
            }
        }
        self.names.find(code)
    }
}
