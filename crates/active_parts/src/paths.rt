//! Paths from a term to its parts.
ghost use Rattle.std.specs.Prelude.{◌≡◌, IfOk};
ghost use Rattle.active_parts.specs.Parts.{part_path, numbers_of, IsAmong};

use chw_base::{NoMemory, narrow};

/// The path from a term to one of its parts: so many zeros, which lead to the functions of applications, and a last number.
#[derive(Clone, Copy)]
pub struct PartPath {
    pub zeros: usize,
    pub last: u32,
}

/// The path to the part of this number, from a term with so many arguments.
///
/// Where a number would pass 32 bits, the answer is want of memory.
pub fn path_to(arguments: usize, number: usize) -> Result<PartPath, NoMemory>
    requires { IsAmong arguments number }
    ensures { IfOk result (λ p. numbers_of p ≡ part_path arguments number) }
{
    if arguments == 0 {
        let last = narrow(number)?;
        return Ok(PartPath { zeros: 0, last });
    }
    let zeros = arguments - 1 - number;
    Ok(PartPath { zeros, last: 1 })
}
