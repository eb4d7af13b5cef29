//! The codes of variables.
ghost use Rattle.std.specs.Prelude.{◌≡◌, ◌+◌, ◌<◌, ◌++◌, [], ◌∷◌, OnOk};
ghost use Rattle.waves.specs.Vcd.{code_of};

use crate::pieces::put_byte;
use chw_base::NoMemory;

/// How many digits there are.
const BASE: u64 = 94;

/// Writes a digit.
fn put_digit(out: &mut Vec<u8>, digit: u64) -> Result<(), NoMemory>
    requires { digit < 94 }
    ensures { OnOk result (out.new.items ≡ out.old.items ++ (33 + digit) ∷ []) }
{
    put_byte(out, b'!' + digit as u8)
}

/// Writes the code of the variable of this number. It has at most ten digits.
pub fn put_code(out: &mut Vec<u8>, number: u64) -> Result<(), NoMemory>
    ensures { OnOk result (out.new.items ≡ out.old.items ++ code_of number) }
{
    if number < BASE {
        return put_digit(out, number);
    }
    put_code(out, number / BASE)?;
    put_digit(out, number % BASE)
}
