//! The smallest pieces of a text: bytes, numbers and times.
ghost use Rattle.std.specs.Prelude.{◌≡◌, ◌++◌, [], ◌∷◌, decimal, OnOk};
ghost use Rattle.waves.specs.Vcd.{time_line};

use chw_base::NoMemory;
use itoa::Buffer;

/// Writes these bytes.
pub fn put(out: &mut Vec<u8>, text: &[u8]) -> Result<(), NoMemory>
    ensures { OnOk result (out.new.items ≡ out.old.items ++ text.now) }
{
    out.extend_from_slice(text)?;
    Ok(())
}

/// Writes a byte.
pub fn put_byte(out: &mut Vec<u8>, byte: u8) -> Result<(), NoMemory>
    ensures { OnOk result (out.new.items ≡ out.old.items ++ byte ∷ []) }
{
    out.push(byte)?;
    Ok(())
}

/// Writes a number in decimal digits.
pub fn put_number(out: &mut Vec<u8>, n: u64) -> Result<(), NoMemory>
    ensures { OnOk result (out.new.items ≡ out.old.items ++ decimal n) }
{
    let mut buffer = Buffer::new();
    out.extend_from_slice(buffer.format(n).as_bytes())?;
    Ok(())
}

/// Writes the line of a time.
pub fn put_time(out: &mut Vec<u8>, time: u64) -> Result<(), NoMemory>
    ensures { OnOk result (out.new.items ≡ out.old.items ++ time_line time) }
{
    put_byte(out, b'#')?;
    put_number(out, time)?;
    put_byte(out, b'\n')?;
    Ok(())
}
