//! The pieces of a line: bytes, numbers and paths.
ghost use Rattle.std.specs.Prelude.{◌≡◌, ◌++◌, codes, decimal, OnOk};
ghost use Rattle.norm_lines.specs.Lines.{path_text};

use chw_base::NoMemory;
use itoa::Buffer;

// Appends these bytes.
pub(crate) fn put(out: &mut Vec<u8>, text: &[u8]) -> Result<(), NoMemory>
    ensures { OnOk result (out.new.items ≡ out.old.items ++ text.now) }
{
    out.extend_from_slice(text)?;
    Ok(())
}

// Appends a number in decimal digits.
pub(crate) fn put_number(out: &mut Vec<u8>, number: usize) -> Result<(), NoMemory>
    ensures { OnOk result (out.new.items ≡ out.old.items ++ decimal number) }
{
    let mut digits = Buffer::new();
    put(out, digits.format(number).as_bytes())
}

// Appends a dot and a number.
fn put_next(out: &mut Vec<u8>, number: u32) -> Result<(), NoMemory>
    ensures { OnOk result (out.new.items ≡ out.old.items ++ codes "." ++ decimal number) }
{
    put(out, b".")?;
    put_number(out, number as usize)
}

// Appends the numbers of a path, joined by dots, or a dash where there are none.
pub(crate) fn put_path(out: &mut Vec<u8>, path: &[u32]) -> Result<(), NoMemory>
    ensures { OnOk result (out.new.items ≡ out.old.items ++ path_text path.now) }
{
    let Some((first, later)) = path.split_first() else {
        return put(out, b"-");
    };
    put_number(out, *first as usize)?;
    for number in later {
        put_next(out, *number)?;
    }
    Ok(())
}
