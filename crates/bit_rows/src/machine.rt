//! Rows of words as numbers.
ghost use Rattle.std.specs.Prelude.{◌≤◌, ◌<◌, ◌^◌};

use crate::{number, put_decimal};
use chw_base::Or;
use chw_bits::machine::{
    both, differing, either, joined, less_signed, lowest, middle, signed_down,
};
use row_tables::Unread;

/// Writes the number that a call gives on two or three numbers, where it takes them.
pub fn answer(call: &str, x: u32, text: &str, out: &mut Vec<u8>) -> Result<(), Or<Unread>> {
    let (y, z) = text.split_once(' ').unwrap_or((text, "0"));
    let found = word(call, x, number(y)?, number(z)?).ok_or(Or::Fault(Unread))?;
    Ok(put_decimal(found, out)?)
}

// A word of a call that takes a width is cut to that width first.
fn word(call: &str, x: u32, y: u32, z: u32) -> Option<u128> {
    let (a, b, c) = (u128::from(x), u128::from(y), u128::from(z));
    match call {
        "both" => Some(both(a, b)),
        "either" => Some(either(a, b)),
        "differing" => Some(differing(a, b)),
        "joined" if z <= 128 => Some(joined(lowest(128 - z, a), lowest(z, b), z)),
        "middle" if z <= y && y < 128 => Some(middle(a, y, z)),
        "signed_down" if x <= 128 => Some(signed_down(x, lowest(x, b), c)),
        "less_signed" if x <= 128 => Some(is_less(x, lowest(x, b), lowest(x, c))),
        _ => None,
    }
}

fn is_less(width: u32, a: u128, b: u128) -> u128
    requires whole { width ≤ 128 }
    requires left { a < 2 ^ width }
    requires right { b < 2 ^ width }
{
    u128::from(less_signed(width, a, b))
}
