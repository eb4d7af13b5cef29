//! The constructors of data types, which are counted over all data types of the program.
ghost use Rattle.std.specs.Prelude.{◌≡◌, ◌+◌, ◌≤◌, length, IfOk};
ghost use Rattle.chw_layout.specs.Encodes.{first_constructor};
ghost use Rattle.data_bits.specs.Encoding.{IsChosen, HasConstructor};

use chw_base::{ConId, NoMemory};
use chw_layout::tag_width;
use chw_types::{Data, Ty};

/// A constructor.
#[derive(Drop)]
pub(crate) struct Chosen<'a> {
    /// Its number among those of its data type.
    pub(crate) tag: u32,
    /// How many bits count the constructors of its data type.
    pub(crate) width: u32,
    pub(crate) fields: &'a [Ty],
}

/// The constructor of this number, which is one of the data type.
pub(crate) fn constructor(datas: &[Data], at: u32, con: u32) -> Result<Chosen<'_>, NoMemory>
    requires { HasConstructor datas.now at con }
    ensures { IfOk result (λ r. IsChosen datas.now at con r.tag r.width r.fields.now) }
{
    let at = at as usize;
    let tag = con as usize - first_number(datas, at)?;
    let cons = datas[at].cons.as_slice();
    Ok(Chosen {
        tag: tag as u32,
        width: tag_width(cons.len()),
        fields: cons[tag].fields.as_slice(),
    })
}

/// The number of the first constructor of a data type. A program with more constructors than a `usize` counts fits no memory.
pub(crate) fn first_number(datas: &[Data], at: usize) -> Result<usize, NoMemory>
    requires { at ≤ length datas.now }
    ensures { IfOk result (λ n. n ≡ first_constructor datas.now at) }
{
    let mut first: usize = 0;
    for i in 0..at {
        first = sum(first, datas[i].cons.len())?;
    }
    Ok(first)
}

/// The constructor of this tag in a data type. A program with more constructors than a `u32` counts fits no memory.
pub(crate) fn constructor_id(datas: &[Data], at: usize, tag: usize) -> Result<ConId, NoMemory>
    requires { at ≤ length datas.now }
    ensures { IfOk result (λ c. c.number ≡ first_constructor datas.now at + tag) }
{
    let number = sum(first_number(datas, at)?, tag)?;
    if number > u32::MAX as usize {
        return Err(NoMemory);
    }
    Ok(ConId {
        number: number as u32,
    })
}

fn sum(a: usize, b: usize) -> Result<usize, NoMemory>
    ensures { IfOk result (λ n. n ≡ a + b) }
{
    a.checked_add(b).ok_or(NoMemory)
}
