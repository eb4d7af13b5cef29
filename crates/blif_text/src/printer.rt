//! The printer: a net of single bits as a text.
ghost use Rattle.std.specs.Prelude.{◌≡◌, IfOk};
ghost use Rattle.bit_nodes.specs.Standing.{bitnet_of};
ghost use Rattle.blif_text.specs.Printed.{blif_text};

use crate::header::put_header;
use crate::nodes::put_nodes;
use crate::pieces::put;
use bit_nodes::BitNode;
use chw_base::{NoMemory, Seq};
use netlist::Flat;
use std::alloc::Global;

/// The text of the net of single bits that has the inputs and outputs of a flat net and these
/// nodes.
///
/// `NoMemory` comes where memory was wanting.
pub fn print(alloc: Global, flat: &Flat, nodes: &[BitNode]) -> Result<Seq<u8>, NoMemory>
    ensures { IfOk result (λ text. text ≡ blif_text (bitnet_of flat.now nodes.now)) }
{
    let mut out = Vec::new(alloc);
    put_header(&mut out, flat)?;
    put_nodes(alloc, &mut out, flat, nodes)?;
    put(&mut out, b".end\n")?;
    Ok(Seq::from(out))
}
