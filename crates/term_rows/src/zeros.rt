//! Types without zeros and ones.
use chw_base::Or;
use chw_typing::without_zeros;
use row_notation::read;
use row_tables::Unread;
use std::alloc::Global;
use type_ports::type_text;

/// Writes what a type is without zeros and ones.
pub(crate) fn answer(alloc: Global, text: &str, out: &mut Vec<u8>) -> Result<(), Or<Unread>> {
    let less = without_zeros(alloc, read(alloc, text)?.ty(0)?)?;
    let written = type_text(alloc, &less, &[], &[])?;
    Ok(out.extend_from_slice(written.as_slice())?)
}
