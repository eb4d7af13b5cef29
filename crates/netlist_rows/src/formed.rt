//! Nets of several modules, and the first rule that each breaks.
use chw_base::Or;
use net_notation::net_of;
use net_rules::NetCode;
use net_rules::well_formed::well_formed;
use netlist::Net;
use row_tables::{Unread, bytes_of, put, put_number};
use std::alloc::Global;

fn code_name(code: NetCode) -> &'static str {
    match code {
        NetCode::Name => " Name",
        NetCode::Width => " Width",
        NetCode::Driver => " Driver",
        NetCode::Limit => " Limit",
    }
}

/// Writes that a net is well formed, or the module and the code of its fault.
pub(crate) fn put_formed(alloc: Global, text: &str, out: &mut Vec<u8>) -> Result<(), Or<Unread>> {
    let bytes = bytes_of(alloc, text)?;
    match std::str::from_utf8(&bytes) {
        Ok(text) => put_found(alloc, &net_of(alloc, text)?, out),
        Err(_) => Err(Or::Fault(Unread)),
    }
}

fn put_found(alloc: Global, net: &Net, out: &mut Vec<u8>) -> Result<(), Or<Unread>> {
    match well_formed(alloc, net) {
        Ok(()) => Ok(put(out, "well formed")?),
        Err(Or::Fault(fault)) => {
            put_number(out, "", fault.module.number)?;
            Ok(put(out, code_name(fault.code))?)
        }
        Err(Or::Memory) => Err(Or::Memory),
    }
}
