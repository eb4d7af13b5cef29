//! Nets of single bits in rows.
use blif_read::{Bitnet, Node, read};
use blif_text::BlifFault;
use chw_base::{Name, NoMemory, Or};
use row_tables::{Unread, bytes_of, put, put_bytes};
use std::alloc::Global;

/// Writes the net of a text, line by line, or the fault of the text.
pub fn put_net(alloc: Global, text: &str, out: &mut Vec<u8>) -> Result<(), Or<Unread>> {
    let text = bytes_of(alloc, text)?;
    if text.len() >= u32::MAX as usize {
        return Err(Or::Fault(Unread));
    }
    match read(alloc, &text) {
        Ok(net) => Ok(put_bitnet(&net, out)?),
        Err(Or::Fault(fault)) => Ok(put_fault(alloc, fault, out)?),
        Err(Or::Memory) => Err(Or::Memory),
    }
}

fn put_fault(alloc: Global, fault: BlifFault, out: &mut Vec<u8>) -> Result<(), NoMemory> {
    let shown = format!(in alloc; "{fault}")?;
    put(out, shown.as_str())
}

fn put_bitnet(net: &Bitnet, out: &mut Vec<u8>) -> Result<(), NoMemory> {
    put(out, ".model chw_top; .inputs")?;
    put_names(net.inputs.as_slice(), out)?;
    put(out, "; .outputs")?;
    put_names(net.outputs.as_slice(), out)?;
    for node in net.nodes.as_slice() {
        put_node(node, out)?;
    }
    put(out, "; .end")
}

fn put_names(names: &[Name], out: &mut Vec<u8>) -> Result<(), NoMemory> {
    for name in names {
        put_name(name, out)?;
    }
    Ok(())
}

fn put_name(name: &Name, out: &mut Vec<u8>) -> Result<(), NoMemory> {
    put(out, " ")?;
    put_bytes(out, name.as_slice())
}

fn put_node(node: &Node, out: &mut Vec<u8>) -> Result<(), NoMemory> {
    match node {
        Node::Table {
            reads,
            drives,
            rows,
        } => put_table(reads.as_slice(), drives, rows.as_slice(), out),
        Node::Latch {
            takes,
            drives,
            clock,
            initial,
        } => {
            put(out, "; .latch")?;
            put_name(takes, out)?;
            put_name(drives, out)?;
            put(out, " re")?;
            put_name(clock, out)?;
            put(out, if *initial { " 1" } else { " 0" })
        }
    }
}

fn put_table(
    reads: &[Name],
    drives: &Name,
    rows: &[Name],
    out: &mut Vec<u8>,
) -> Result<(), NoMemory> {
    put(out, "; .names")?;
    put_names(reads, out)?;
    put_name(drives, out)?;
    for row in rows {
        put_row(row, out)?;
    }
    Ok(())
}

fn put_row(row: &Name, out: &mut Vec<u8>) -> Result<(), NoMemory> {
    put(out, "; ")?;
    if !row.is_empty() {
        put_bytes(out, row.as_slice())?;
        put(out, " ")?;
    }
    put(out, "1")
}
