//! Copies of ports.
ghost use Rattle.std.specs.Prelude.{◌≡◌, IfOk};

use chw_base::{NoMemory, Seq};
use chw_clock::{Port, Ports};
use std::alloc::Global;

// The same items once more.
fn copy_items<T: Copy>(alloc: Global, items: &Seq<T>) -> Result<Seq<T>, NoMemory>
    ensures { IfOk result (λ copy. copy ≡ items.now) }
{
    let copy = Vec::from_slice(alloc, items.as_slice())?;
    Ok(Seq::from(copy))
}

fn copy_names(alloc: Global, names: &Seq<Seq<u8>>) -> Result<Seq<Seq<u8>>, NoMemory>
    ensures { IfOk result (λ copy. copy ≡ names.now) }
{
    let mut copy = Vec::new(alloc);
    for name in names.as_slice() {
        copy.push(copy_items(alloc, name)?)?;
    }
    Ok(Seq::from(copy))
}

fn copy_port(alloc: Global, port: &Port) -> Result<Port, NoMemory>
    ensures { IfOk result (λ copy. copy ≡ port.now) }
{
    let name = copy_items(alloc, &port.name)?;
    Ok(Port {
        name,
        dom: port.dom,
        width: port.width,
    })
}

fn copy_port_list(alloc: Global, ports: &Seq<Port>) -> Result<Seq<Port>, NoMemory>
    ensures { IfOk result (λ copy. copy ≡ ports.now) }
{
    let mut copy = Vec::new(alloc);
    for port in ports.as_slice() {
        copy.push(copy_port(alloc, port)?)?;
    }
    Ok(Seq::from(copy))
}

/// The same ports once more.
pub(crate) fn copy_ports(alloc: Global, ports: &Ports) -> Result<Ports, NoMemory>
    ensures { IfOk result (λ copy. copy ≡ ports.now) }
{
    let domains = copy_names(alloc, &ports.domains)?;
    let resets = copy_items(alloc, &ports.resets)?;
    let inputs = copy_port_list(alloc, &ports.inputs)?;
    let outputs = copy_port_list(alloc, &ports.outputs)?;
    Ok(Ports {
        domains,
        resets,
        inputs,
        outputs,
    })
}
