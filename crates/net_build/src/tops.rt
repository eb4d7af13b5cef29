//! The ports of a program: its domains, those of them that have a reset, and the leaves of its top
//! that have bits.
ghost use Rattle.std.specs.Prelude.{◌≡◌, [], ℕ, IfOk, OnOk};
ghost use Rattle.type_ports.specs.Ports.{IsPort};
ghost use Rattle.chw_layout.specs.Measured.{HasWidth};
ghost use Rattle.chw_meaning.specs.Means.{HasPorts, LeadsFrom, PortsOf};
ghost use Rattle.net_built.specs.Terms.{result_of};
ghost use Rattle.net_build.specs.Ports.{AddsLeaves, AddsPort, ArePorts, IsLedTo, IsTopOf};
ghost use Rattle.net_build.specs.Ports.{HasEnds, HasSomePorts, HavePorts};

use chw_base::{Name, NoMemory, Seq};
use chw_clock::{Port, Ports};
use chw_terms::{Def, Program};
use chw_types::{Ty, TyNode};
use circuit_build::ports::port_leaves;
use std::alloc::Global;
use type_ports::Leaf;
use value_build::Base;

// The leaves of a top: of its parameters, and of its result.
#[derive(Drop)]
struct Ends {
    ins: Vec<Leaf>,
    outs: Vec<Leaf>,
}

// Puts the leaves of a port behind others.
fn add_leaves(
    alloc: Global,
    base: &Base<'_>,
    t: &Ty,
    leaves: &mut Vec<Leaf>,
) -> Result<(), NoMemory>
    requires { IsPort base.now.datas t.now }
    ensures { OnOk result (AddsLeaves base.now.datas t.now leaves.old.items leaves.new.items) }
{
    let mut more = port_leaves(alloc, base, t)?;
    leaves.append(&mut more)?;
    Ok(())
}

// The leaves of the parameters of a function that leads from ports to a port, and what it leads to.
fn parameters<'t>(
    alloc: Global,
    base: &Base<'_>,
    t: &'t Ty,
    ins: &mut Vec<Leaf>,
) -> Result<&'t Ty, NoMemory>
    requires none { ins.old.items ≡ [] }
    requires ends { HasEnds base.now.datas t.now }
    ensures led { IfOk result (λ rest. IsLedTo base.now.datas t.now rest.now ins.new.items) }
    ensures last { IfOk result (λ rest. rest.now ≡ result_of t.now) }
{
    let mut rest = t;
    while let TyNode::Fun(from, to) = &rest.node {
        add_leaves(alloc, base, from, ins)?;
        rest = to;
    }
    Ok(rest)
}

// The leaves of what a function leads from, and of what it leads to.
fn ends_of(alloc: Global, base: &Base<'_>, t: &Ty) -> Result<Ends, NoMemory>
    requires { HasEnds base.now.datas t.now }
    ensures { IfOk result (λ it. LeadsFrom base.now.datas t.now it.ins.items it.outs.items) }
{
    let mut ins = Vec::new(alloc);
    let rest = parameters(alloc, base, t, &mut ins)?;
    let outs = port_leaves(alloc, base, rest)?;
    Ok(Ends { ins, outs })
}

// Puts the port of a leaf with this name behind others, where it has bits.
fn push_port(
    alloc: Global,
    base: &mut Base<'_>,
    leaf: &Leaf,
    name: &Name,
    ports: &mut Vec<Port>,
) -> Result<(), NoMemory>
    requires { (width : ℕ) × HasWidth base.old.datas leaf.now.payload width }
    ensures port { OnOk result
        (AddsPort base.old.datas leaf.now name.now ports.old.items ports.new.items) }
    ensures same { base.new ≡ base.old }
{
    let width = base.width(alloc, &leaf.payload)?;
    if width == 0 {
        return Ok(());
    }
    let name = Name::copy_of(alloc, name.as_slice())?;
    ports.push(Port {
        name,
        dom: leaf.dom,
        width,
    })?;
    Ok(())
}

// The ports of leaves with these names.
fn ports_of(
    alloc: Global,
    base: &mut Base<'_>,
    leaves: &[Leaf],
    names: &[Name],
) -> Result<Vec<Port>, NoMemory>
    requires { HavePorts base.old.datas leaves.now names.now }
    ensures ports { IfOk result (λ ps. PortsOf base.old.datas leaves.now names.now ps.items) }
    ensures same { base.new ≡ base.old }
{
    let mut ports = Vec::new(alloc);
    for (i, leaf) in leaves.iter().enumerate() {
        push_port(alloc, base, leaf, &names[i], &mut ports)?;
    }
    Ok(ports)
}

// The same names once more.
fn copy_names(alloc: Global, names: &[Name]) -> Result<Vec<Name>, NoMemory>
    ensures { IfOk result (λ same. same.items ≡ names.now) }
{
    let mut copies = Vec::new(alloc);
    for name in names {
        copies.push(Name::copy_of(alloc, name.as_slice())?)?;
    }
    Ok(copies)
}

// The ports of a program whose top has these leaves.
fn ports_at(
    alloc: Global,
    base: &mut Base<'_>,
    program: &Program,
    ends: &Ends,
) -> Result<Ports, NoMemory>
    requires inputs { HavePorts base.old.datas ends.now.ins.items program.now.top.inputs }
    requires outputs { HavePorts base.old.datas ends.now.outs.items program.now.top.outputs }
    ensures ports { IfOk result
        (ArePorts base.old.datas program.now ends.now.ins.items ends.now.outs.items) }
    ensures same { base.new ≡ base.old }
{
    let inputs = ports_of(alloc, base, &ends.ins, program.top.inputs.as_slice())?;
    let outputs = ports_of(alloc, base, &ends.outs, program.top.outputs.as_slice())?;
    let domains = copy_names(alloc, program.domains.as_slice())?;
    let resets = Vec::from_slice(alloc, program.resets.as_slice())?;
    Ok(Ports {
        domains: Seq::from(domains),
        resets: Seq::from(resets),
        inputs: Seq::from(inputs),
        outputs: Seq::from(outputs),
    })
}

// The definition of a program's top.
fn top_of(program: &Program) -> &Def
    requires { HasSomePorts program.now }
    ensures { IsTopOf program.now result.now }
{
    &program.defs.as_slice()[program.top.def.number as usize]
}

/// The ports of a program.
pub(crate) fn ports(
    alloc: Global,
    base: &mut Base<'_>,
    program: &Program,
) -> Result<Ports, NoMemory>
    requires datas { base.old.datas ≡ program.now.datas }
    requires ports { HasSomePorts program.now }
    ensures ports { IfOk result (HasPorts program.now) }
    ensures same { base.new ≡ base.old }
{
    let ends = ends_of(alloc, base, &top_of(program).ty)?;
    let ports = ports_at(alloc, base, program, &ends);
    drop(ends);
    ports
}
