//! The net of a normal state.
ghost use Rattle.std.specs.Prelude.{◌≡◌, ◌<◌, [], length, IfOk};
ghost use Rattle.chw_types.specs.References.{HasNoCycle};
ghost use Rattle.normal_forms.specs.Normal.{IsNormal};
ghost use Rattle.normal_forms.specs.Uses.{IsAcyclic};
ghost use Rattle.normal_form.specs.Entries.{IsEntry};
ghost use Rattle.normal_form.specs.UseOrders.{UsesAreThere};
ghost use Rattle.netlist.specs.declared.net.Net.{Net};
ghost use Rattle.net_rules.specs.WellFormed.{WellFormed};
ghost use Rattle.net_built.specs.Built.{Built};
ghost use Rattle.net_built.specs.Modules.{AreModules, IsModuleOf, IsOrderOfModules};
ghost use Rattle.net_ready.specs.Ready.{ModuleReady};
ghost use Rattle.net_build.specs.Marks.{AreBelow};
ghost use Rattle.net_build.specs.Nets.{EachIsReady, IsGround, IsModuleAt};
ghost use Rattle.net_build.specs.Ports.{HasSomePorts};

use crate::order::order_of_modules;
use crate::outputs::outputs;
use crate::tops::ports;
use chw_base::{NoMemory, Seq};
use chw_terms::{Made, Program, Sort};
use chw_types::Data;
use chw_typing::named_laws::data_types_in_order;
use circuit_build::bodies::build_circuit;
use net_built::laws::one_net_built;
use net_there::laws::{finished_states_have_nets, states_are_ready};
use netlist::{Module, Net};
use normal_form::Normal;
use std::alloc::Global;
use value_build::bodies::build_value;
use value_build::{Base, Places, Widths};

// The module of a made definition.
fn module_of(alloc: Global, base: &mut Base<'_>, it: &Made) -> Result<Module, NoMemory>
    requires { ModuleReady base.old.datas it.now }
    ensures module { IfOk result (IsModuleOf base.old it.now) }
    ensures same { base.new ≡ base.old }
{
    match it.sort {
        Sort::Value => build_value(alloc, base, it),
        Sort::Circuit => build_circuit(alloc, base, it),
    }
}

// The module at this place of the order.
fn module_at(
    alloc: Global,
    base: &mut Base<'_>,
    made: &[Made],
    place: usize,
) -> Result<Module, NoMemory>
    requires place { place < length base.old.order }
    requires below { AreBelow (length made.now) base.old.order }
    requires ready { EachIsReady base.old.datas made.now }
    ensures module { IfOk result (IsModuleAt base.old made.now place) }
    ensures same { base.new ≡ base.old }
{
    let m = base.order()[place];
    module_of(alloc, base, &made[m as usize])
}

// The modules, in their order.
fn modules(alloc: Global, base: &mut Base<'_>, made: &[Made]) -> Result<Vec<Module>, NoMemory>
    requires below { AreBelow (length made.now) base.old.order }
    requires ready { EachIsReady base.old.datas made.now }
    ensures modules { IfOk result (λ ms. AreModules base.old made.now base.old.order ms.items) }
    ensures same { base.new ≡ base.old }
{
    let count = base.order().len();
    let mut modules = Vec::new(alloc);
    for place in 0..count {
        modules.push(module_at(alloc, base, made, place)?)?;
    }
    Ok(modules)
}

// What bodies are built over, where no made definition has a module yet.
fn unordered<'a>(alloc: Global, datas: &'a [Data]) -> Result<Base<'a>, NoMemory>
    requires { HasNoCycle datas.now }
    ensures { IfOk result (λ b. b ≡ record { datas = datas.now; order = [] }) }
{
    let places = Places::of(alloc, Vec::new(alloc), 0)?;
    Base::of(alloc, Widths::of(alloc, datas), places)
}

// The order of the modules.
fn order_of(alloc: Global, base: &mut Base<'_>, made: &[Made]) -> Result<Vec<u32>, NoMemory>
    requires ready { EachIsReady base.old.datas made.now }
    requires there { UsesAreThere made.now }
    requires acyclic { IsAcyclic made.now }
    requires first { 0 < length made.now }
    ensures order { IfOk result (λ order. IsOrderOfModules base.old.datas made.now order.items) }
    ensures below { IfOk result (λ order. AreBelow (length made.now) order.items) }
    ensures same { base.new ≡ base.old }
{
    let has = outputs(alloc, base, made)?;
    order_of_modules(alloc, made, &has)
}

// What bodies are built over.
fn base_of<'a>(alloc: Global, datas: &'a [Data], made: &[Made]) -> Result<Base<'a>, NoMemory>
    requires datas { HasNoCycle datas.now }
    requires ready { EachIsReady datas.now made.now }
    requires there { UsesAreThere made.now }
    requires acyclic { IsAcyclic made.now }
    requires first { 0 < length made.now }
    ensures { IfOk result (IsGround datas.now made.now) }
{
    let mut base = unordered(alloc, datas)?;
    let order = order_of(alloc, &mut base, made)?;
    let places = Places::of(alloc, order, made.len())?;
    Ok(base.in_order(places))
}

// The net of a program and its made definitions, by what bodies are built over.
fn net(
    alloc: Global,
    base: &mut Base<'_>,
    program: &Program,
    made: &[Made],
) -> Result<Net, NoMemory>
    requires ground { IsGround program.now.datas made.now base.old }
    requires ready { EachIsReady program.now.datas made.now }
    requires ports { HasSomePorts program.now }
    ensures { IfOk result (Built program.now made.now) }
{
    let ports = ports(alloc, base, program)?;
    let modules = modules(alloc, base, made)?;
    Ok(Net {
        ports,
        modules: Seq::from(modules),
    })
}

// The net of an entry in normal form, of which no made definition uses itself.
fn built(alloc: Global, program: &Program, made: &[Made]) -> Result<Net, NoMemory>
    requires entry { IsEntry program.now made.now }
    requires normal { IsNormal program.now made.now }
    requires acyclic { IsAcyclic made.now }
    ensures { IfOk result (Built program.now made.now) }
{
    data_types_in_order();
    states_are_ready();
    let mut base = base_of(alloc, program.datas.as_slice(), made)?;
    let net = net(alloc, &mut base, program, made);
    drop(base);
    net
}

/// The net that is built of a normal state. It is well formed.
/// There is one, whatever the answer.
///
/// Where a number would pass 32 bits, the answer is want of memory.
pub fn build(alloc: Global, normal: &Normal<'_>) -> Result<Net, NoMemory>
    ensures net { IfOk result (Built normal.now.program normal.now.made) }
    ensures well_formed { IfOk result (λ net. WellFormed net) }
    ensures there { (net : Net) × Built normal.now.program normal.now.made net × WellFormed net }
{
    finished_states_have_nets();
    one_net_built();
    built(alloc, normal.program(), normal.made())
}
