//! Whether each name is declared once in a module.
ghost use Rattle.std.specs.Prelude.{◌≡◌, ◌∷◌, [], OnOk};
ghost use Rattle.verilog_names.specs.Declares.{Declares, memory_words};
ghost use Rattle.verilog_checks.specs.Least.{least_after};
ghost use Rattle.verilog_rules.specs.Declarations.{declared_words, port_word, words_by};
ghost use Rattle.verilog_rules.specs.NameRules.{once_checks};
ghost use Rattle.std.specs.Prelude.{map};
ghost use Rattle.std.specs.List.{flat_map};

use crate::places::Places;
use crate::ports::port_word;
use chw_base::NoMemory;
use std::alloc::Global;
use verilog_checks::Least;
use verilog_tree::{Item, Memory, Module, Port, Word};

// Declares a name, which is none of those before it.
fn declare<'t>(known: &mut Places<'t>, least: &mut Least, word: &Word<'t>) -> Result<(), NoMemory>
    ensures { OnOk result (Declares known.old known.new least.old least.new (word.now ∷ [])) }
{
    least.check(word.at, !known.has(word.bytes));
    known.add(word.bytes)
}

// Declares the name of a port.
fn declare_port<'t>(
    known: &mut Places<'t>,
    least: &mut Least,
    port: &Port<'t>,
) -> Result<(), NoMemory>
    ensures { OnOk result (Declares known.old known.new least.old least.new (port_word port.now ∷ [])) }
{
    declare(known, least, &port_word(port))
}

// Declares the names of ports in their order.
fn declare_ports<'t>(
    known: &mut Places<'t>,
    least: &mut Least,
    ports: &[Port<'t>],
) -> Result<(), NoMemory>
    ensures { OnOk result (Declares known.old known.new least.old least.new (map port_word ports.now)) }
{
    for port in ports {
        declare_port(known, least, port)?;
    }
    Ok(())
}

// Declares the names of a register and of its memory.
#[tactic(auto, using(crate::proofs::OnceNames::declares_then))]
fn declare_register<'t>(
    known: &mut Places<'t>,
    least: &mut Least,
    name: &Word<'t>,
    memory: &Option<Memory<'t>>,
) -> Result<(), NoMemory>
    ensures { OnOk result (Declares known.old known.new least.old least.new (name.now ∷ memory_words memory.now)) }
{
    declare(known, least, name)?;
    let Some(memory) = memory else {
        return Ok(());
    };
    declare(known, least, &memory.name)?;
    Ok(())
}

// Declares the names that an item declares.
#[tactic(auto, using(crate::proofs::OnceNames::declares_none))]
fn declare_item<'t>(
    known: &mut Places<'t>,
    least: &mut Least,
    item: &Item<'t>,
) -> Result<(), NoMemory>
    ensures { OnOk result (Declares known.old known.new least.old least.new (words_by item.now)) }
{
    match item {
        Item::Wire(line) => declare(known, least, &line.name),
        Item::Register(line, _, memory) => declare_register(known, least, &line.name, memory),
        Item::Use(u) => declare(known, least, &u.name),
        _ => Ok(()),
    }
}

// Declares the names that items declare, in their order.
fn declare_items<'t>(
    known: &mut Places<'t>,
    least: &mut Least,
    items: &[Item<'t>],
) -> Result<(), NoMemory>
    ensures { OnOk result (Declares known.old known.new least.old least.new (flat_map words_by items.now)) }
{
    for item in items {
        declare_item(known, least, item)?;
    }
    Ok(())
}

// Declares the names of a module in the order of the text.
#[tactic(auto, using(crate::proofs::OnceNames::declares_then))]
fn declare_all<'t>(
    known: &mut Places<'t>,
    least: &mut Least,
    m: &Module<'t>,
) -> Result<(), NoMemory>
    ensures { OnOk result (Declares known.old known.new least.old least.new (declared_words m.now)) }
{
    declare_port(known, least, &m.first)?;
    declare_ports(known, least, m.others.as_slice())?;
    declare_items(known, least, m.items.as_slice())?;
    Ok(())
}

/// Whether each name of a module is declared once.
pub(crate) fn check_once(alloc: Global, least: &mut Least, m: &Module<'_>) -> Result<(), NoMemory>
    ensures { OnOk result (least.new ≡ least_after least.old (once_checks [] (declared_words m.now))) }
{
    let mut known = Places::new(alloc);
    let outcome = declare_all(&mut known, least, m);
    drop(known);
    outcome
}
