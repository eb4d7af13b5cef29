//! The event of a line.
ghost use Rattle.std.specs.Prelude.{◌≡◌, ◌<◌, ◌++◌, length, map, replicate, IfOk, OnOk};
ghost use Rattle.std.specs.List.{AllByRecursion, filter};
ghost use Rattle.chw_base.specs.Outcome.{IfFault};
ghost use Rattle.stimulus.specs.Texts.{has, texts};
ghost use Rattle.stimulus.specs.Stimulus.{AreWide, domain_of, event_from, inputs_of};
ghost use Rattle.stimulus.specs.Words.{HasDigits};

use crate::cut::{before, behind, has};
use crate::form::Words;
use crate::names::place;
use chw_base::{DomId, NoMemory, Or, Seq, narrow};
use chw_bits::{Bits, HexFault};
use chw_clock::{Event, Port, Ports};
use std::alloc::Global;

/// The domain of this name.
fn domain_of(domain: &[u8], ports: &Ports) -> Result<DomId, NoMemory>
    ensures { IfOk result (λ id. id ≡ domain_of ports.now domain.now) }
{
    match place(ports.domains.as_slice(), before(domain, b'!')) {
        Some(number) => Ok(DomId {
            number: narrow(number)?,
        }),
        None => Ok(DomId { number: 0 }),
    }
}

/// The domains of these names.
fn ticks(alloc: Global, domains: &[&[u8]], ports: &Ports) -> Result<Vec<DomId>, NoMemory>
    ensures { IfOk result (λ ids. ids.items ≡ map (domain_of ports.now) (texts domains.now)) }
{
    let mut ids = Vec::new(alloc);
    for domain in domains {
        ids.push(domain_of(domain, ports)?)?;
    }
    Ok(ids)
}

/// Those of these names that have a `!`.
fn with_reset<'a>(alloc: Global, domains: &[&'a [u8]]) -> Result<Vec<&'a [u8]>, NoMemory>
    ensures { IfOk result (λ resets. texts resets.items ≡ filter (has 33) (texts domains.now)) }
{
    let mut resets = Vec::new(alloc);
    for domain in domains {
        if has(domain, b'!') {
            resets.push(*domain)?;
        }
    }
    Ok(resets)
}

/// The bits that the parts give these inputs.
fn inputs_of(alloc: Global, inputs: &[Port], parts: &[&[u8]]) -> Result<Vec<Bits>, Or<HexFault>>
    requires { length parts.now ≡ length inputs.now }
    ensures wide { IfOk result (λ _. AreWide inputs.now (texts parts.now)) }
    ensures bits { IfOk result (λ bits. bits.items ≡ inputs_of inputs.now (texts parts.now)) }
    ensures digits { IfOk result (λ _. AllByRecursion HasDigits (texts parts.now)) }
    ensures fault { IfFault result (λ _. AllByRecursion HasDigits (texts parts.now) → AreWide inputs.now (texts parts.now) → ⊥) }
{
    let mut bits = Vec::new(alloc);
    for (place, input) in inputs.iter().enumerate() {
        bits.push(Bits::of_hex(alloc, input.width, behind(parts[place], b'='))?)?;
    }
    Ok(bits)
}

/// The event of a line's words.
pub fn event_of(alloc: Global, words: &Words, ports: &Ports) -> Result<Event, Or<HexFault>>
    requires { length words.now.parts.items ≡ length ports.now.inputs }
    ensures wide { IfOk result (λ _. AreWide ports.now.inputs (texts words.now.parts.items)) }
    ensures event { IfOk result (λ event. event ≡ event_from ports.now (texts words.now.domains.items) (texts words.now.parts.items)) }
    ensures digits { IfOk result (λ _. AllByRecursion HasDigits (texts words.now.parts.items)) }
    ensures fault { IfFault result (λ _. AllByRecursion HasDigits (texts words.now.parts.items) → AreWide ports.now.inputs (texts words.now.parts.items) → ⊥) }
{
    let inputs = inputs_of(alloc, ports.inputs.as_slice(), &words.parts)?;
    let with_reset = with_reset(alloc, &words.domains)?;
    Ok(Event {
        ticks: Seq::from(ticks(alloc, &words.domains, ports)?),
        resets: Seq::from(ticks(alloc, &with_reset, ports)?),
        inputs: Seq::from(inputs),
    })
}

fn copied_inputs(alloc: Global, inputs: &[Bits]) -> Result<Vec<Bits>, NoMemory>
    ensures { IfOk result (λ copies. copies.items ≡ inputs.now) }
{
    let mut copies = Vec::new(alloc);
    for bits in inputs {
        copies.push(bits.copy(alloc)?)?;
    }
    Ok(copies)
}

fn copied(alloc: Global, event: &Event) -> Result<Event, NoMemory>
    ensures { IfOk result (λ copy. copy ≡ event.now) }
{
    let inputs = copied_inputs(alloc, event.inputs.as_slice())?;
    Ok(Event {
        ticks: Seq::from(Vec::from_slice(alloc, event.ticks.as_slice())?),
        resets: Seq::from(Vec::from_slice(alloc, event.resets.as_slice())?),
        inputs: Seq::from(inputs),
    })
}

/// Appends so many equal events.
pub fn put_copies(
    alloc: Global,
    event: Event,
    count: u32,
    into: &mut Vec<Event>,
) -> Result<(), NoMemory>
    requires { 0 < count }
    ensures { OnOk result (into.new.items ≡ into.old.items ++ replicate count event) }
{
    for _copy in 1..count {
        into.push(copied(alloc, &event)?)?;
    }
    into.push(event)?;
    Ok(())
}
