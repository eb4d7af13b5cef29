//! The names of a line, looked for among those of the ports.
ghost use Rattle.std.specs.Prelude.{◌≡◌, ◌↔◌, length, IsTrue};
ghost use Rattle.std.specs.List.{AllByRecursion};
ghost use Rattle.name_tables.specs.Names.{place_of};
ghost use Rattle.stimulus.specs.Texts.{before, texts};
ghost use Rattle.stimulus.specs.Stimulus.{AreNamed, HaveNames, IsKnown};

use crate::cut::{before, has};
use crate::form::Words;
use chw_base::Name;
use chw_clock::{Port, Ports};

/// The place of a name. There are few domains, and a line names each once.
pub fn place(names: &[Name], name: &[u8]) -> Option<usize>
    ensures { result ≡ place_of names.now name.now }
{
    for (place, other) in names.iter().enumerate() {
        if name == other.as_slice() {
            return Some(place);
        }
    }
    None
}

/// Whether it is a domain of the ports, with `!` only where it has a reset.
fn is_known(domain: &[u8], ports: &Ports) -> bool
    ensures { IsTrue result ↔ IsKnown ports.now domain.now }
{
    match place(ports.domains.as_slice(), before(domain, b'!')) {
        Some(number) => !has(domain, b'!') || ports.has_reset(number),
        None => false,
    }
}

fn are_known(domains: &[&[u8]], ports: &Ports) -> bool
    ensures { IsTrue result ↔ AllByRecursion (IsKnown ports.now) (texts domains.now) }
{
    for domain in domains {
        if !is_known(domain, ports) {
            return false;
        }
    }
    true
}

/// Whether the part names this input.
fn is_named(part: &[u8], input: &Port) -> bool
    ensures { IsTrue result ↔ before 61 part.now ≡ input.now.name }
{
    before(part, b'=') == input.name.as_slice()
}

/// Whether the parts name these inputs, in order.
fn are_named(inputs: &[Port], parts: &[&[u8]]) -> bool
    requires { length parts.now ≡ length inputs.now }
    ensures { IsTrue result ↔ AreNamed inputs.now (texts parts.now) }
{
    for (place, input) in inputs.iter().enumerate() {
        if !is_named(parts[place], input) {
            return false;
        }
    }
    true
}

/// Whether the words name domains and inputs of the ports.
pub fn have_names(words: &Words, ports: &Ports) -> bool
    requires { length words.now.parts.items ≡ length ports.now.inputs }
    ensures { IsTrue result ↔ HaveNames ports.now (texts words.now.domains.items) (texts words.now.parts.items) }
{
    are_known(&words.domains, ports) && are_named(ports.inputs.as_slice(), &words.parts)
}
