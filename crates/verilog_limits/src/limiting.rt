//! Whether the numbers of a text are within their limits.
ghost use Rattle.std.specs.Prelude.{◌≡◌, map};
ghost use Rattle.std.specs.List.{flat_map};
ghost use Rattle.verilog_checks.specs.Least.{least_after};
ghost use Rattle.verilog_rules.specs.Checks.{least_broken};
ghost use Rattle.verilog_rules.specs.Limits.{item_limits, limit_checks, limits_from, literal_limit, memory_limits, module_limits, port_limits, ram_limits, range_limit, reset_limits, right_limits, word_limit};
ghost use Rattle.std.specs.Prelude.{[], ◌∷◌};

use chw_base::limits::{MODULES, RAM_WORDS, WIRE_BITS};
use verilog_checks::Least;
use verilog_checks::numbers::{has_size_below, is_below};
use verilog_tree::{FirstWord, Item, Memory, Module, Port, Ram, Range, Reset, Right, Tree, Word};

fn limit_range(least: &mut Least, range: &Range<'_>)
    ensures { least.new ≡ least_after least.old (range_limit range.now ∷ []) }
{
    least.check(range.from.at, is_below(range.from.bytes, WIRE_BITS));
}

fn limit_literal(least: &mut Least, literal: &Word<'_>)
    ensures { least.new ≡ least_after least.old (literal_limit literal.now ∷ []) }
{
    least.check(literal.at, has_size_below(literal, WIRE_BITS + 1));
}

fn limit_port(least: &mut Least, port: &Port<'_>)
    ensures { least.new ≡ least_after least.old (port_limits port.now) }
{
    match port {
        Port::Signal(_) => {}
        Port::Input(line) => limit_range(least, &line.range),
        Port::Output(line) => limit_range(least, &line.range),
    }
}

#[tactic(auto, using(verilog_checks::proofs::Steps::least_after_both))]
fn limit_memory(least: &mut Least, memory: &Option<Memory<'_>>)
    ensures { least.new ≡ least_after least.old (memory_limits memory.now) }
{
    if let Some(memory) = memory {
        limit_range(least, &memory.width);
        let to = &memory.places.to;
        least.check(to.at, is_below(to.bytes, RAM_WORDS));
    }
}

fn limit_right(least: &mut Least, right: &Right<'_>)
    ensures { least.new ≡ least_after least.old (right_limits right.now) }
{
    if let Right::Constant(literal) = right {
        limit_literal(least, literal);
    }
}

fn limit_reset(least: &mut Least, reset: &Option<Reset<'_>>)
    ensures { least.new ≡ least_after least.old (reset_limits reset.now) }
{
    if let Some(reset) = reset {
        limit_literal(least, &reset.literal);
    }
}

fn limit_words(least: &mut Least, words: &[FirstWord<'_>])
    ensures { least.new ≡ least_after least.old (map word_limit words.now) }
{
    for word in words {
        limit_literal(least, &word.literal);
    }
}

#[tactic(auto, using(verilog_checks::proofs::Steps::least_after_both))]
fn limit_ram(least: &mut Least, ram: &Ram<'_>)
    ensures { least.new ≡ least_after least.old (ram_limits ram.now) }
{
    limit_literal(least, &ram.first.literal);
    limit_words(least, ram.others.as_slice());
    limit_literal(least, &ram.write.count);
    limit_literal(least, &ram.read.count);
    limit_literal(least, &ram.zeros);
}

#[tactic(auto, using(verilog_checks::proofs::Steps::least_after_both))]
fn limit_register(
    least: &mut Least,
    range: &Range<'_>,
    literal: &Word<'_>,
    memory: &Option<Memory<'_>>,
)
    ensures { least.new ≡ least_after least.old (range_limit range.now ∷ literal_limit literal.now ∷ memory_limits memory.now) }
{
    limit_range(least, range);
    limit_literal(least, literal);
    limit_memory(least, memory);
}

fn limit_item(least: &mut Least, item: &Item<'_>)
    ensures { least.new ≡ least_after least.old (item_limits item.now) }
{
    match item {
        Item::Wire(line) => limit_range(least, &line.range),
        Item::Register(line, literal, memory) => limit_register(
            least,
            &line.range,
            literal,
            memory,
        ),
        Item::Assign(_, right) => limit_right(least, right),
        Item::Edge(edge) => limit_reset(least, &edge.reset),
        Item::Ram(ram) => limit_ram(least, ram),
        Item::Use(_) => {}
    }
}

fn limit_ports(least: &mut Least, ports: &[Port<'_>])
    ensures { least.new ≡ least_after least.old (flat_map port_limits ports.now) }
{
    for port in ports {
        limit_port(least, port);
    }
}

fn limit_items(least: &mut Least, items: &[Item<'_>])
    ensures { least.new ≡ least_after least.old (flat_map item_limits items.now) }
{
    for item in items {
        limit_item(least, item);
    }
}

// The limits on the module of this number.
#[tactic(auto, using(verilog_checks::proofs::Steps::least_after_both))]
fn limit_module(least: &mut Least, k: usize, m: &Module<'_>)
    ensures { least.new ≡ least_after least.old (module_limits k m.now) }
{
    least.check(m.name.at, k < MODULES as usize);
    limit_port(least, &m.first);
    limit_ports(least, m.others.as_slice());
    limit_items(least, m.items.as_slice());
}

// The limits on modules, the first of which is that of number 0.
fn limit_modules(least: &mut Least, modules: &[Module<'_>])
    ensures { least.new ≡ least_after least.old (limits_from 0 modules.now) }
{
    for (k, m) in modules.iter().enumerate() {
        limit_module(least, k, m);
    }
}

/// The least place at which a text passes a limit.
#[tactic(auto, using(verilog_checks::proofs::Steps::least_after_both))]
pub fn limits(tree: &Tree<'_>) -> Option<usize>
    ensures { result ≡ least_broken (limit_checks tree.now) }
{
    let mut least = Least::new();
    let earlier = tree.earlier.as_slice();
    limit_modules(&mut least, earlier);
    limit_module(&mut least, earlier.len(), &tree.last);
    least.place()
}
