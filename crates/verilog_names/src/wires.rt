//! The wires of a module, found by their names.
ghost use Rattle.std.specs.Prelude.{◌≡◌, ◌∷◌, ◌++◌, [], IfOk, OnOk, map};
ghost use Rattle.name_tables.specs.Names.{place_of};
ghost use Rattle.verilog_names.specs.Found.{Finds, kind_at, memory_with};
ghost use Rattle.verilog_rules.specs.Checks.{broken_at, lesser};
ghost use Rattle.verilog_rules.specs.Declarations.{wire_name};
ghost use Rattle.verilog_rules.specs.NameRules.{is_memory, kind_of, may_be_driven, operand_check};
ghost use Rattle.verilog_rules.specs.Resolving.{operand};

use crate::places::Places;
use chw_base::{NoMemory, Seq, WireId};
use std::alloc::Global;
use std::marker::Model;
use verilog_checks::Least;
use verilog_rules::{Kind, Operand, Wire};
use verilog_tree::Word;

/// The wires that are declared so far, which contracts see as a list.
#[derive(Drop)]
pub(crate) struct Wires<'t> {
    wires: Vec<Wire<'t>>,
    names: Places<'t>,
    /// The names of the memories that are declared with registers.
    memories: Places<'t>,
}

impl<'t> Model for Wires<'t> {
    ghost use Rattle.std.specs.Prelude.{List};
    ghost use Rattle.verilog_rules.specs.declared.resolved.Wire.{Wire};

    ghost Value = { List Wire };

    ghost use Rattle.verilog_names.specs.Found.{AreTables};

    ghost view = { λ w. w.wires.items };

    ghost invariant = { λ w. AreTables w.wires.items w.names w.memories };
}

/// What a name is found to be: a wire, where it has a kind.
#[derive(Clone, Copy)]
pub(crate) struct Found<'t> {
    pub(crate) operand: Operand,
    pub(crate) kind: Option<Kind<'t>>,
}

// The kind of the wire of this number.
fn kind_at<'t>(wires: &[Wire<'t>], number: Option<u32>) -> Option<Kind<'t>>
    ensures { result ≡ kind_at wires.now number }
{
    let wire = wires.get(number? as usize)?;
    Some(wire.kind)
}

// Adds the memory that is declared with a wire.
fn add_memory<'t>(memories: &mut Places<'t>, kind: &Kind<'t>) -> Result<(), NoMemory>
    ensures { OnOk result (memories.new ≡ memories.old ++ memory_with kind.now) }
{
    match kind {
        Kind::Register(_, Some(memory)) => memories.add(memory.name.bytes),
        _ => Ok(()),
    }
}

// Adds a wire to the wires and to their tables.
fn add_wire<'t>(
    wires: &mut Vec<Wire<'t>>,
    names: &mut Places<'t>,
    memories: &mut Places<'t>,
    wire: Wire<'t>,
) -> Result<(), NoMemory>
    ensures wires { OnOk result (wires.new.items ≡ wires.old.items ++ wire.entry ∷ []) }
    ensures names { OnOk result (names.new ≡ names.old ++ wire_name wire.entry ∷ []) }
    ensures memories { OnOk result (memories.new ≡ memories.old ++ memory_with wire.entry.kind) }
{
    names.add(wire.line.name.bytes)?;
    add_memory(memories, &wire.kind)?;
    wires.push(wire)?;
    Ok(())
}

impl<'t> Wires<'t> {
    /// No wires.
    pub(crate) fn new(alloc: Global) -> Wires<'t>
        ensures { result ≡ [] }
    {
        Wires {
            wires: Vec::new(alloc),
            names: Places::new(alloc),
            memories: Places::new(alloc),
        }
    }

    /// A wire more, which stands last. Where there is no memory, no wire is left.
    pub(crate) fn add(&mut self, wire: Wire<'t>) -> Result<(), NoMemory>
        ensures { OnOk result (self.new ≡ self.old ++ wire.entry ∷ []) }
    {
        let outcome = add_wire(&mut self.wires, &mut self.names, &mut self.memories, wire);
        if outcome.is_err() {
            self.wires.clear();
            self.names.clear();
            self.memories.clear();
        }
        outcome
    }

    /// The wire of a name, and its kind.
    pub(crate) fn find(&self, name: &Word<'t>) -> Found<'t>
        ensures { Finds self.now name.now result }
    {
        let number = self.names.find(name.bytes);
        Found {
            operand: Operand {
                wire: WireId {
                    number: number.unwrap_or(0),
                },
                at: name.at,
            },
            kind: kind_at(&self.wires, number),
        }
    }

    /// The wire of a name that is read.
    pub(crate) fn read(&self, least: &mut Least, name: &Word<'t>) -> Operand
        ensures operand { result ≡ operand self.now name.now }
        ensures check { least.new ≡ lesser least.old (broken_at (operand_check self.now name.now)) }
    {
        let found = self.find(name);
        least.check(name.at, found.kind.is_some());
        found.operand
    }

    /// Whether a memory of this name is declared with one of the wires.
    pub(crate) fn has_memory(&self, name: &[u8]) -> bool
        ensures { result ≡ is_memory self.now name.now }
    {
        self.memories.has(name)
    }

    /// The wires.
    pub(crate) fn into_wires(self) -> Seq<Wire<'t>>
        ensures { result ≡ self.entry }
    {
        Seq::from(self.wires)
    }
}

/// Whether an assignment or a use may name a wire of this kind.
pub(crate) fn may_be_driven(kind: &Option<Kind<'_>>) -> bool
    ensures { result ≡ may_be_driven kind.now }
{
    matches!(kind, Some(Kind::Plain) | Some(Kind::Input))
}
