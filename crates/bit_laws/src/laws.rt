//! The laws of single bits. Each is a function that does nothing, and says its law of all gates,
//! or of all flat nets.
ghost use Rattle.std.specs.Prelude.{◌≡◌, ℕ, ◌^◌, ◌<◌, Bool, List, length, Some, slice_get};
ghost use Rattle.chw_base.specs.declared.index.DomId.{DomId};
ghost use Rattle.chw_base.specs.declared.index.WireId.{WireId};
ghost use Rattle.chw_clock.specs.Histories.{FitsPorts};
ghost use Rattle.chw_clock.specs.declared.event.Event.{Event};
ghost use Rattle.chw_clock.specs.declared.event.Port.{Port};
ghost use Rattle.net_rules.specs.PortsHold.{PortsHold};
ghost use Rattle.netlist.specs.Feeds.{target};
ghost use Rattle.netlist.specs.NetValue.{HasCell, NetValue};
ghost use Rattle.netlist.specs.Orders.{HasNoLoop};
ghost use Rattle.netlist.specs.Sound.{Sound};
ghost use Rattle.netlist.specs.declared.net.Cell.{Cell};
ghost use Rattle.netlist.specs.declared.net.Cell.TheVariants.{Ram, Reg};
ghost use Rattle.netlist.specs.declared.net.Flat.{Flat};
ghost use Rattle.netlist.specs.declared.net.RamIn.{RamIn};
ghost use Rattle.bit_laws.specs.Bitnet.{BitValue, HaveBits};
ghost use Rattle.bit_laws.specs.Blast.{blast, output_names};
ghost use Rattle.bit_laws.specs.CellLaws.{AllGiveBits, HasWord, IsComparison, IsLogic, IsProduct};
ghost use Rattle.bit_laws.specs.CellLaws.{IsReduction, IsShift, IsSum, IsWiring};
ghost use Rattle.bit_laws.specs.Driven.{CellDrives, DrivenOnce, KnowsNames};
ghost use Rattle.bit_laws.specs.Gates.{Gate, gate_value, matches, rows_of};
ghost use Rattle.bit_laws.specs.Keeping.{KeepsWord, KeptBefore};

/// The rows of a gate match just the bits for which it gives 1.
pub fn rows_are_the_gate()
    ensures { (gate : Gate) (bits : List Bool)
        → matches (rows_of gate) bits ≡ gate_value gate bits }
{}

/// Where all that a constant, a copy, a join or a cut reads has its bits, so has its wire.
pub fn bits_of_wiring()
    ensures { AllGiveBits IsWiring }
{}

/// The same of what works bit by bit, and of choices.
pub fn bits_of_logic()
    ensures { AllGiveBits IsLogic }
{}

/// The same of reductions.
pub fn bits_of_reductions()
    ensures { AllGiveBits IsReduction }
{}

/// The same of sums and differences.
pub fn bits_of_sums()
    ensures { AllGiveBits IsSum }
{}

/// The same of comparisons.
pub fn bits_of_comparisons()
    ensures { AllGiveBits IsComparison }
{}

/// The same of products.
pub fn bits_of_products()
    ensures { AllGiveBits IsProduct }
{}

/// The same of shifts.
pub fn bits_of_shifts()
    ensures { AllGiveBits IsShift }
{}

/// Where all wires keep their bits at all shorter histories, a register keeps its own.
pub fn bits_of_registers()
    ensures { (flat : Flat) (h : List Event) (w a : WireId) (domain : DomId) (initial : List Bool)
        → Sound flat → HasNoLoop flat → FitsPorts flat.ports h
        → HasCell flat (Reg w domain initial a) → KeptBefore flat h → KeepsWord flat h w.number }
{}

/// The same of a RAM.
pub fn bits_of_rams()
    ensures { (flat : Flat) (h : List Event) (w : WireId) (domain : DomId)
        (words : List (List Bool)) (inputs : RamIn) → Sound flat → HasNoLoop flat
        → FitsPorts flat.ports h → HasCell flat (Ram w domain words inputs) → KeptBefore flat h
        → KeepsWord flat h w.number }
{}

/// At each history of the ports of a sound flat net without a loop, the net of single bits has the
/// bits of each wire, and those of each output.
pub fn single_bits_keep_bits()
    ensures wires { (flat : Flat) (h : List Event) (w : ℕ) (bits : List Bool) → Sound flat
        → HasNoLoop flat → FitsPorts flat.ports h → NetValue flat h w bits
        → HasWord flat h w bits }
    ensures outputs { (flat : Flat) (h : List Event) (k : ℕ) (port : Port) (o : WireId)
        (bits : List Bool) → Sound flat → HasNoLoop flat → FitsPorts flat.ports h
        → slice_get flat.ports.outputs k ≡ Some port → slice_get flat.outputs k ≡ Some o
        → NetValue flat h o.number bits
        → HaveBits flat.ports (blast flat) h (output_names flat.ports port) bits }
{}

/// The nodes of a cell of a sound flat net drive the bits of its wire, and further names of the
/// wire, each in order from 0 on.
pub fn nodes_drive_in_order()
    ensures { (flat : Flat) (cell : Cell) (w : ℕ) → Sound flat → HasCell flat cell
        → target cell ≡ Some w → CellDrives flat cell w }
{}

/// No two nodes drive one name, where there are fewer than 2 to the 64.
pub fn names_are_driven_once()
    ensures { (flat : Flat) → Sound flat → PortsHold flat.ports
        → length (blast flat).nodes < 2 ^ 64 → DrivenOnce (blast flat) }
{}

/// The nodes of a sound flat net read inputs and names that nodes drive, and their clocks are
/// inputs.
pub fn names_are_known()
    ensures { (flat : Flat) → Sound flat → KnowsNames (blast flat) }
{}

/// A name has at most one bit at a history of the ports.
pub fn one_bit_value()
    ensures { (flat : Flat) (h : List Event) (name : List ℕ) (a b : Bool) → Sound flat
        → PortsHold flat.ports → length (blast flat).nodes < 2 ^ 64 → FitsPorts flat.ports h
        → BitValue flat.ports (blast flat) h name a
        → BitValue flat.ports (blast flat) h name b → a ≡ b }
{}
