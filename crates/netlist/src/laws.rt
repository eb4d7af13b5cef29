//! The laws of flat nets, their orders and their loops. Each is a function that does nothing, and says its law of all of them.
ghost use Rattle.std.specs.Prelude.{◌≡◌, ◌<◌, ℕ, Bool, List, length, Some, slice_get};
ghost use Rattle.chw_base.specs.declared.index.WireId.{WireId};
ghost use Rattle.chw_clock.specs.Histories.{FitsPorts};
ghost use Rattle.chw_clock.specs.declared.event.Event.{Event};
ghost use Rattle.netlist.specs.NetValue.{HasValue, NetValue};
ghost use Rattle.netlist.specs.Orders.{HasNoLoop, IsLoop, IsOrder};
ghost use Rattle.netlist.specs.Sound.{Sound};
ghost use Rattle.netlist.specs.declared.net.Flat.{Flat};

/// Where a flat net has an order, it has no loop.
pub fn an_order_excludes_loops()
    ensures { (flat : Flat) (places : List ℕ) (cycle : List WireId) →
        Sound flat → IsOrder flat places → IsLoop flat cycle → ⊥ }
{}

/// Where a sound flat net has no loop, it has an order.
pub fn without_loops_there_is_an_order()
    ensures { (flat : Flat) → Sound flat → HasNoLoop flat → (places : List ℕ) × IsOrder flat places }
{}

/// In a sound flat net without a loop, each wire has a value of its width at each history of the net's ports.
pub fn every_wire_has_a_value()
    ensures { (flat : Flat) (h : List Event) (w : ℕ) → Sound flat → HasNoLoop flat → FitsPorts flat.ports h → w < length flat.widths
        → HasValue flat h w }
{}

/// A value of a wire of a sound flat net has the wire's width, at each history of the net's ports.
pub fn a_value_has_its_width()
    ensures { (flat : Flat) (h : List Event) (w : ℕ) (bits : List Bool) → Sound flat → FitsPorts flat.ports h → NetValue flat h w bits
        → slice_get flat.widths w ≡ Some (length bits) }
{}

/// A wire of a sound flat net has at most one value at a history.
pub fn a_wire_has_one_value()
    ensures { (flat : Flat) (h : List Event) (w : ℕ) (a b : List Bool) → Sound flat → NetValue flat h w a → NetValue flat h w b → a ≡ b }
{}
