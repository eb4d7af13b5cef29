//! The laws of the bits of a net of modules. Each is a function that does nothing, and says its law of all nets.
ghost use Rattle.std.specs.Prelude.{◌≡◌, ◌↔◌, ◌+◌, ◌<◌, ℕ, Bool, List, length};
ghost use Rattle.chw_clock.specs.declared.event.Event.{Event};
ghost use Rattle.net_flat.specs.Flattened.{IsFlatOf};
ghost use Rattle.net_rules.specs.WellFormed.{WellFormed};
ghost use Rattle.netlist.specs.NetValue.{NetValue};
ghost use Rattle.netlist.specs.declared.net.Flat.{Flat};
ghost use Rattle.netlist.specs.declared.net.Module.{Module};
ghost use Rattle.netlist.specs.declared.net.Net.{Net};
ghost use Rattle.use_laws.specs.ValueIn.{BeginsAt, IsModuleAt, ValueIn};

/// In a well formed net a wire of an instance has the bits that its flat wire has in the flat net.
pub fn bits_through_uses()
    ensures { (net : Net) (flat : Flat) (path : List ℕ) (m : Module) (base : ℕ) (h : List Event) (w : ℕ) (bits : List Bool) →
        WellFormed net → IsFlatOf net flat → IsModuleAt net path m → BeginsAt net path base → w < length m.widths
        → (ValueIn net path h w bits ↔ NetValue flat h (base + w) bits) }
{}
