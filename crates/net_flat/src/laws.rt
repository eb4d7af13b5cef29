//! The laws of flat nets. Each is a function that does nothing, and says its law of all of them.
ghost use Rattle.std.specs.Prelude.{◌≡◌};
ghost use Rattle.netlist.specs.declared.net.Flat.{Flat};
ghost use Rattle.netlist.specs.declared.net.Net.{Net};
ghost use Rattle.net_flat.specs.Flattened.{IsFlatOf};

/// A net has at most one flat net.
pub fn one_flat_net()
    ensures { (net : Net) (a b : Flat) → IsFlatOf net a → IsFlatOf net b → a ≡ b }
{}
