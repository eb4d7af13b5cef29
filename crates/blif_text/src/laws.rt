//! Laws of texts of nets of single bits. Each is a function that does nothing, and says its law of
//! all texts, nets of single bits or flat nets.
ghost use Rattle.std.specs.Prelude.{◌≡◌, ℕ, ◌^◌, ◌<◌, List, length};
ghost use Rattle.bit_laws.specs.Bitnet.{Bitnet};
ghost use Rattle.bit_laws.specs.Blast.{blast};
ghost use Rattle.net_rules.specs.PortsHold.{PortsHold};
ghost use Rattle.netlist.specs.Sound.{Sound};
ghost use Rattle.netlist.specs.declared.net.Flat.{Flat};
ghost use Rattle.blif_text.specs.BlifText.{BlifText};
ghost use Rattle.blif_text.specs.Faults.{IsBlifFault};
ghost use Rattle.blif_text.specs.Printed.{blif_text};
ghost use Rattle.blif_text.specs.Right.{IsRight};
ghost use Rattle.blif_text.specs.declared.fault.BlifFault.{BlifFault};

use bit_laws::laws::{names_are_driven_once, names_are_known, nodes_drive_in_order};

/// A text is that of at most one net of single bits.
pub fn one_bitnet()
    ensures { (text : List ℕ) (a b : Bitnet) → BlifText text a → BlifText text b → a ≡ b }
{}

/// A text of a net of single bits has no fault.
pub fn no_text_is_both()
    ensures { (text : List ℕ) (b : Bitnet) (fault : BlifFault) → BlifText text b
        → IsBlifFault text fault → ⊥ }
{}

/// The printed text of a net of single bits that breaks no rule is that of this net.
pub fn printed_bits_are_read()
    ensures { (b : Bitnet) → IsRight b → BlifText (blif_text b) b }
{}

/// The net of single bits that a sound flat net becomes breaks no rule, where it has fewer than
/// 2 to the 64 nodes.
pub fn blasted_bits_are_right()
    ensures { (flat : Flat) → Sound flat → PortsHold flat.ports
        → length (blast flat).nodes < 2 ^ 64 → IsRight (blast flat) }
{
    names_are_driven_once();
    names_are_known();
    nodes_drive_in_order();
}
