//! The laws of shared wires. Each is a function that does nothing, and says its law of all flat
//! nets.
ghost use Rattle.std.specs.Prelude.{◌≡◌, ◌↔◌, ◌≤◌, ℕ, Bool, List, length, Some, slice_get};
ghost use Rattle.chw_base.specs.declared.index.WireId.{WireId};
ghost use Rattle.chw_clock.specs.Histories.{FitsPorts};
ghost use Rattle.chw_clock.specs.declared.event.Event.{Event};
ghost use Rattle.net_flat.specs.Flattened.{IsFlatOf};
ghost use Rattle.net_rules.specs.PortsHold.{PortsHold};
ghost use Rattle.net_rules.specs.WellFormed.{WellFormed};
ghost use Rattle.netlist.specs.NetValue.{HasCell, NetValue};
ghost use Rattle.netlist.specs.Orders.{HasNoLoop};
ghost use Rattle.netlist.specs.Sound.{Sound};
ghost use Rattle.netlist.specs.declared.net.Cell.TheVariants.{Const};
ghost use Rattle.netlist.specs.declared.net.Flat.{Flat};
ghost use Rattle.share_laws.specs.Left.{NothingToShare};
ghost use Rattle.share_laws.specs.Same.{IsKnown, Same};
ghost use Rattle.share_laws.specs.Shares.{Becomes, Shares, as_net};

/// In a sound flat net equal wires have one width, and known bits have the width of their wire.
pub fn same_wires_are_as_wide()
    ensures same { (flat : Flat) (v w : ℕ) → Sound flat → Same flat v w
        → slice_get flat.widths v ≡ slice_get flat.widths w }
    ensures known { (flat : Flat) (w : ℕ) (bits : List Bool) → Sound flat → IsKnown flat w bits
        → slice_get flat.widths w ≡ Some (length bits) }
{}

/// In a sound flat net without a loop equal wires have the same bits at each history of the net's
/// ports, and a wire of which bits are known has these.
pub fn same_wires_have_one_value()
    ensures same { (flat : Flat) (h : List Event) (v w : ℕ) (a b : List Bool) → Sound flat
        → HasNoLoop flat → FitsPorts flat.ports h → Same flat v w
        → NetValue flat h v a → NetValue flat h w b → a ≡ b }
    ensures known { (flat : Flat) (h : List Event) (w : ℕ) (bits : List Bool) → Sound flat
        → HasNoLoop flat → FitsPorts flat.ports h → IsKnown flat w bits → NetValue flat h w bits }
{}

/// A sound flat net without a loop, whose ports hold, has at most one shared net.
pub fn one_shared_net()
    ensures { (flat a b : Flat) → Sound flat → HasNoLoop flat → PortsHold flat.ports
        → Shares flat a → Shares flat b → a ≡ b }
{}

/// It isn't false that a sound flat net without a loop has a shared net.
pub fn some_shared_net()
    ensures { (flat : Flat) → Sound flat → HasNoLoop flat
        → ((shared : Flat) → Shares flat shared → ⊥) → ⊥ }
{}

/// The shared net of a sound flat net is sound. A sound flat net whose ports hold is, as one
/// module, a well formed net, of which it is the flat net.
pub fn sharing_keeps_soundness()
    ensures sound { (flat shared : Flat) → Sound flat → Shares flat shared → Sound shared }
    ensures well_formed { (flat : Flat) → Sound flat → PortsHold flat.ports
        → WellFormed (as_net flat) }
    ensures flat { (flat : Flat) → Sound flat → IsFlatOf (as_net flat) flat }
{}

/// Where a sound flat net whose ports hold has no loop, its shared net has none.
pub fn sharing_makes_no_loop()
    ensures { (flat shared : Flat) → Sound flat → HasNoLoop flat → PortsHold flat.ports
        → Shares flat shared → HasNoLoop shared }
{}

/// At each history of the ports a wire has the bits that the wire has which it becomes, and so has
/// each output.
pub fn sharing_keeps_bits()
    ensures wires { (flat shared : Flat) (s : Shares flat shared) (h : List Event) (w n : ℕ)
        (bits : List Bool) → Sound flat → HasNoLoop flat → FitsPorts flat.ports h
        → Becomes flat s.kept w n
        → (NetValue flat h w bits ↔ NetValue shared h n bits) }
    ensures outputs { (flat shared : Flat) (h : List Event) (k : ℕ) (o p : WireId)
        (bits : List Bool) → Sound flat → HasNoLoop flat → FitsPorts flat.ports h
        → Shares flat shared → slice_get flat.outputs k ≡ Some o
        → slice_get shared.outputs k ≡ Some p
        → (NetValue flat h o.number bits ↔ NetValue shared h p.number bits) }
{}

/// The shared net of a sound flat net has no more cells than this.
pub fn no_more_cells()
    ensures { (flat shared : Flat) → Sound flat → Shares flat shared
        → length shared.cells ≤ length flat.cells }
{}

/// Of a shared net nothing is left to share. So none of its wires are equal, and each wire of
/// which bits are known is driven by the constant of these bits.
pub fn nothing_is_left_to_share()
    ensures cells { (flat shared : Flat) → Sound flat → HasNoLoop flat → PortsHold flat.ports
        → Shares flat shared → NothingToShare shared }
    ensures wires { (flat shared : Flat) (v w : ℕ) → Sound flat → HasNoLoop flat
        → PortsHold flat.ports → Shares flat shared → Same shared v w → v ≡ w }
    ensures known { (flat shared : Flat) (w : ℕ) (bits : List Bool) → Sound flat → HasNoLoop flat
        → PortsHold flat.ports → Shares flat shared → IsKnown shared w bits
        → HasCell shared (Const (record { number = w }) bits) }
{}

/// A sound flat net of which nothing is left to share is its own shared net, so a shared net is
/// its own, and has no other.
pub fn shared_shares_itself()
    ensures nothing { (flat : Flat) → Sound flat → NothingToShare flat → Shares flat flat }
    ensures itself { (flat shared : Flat) → Sound flat → HasNoLoop flat → PortsHold flat.ports
        → Shares flat shared → Shares shared shared }
    ensures no_other { (flat shared other : Flat) → Sound flat → HasNoLoop flat
        → PortsHold flat.ports → Shares flat shared → Shares shared other → other ≡ shared }
{}
