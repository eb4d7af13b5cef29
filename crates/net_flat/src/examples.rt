//! A flat net, worked out.
ghost use Rattle.chw_clock.specs.declared.event.Ports.{Ports};
ghost use Rattle.net_flat.specs.Examples.{two_flattened, two_modules};
ghost use Rattle.net_flat.specs.Flattened.{IsFlatOf};

/// A net of a module that uses one with a register has a flat net of four wires.
pub fn of_a_use()
    ensures { (ports : Ports) → IsFlatOf (two_modules ports) (two_flattened ports) }
{}
