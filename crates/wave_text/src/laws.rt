//! Laws of texts of waves. Each is a function that does nothing, and says its law of all texts.
ghost use Rattle.std.specs.Prelude.{◌≡◌, ℕ, ◌+◌, ◌*◌, ◌<◌, Bool, List, length, Some, slice_get};
ghost use Rattle.std.specs.Prelude.{true, false};
ghost use Rattle.chw_clock.specs.declared.event.Event.{Event};
ghost use Rattle.chw_clock.specs.declared.event.Ports.{Ports};
ghost use Rattle.waves.specs.Vcd.{Vcd, values_at, variables};
ghost use Rattle.wave_text.specs.Faults.{IsVcdFault};
ghost use Rattle.wave_text.specs.Printable.{ArePrintable};
ghost use Rattle.wave_text.specs.PrintedWave.{vcd_wave};
ghost use Rattle.wave_text.specs.Values.{at_time};
ghost use Rattle.wave_text.specs.VcdText.{VcdText};
ghost use Rattle.wave_text.specs.declared.fault.VcdFault.{VcdFault};
ghost use Rattle.wave_text.specs.declared.wave.Wave.{Wave};

use waves::laws::{codes_are_distinct, values_have_their_widths};

/// A text is that of at most one wave.
pub fn one_wave()
    ensures { (text : List ℕ) (a b : Wave) → VcdText text a → VcdText text b → a ≡ b }
{}

/// A text of a wave has no fault.
pub fn no_text_is_both()
    ensures { (text : List ℕ) (wave : Wave) (fault : VcdFault) → VcdText text wave
        → IsVcdFault text fault → ⊥ }
{}

/// The printed text of events is that of the printed wave.
pub fn printed_waves_are_read()
    ensures { (ports : Ports) (events : List Event) (outputs : List (List (List Bool)))
        → ArePrintable ports events outputs
        → VcdText (Vcd ports events outputs) (vcd_wave ports events outputs) }
{
    codes_are_distinct();
    values_have_their_widths();
}

/// At the first time of an event the printed wave has the values just before its edges, with all
/// clocks down, and at the second those with the clocks up that tick.
pub fn waves_have_the_values()
    ensures before { (ports : Ports) (events : List Event) (outputs : List (List (List Bool)))
        (k var : ℕ) (event : Event) (shown : List (List Bool))
        → ArePrintable ports events outputs → slice_get events k ≡ Some event
        → slice_get outputs k ≡ Some shown → var < length (variables ports)
        → at_time (vcd_wave ports events outputs) var (2 * k)
        ≡ slice_get (values_at ports false event shown) var }
    ensures edges { (ports : Ports) (events : List Event) (outputs : List (List (List Bool)))
        (k var : ℕ) (event : Event) (shown : List (List Bool))
        → ArePrintable ports events outputs → slice_get events k ≡ Some event
        → slice_get outputs k ≡ Some shown → var < length (variables ports)
        → at_time (vcd_wave ports events outputs) var (2 * k + 1)
        ≡ slice_get (values_at ports true event shown) var }
{
    values_have_their_widths();
}
