//! The bits of the outputs.
ghost use Rattle.std.specs.Prelude.{◌≡◌, length, map};
ghost use Rattle.net_sim.specs.Tables.{values_in};
ghost use Rattle.netlist.specs.Sound.{Sound};

use crate::word::Word;
use crate::words::word_at;
use chw_bits::Bits;
use netlist::Flat;

/// Puts the bits of the outputs' wires into the outputs.
pub(crate) fn put_outputs(flat: &Flat, words: &[Word], outputs: &mut [Bits])
    requires sound { Sound flat.now }
    requires table { map length words.now ≡ flat.now.widths }
    requires widths { map length outputs.old ≡ map (λ port. port.width) flat.now.ports.outputs }
    ensures { outputs.new ≡ values_in words.now flat.now.outputs }
{
    for (k, w) in flat.outputs.as_slice().iter().enumerate() {
        word_at(words, *w).put_into(&mut outputs[k]);
    }
}
