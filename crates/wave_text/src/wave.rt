//! Waves as data.
ghost use Rattle.std.specs.Prelude.{◌≡◌, None, option_map};
ghost use Rattle.wave_text.specs.Values.{at_time, latest};

use chw_base::Seq;
use chw_bits::Bits;
use waves::WaveVar;

/// A new value of the variable of a number.
#[derive(Debug, Drop)]
pub struct Change {
    pub var: u32,
    pub value: Bits,
}

/// A time with its changes, of which the later counts where two are of one variable.
#[derive(Debug, Drop)]
pub struct WaveStep {
    pub time: u64,
    pub changes: Seq<Change>,
}

/// The variables of a wave, and its times, which rise.
#[derive(Debug, Drop)]
pub struct Wave {
    pub vars: Seq<WaveVar>,
    pub steps: Seq<WaveStep>,
}

/// The value of the last of the changes of a variable.
fn latest(changes: &[Change], var: u32) -> Option<&Bits>
    ensures { option_map (λ bits. bits.now) result ≡ latest var None changes.now }
{
    for k in (0..changes.len()).rev() {
        if changes[k].var == var {
            return Some(&changes[k].value);
        }
    }
    None
}

impl Wave {
    /// The value of a variable at a time: that of its last change at or before it.
    ///
    /// It takes no memory.
    pub fn at(&self, var: u32, time: u64) -> Option<&Bits>
        ensures { option_map (λ bits. bits.now) result ≡ at_time self.now var time }
    {
        let steps = self.steps.as_slice();
        for k in (0..steps.len()).rev() {
            if steps[k].time <= time {
                if let Some(bits) = latest(steps[k].changes.as_slice(), var) {
                    return Some(bits);
                }
            }
        }
        None
    }
}
