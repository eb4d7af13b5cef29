//! Waves as data.

use chw_base::Name;

/// A variable: its name, and its width in bits.
#[derive(Debug, Drop)]
pub struct WaveVar {
    pub name: Name,
    pub width: u32,
}
