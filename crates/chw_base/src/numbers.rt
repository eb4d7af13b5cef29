//! Numbers of 32 bits.
ghost use Rattle.std.specs.Prelude.{◌≡◌, ◌≤◌, ◌^◌, IfOk, IfErr};

use crate::outcome::NoMemory;

/// The number, where it fits 32 bits. What has more parts than that fits no memory.
pub fn narrow(number: usize) -> Result<u32, NoMemory>
    ensures narrow { IfOk result (λ n. n ≡ number) }
    ensures too_great { IfErr result (λ _. 2 ^ 32 ≤ number) }
{
    u32::try_from(number).map_err(|_| NoMemory)
}
