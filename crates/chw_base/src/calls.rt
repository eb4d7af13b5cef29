//! The numbers of the calls that are to fail.
ghost use Rattle.std.specs.Prelude.{◌≡◌};
ghost use Rattle.chw_base.specs.Calls.{fails};

// Whether the call of this number is listed. A number past the last u32 never is.
pub(crate) fn is_listed(listed: &[u32], number: u64) -> bool
    ensures { result ≡ fails listed.now number }
{
    listed.iter().any(|n| u64::from(*n) == number)
}
