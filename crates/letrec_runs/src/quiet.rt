//! Right sides that are quiet are settled.
ghost use Rattle.std.specs.Prelude.{◌≡◌, ◌<◌, ◌↔◌, length, IfOk, IsTrue};
ghost use Rattle.letrec_runs.specs.Rush.{IsSettledOn};

use chw_base::NoMemory;
use open_letrec::OpenLetrec;
use quiet_sides::is_quiet;

// The letrec, with the current right side settled if it is quiet; and whether it is.
fn settle_one(apart: OpenLetrec) -> Result<(OpenLetrec, bool), NoMemory>
    requires { 0 < length apart.left }
    ensures { IfOk result (λ r. IsSettledOn apart r.0) }
{
    if !is_quiet(apart.stored()) {
        return Ok((apart, false));
    }
    let apart = apart.settle()?;
    Ok((apart, true))
}

// The letrec, with the right sides settled up to the first that isn't quiet.
pub(crate) fn settle_all(apart: OpenLetrec) -> Result<OpenLetrec, NoMemory>
    ensures { IfOk result (λ r. IsSettledOn apart r) }
{
    let mut apart = apart;
    for _ in 0..apart.left() {
        if apart.left() == 0 {
            return Ok(apart);
        }
        let (next, quiet) = settle_one(apart)?;
        apart = next;
        if !quiet {
            return Ok(apart);
        }
    }
    Ok(apart)
}
