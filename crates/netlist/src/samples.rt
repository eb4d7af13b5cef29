//! Parts of small nets, for tests and for programs that are timed.
ghost use Rattle.std.specs.Prelude.{◌≡◌, length, map, [], ◌∷◌, IfOk};

use chw_base::{DomId, NoMemory, Seq};
use chw_clock::{Port, Ports};
use std::alloc::Global;

/// The ports of nets with one domain, an input of 8 bits, and no output.
pub fn one_input(alloc: Global) -> Result<Ports, NoMemory>
    ensures domains { IfOk result (λ p. length p.domains ≡ 1) }
    ensures inputs { IfOk result (λ p. map (λ port. port.width) p.inputs ≡ 8 ∷ []) }
    ensures outputs { IfOk result (λ p. p.outputs ≡ []) }
{
    let domain = Seq::from(Vec::from_slice(alloc, b"Sys")?);
    let name = Seq::from(Vec::from_slice(alloc, b"x")?);
    let input = Port {
        name,
        dom: DomId { number: 0 },
        width: 8,
    };
    Ok(Ports {
        domains: Seq::from(vec![in alloc; domain]?),
        resets: Seq::from(Vec::new(alloc)),
        inputs: Seq::from(vec![in alloc; input]?),
        outputs: Seq::from(Vec::new(alloc)),
    })
}
