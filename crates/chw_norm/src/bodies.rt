//! Bodies of made definitions, with bounds of how deep they are.
ghost use Rattle.std.specs.Prelude.{◌<◌, IfOk};
ghost use Rattle.chw_base.specs.declared.limits.TheConstants.{MADE_DEPTH};
ghost use Rattle.chw_terms.specs.Depth.{depth};
ghost use Rattle.chw_terms.specs.TermTree.{TermTree};
ghost use Rattle.chw_typing.specs.Paths.{with_part};
ghost use Rattle.chw_norm.specs.Bounds.{AreBounds, IsBound};

use chw_base::NoMemory;
use chw_base::limits::MADE_DEPTH;
use chw_terms::{Made, Term, depth};
use std::alloc::Global;

/// The depth of each body.
pub(crate) fn depths(alloc: Global, made: &[Made]) -> Result<Vec<usize>, NoMemory>
    ensures { IfOk result (λ bounds. AreBounds made.now bounds.items) }
{
    let mut depths = Vec::new(alloc);
    for it in made {
        depths.push(depth(&it.body) as usize)?;
    }
    Ok(depths)
}

/// A bound of a term with this part at this path. A path has a number for each level at least.
pub(crate) fn bound_with(bound: usize, path: &[u32], new: &Term) -> usize
    ensures { (e : TermTree) → IsBound bound e → IsBound result (with_part e path.now new.now) }
{
    bound.max(path.len().saturating_add(depth(new) as usize))
}

/// A bound of a body that has this bound. The body is looked through only where the bound passes the limit: it is then exact.
pub(crate) fn exact_over_limit(bound: usize, body: &Term) -> usize
    ensures bound { IsBound bound body.now → IsBound result body.now }
    ensures exact { MADE_DEPTH < result → MADE_DEPTH < depth body.now }
{
    if bound > MADE_DEPTH as usize {
        depth(body) as usize
    } else {
        bound
    }
}

/// How deep a body is, as its bound.
pub(crate) fn exact_bound(body: &Term) -> usize
    ensures { IsBound result body.now }
{
    depth(body) as usize
}
