//! Steps as they are traced.
ghost use Rattle.std.specs.Prelude.{◌≡◌, ◌++◌, IfOk, OnErr, OnOk};
ghost use Rattle.letrec_runs.specs.Traced.{path_of, Traces, TracesJoin};

use chw_base::{MadeId, NoMemory};
use chw_terms::Rule;
use norm_lines::StepAt;
use std::alloc::Global;

// Where a letrec stands: at this path of this made definition.
#[derive(Clone, Copy)]
pub(crate) struct Top<'a> {
    pub(crate) made: MadeId,
    pub(crate) path: &'a [u32],
}

// The path to the right side of this number, or where there is none, to the letrec itself.
fn path_to(alloc: Global, top: Top<'_>, side: Option<u32>) -> Result<Vec<u32>, NoMemory>
    ensures { IfOk result (λ path. path.items ≡ top.entry.path.now ++ path_of side) }
{
    let mut path = Vec::new(alloc);
    path.extend_from_slice(top.path)?;
    if let Some(number) = side {
        path.push(number)?;
    }
    Ok(path)
}

// Traces a step there. Where memory is wanting, nothing is traced.
pub(crate) fn trace_one(
    alloc: Global,
    top: Top<'_>,
    trace: &mut Vec<StepAt>,
    side: Option<u32>,
    rule: Rule,
) -> Result<(), NoMemory>
    ensures ok { OnOk result (Traces top.entry.made.number top.entry.path.now trace.old.items trace.new.items (path_of side) rule) }
    ensures err { OnErr result (trace.new.items ≡ trace.old.items) }
{
    let path = path_to(alloc, top, side)?;
    trace.push(StepAt {
        made: top.made,
        path,
        rule,
    })?;
    Ok(())
}

// Traces a step at the right side of this number, and the one by which what it made joins. Where memory is wanting, neither is traced.
pub(crate) fn trace_joined(
    alloc: Global,
    top: Top<'_>,
    trace: &mut Vec<StepAt>,
    side: u32,
    rule: Rule,
) -> Result<(), NoMemory>
    ensures ok { OnOk result (TracesJoin top.entry.made.number top.entry.path.now trace.old.items trace.new.items side rule) }
    ensures err { OnErr result (trace.new.items ≡ trace.old.items) }
{
    let mut both = Vec::new(alloc);
    trace_one(alloc, top, &mut both, Some(side), rule)?;
    trace_one(alloc, top, &mut both, None, Rule::Flat)?;
    trace.append(&mut both)?;
    Ok(())
}
