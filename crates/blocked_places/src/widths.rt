//! Limits that types pass.
ghost use Rattle.std.specs.Prelude.{◌≡◌, IfOk};
ghost use Rattle.type_ports.specs.declared.ports.Leaf.{Leaf};
ghost use Rattle.chw_types.specs.TypeTree.{TypeTree};
ghost use Rattle.chw_terms.specs.declared.term.Binding.{Binding};
ghost use Rattle.normal_forms.specs.Blocked.{Passes};
ghost use Rattle.blocked_places.specs.Firsts.{FindsOf, FindsFirstOf};
ghost use Rattle.blocked_places.specs.Limits.{over, IsTooWide, IsLeafTooWide, BindingPasses};

use chw_base::{NoMemory, Or};
use chw_layout::NoLayout;
use chw_layout::laws::{measured_types, one_measure};
use chw_terms::Binding;
use chw_types::Ty;
use std::alloc::Global;
use type_ports::{Leaf, leaves};
use type_widths::Widths;

// Why a type has no width, where that is a limit that it passes.
fn over(why: NoLayout) -> Option<NoLayout>
    ensures { result ≡ over why }
{
    match why {
        NoLayout::NotRepresentable => None,
        NoLayout::Scalar(_) | NoLayout::Data(_) | NoLayout::Length(_) => Some(why),
    }
}

// The limit that the width of a type passes.
fn too_wide(alloc: Global, widths: &mut Widths<'_>, ty: &Ty) -> Result<Option<NoLayout>, NoMemory>
    ensures limit { IfOk result (FindsOf TypeTree (IsTooWide widths.old) ty.now) }
    ensures same { widths.new ≡ widths.old }
{
    one_measure();
    measured_types();
    match widths.width(alloc, ty) {
        Ok(_) => Ok(None),
        Err(Or::Fault(why)) => Ok(over(why)),
        Err(Or::Memory) => Err(NoMemory),
    }
}

// The limit of the first leaf whose payload passes one.
fn first_leaf(
    alloc: Global,
    widths: &mut Widths<'_>,
    leaves: &[Leaf],
) -> Result<Option<NoLayout>, NoMemory>
    ensures limit { IfOk result (FindsFirstOf Leaf (IsLeafTooWide widths.old) leaves.now) }
    ensures same { widths.new ≡ widths.old }
{
    for leaf in leaves {
        if let Some(limit) = too_wide(alloc, widths, &leaf.payload)? {
            return Ok(Some(limit));
        }
    }
    Ok(None)
}

/// The limit that a type passes: its own where it is representable, and that of the first leaf whose payload passes one where it is a
/// port.
pub(crate) fn passed(
    alloc: Global,
    widths: &mut Widths<'_>,
    ty: &Ty,
) -> Result<Option<NoLayout>, NoMemory>
    ensures limit { IfOk result (FindsOf TypeTree (Passes widths.old) ty.now) }
    ensures same { widths.new ≡ widths.old }
{
    measured_types();
    if let Some(limit) = too_wide(alloc, widths, ty)? {
        return Ok(Some(limit));
    }
    let Some(found) = leaves(alloc, ty, widths.datas())? else {
        return Ok(None);
    };
    first_leaf(alloc, widths, &found)
}

/// The limit of the first binding whose type passes one.
pub(crate) fn first_binding(
    alloc: Global,
    widths: &mut Widths<'_>,
    bindings: &[Binding],
) -> Result<Option<NoLayout>, NoMemory>
    ensures limit { IfOk result (FindsFirstOf Binding (BindingPasses widths.old) bindings.now) }
    ensures same { widths.new ≡ widths.old }
{
    for binding in bindings {
        if let Some(limit) = passed(alloc, widths, &binding.ty)? {
            return Ok(Some(limit));
        }
    }
    Ok(None)
}
