//! The types of constructors.
ghost use Rattle.std.specs.Prelude.{◌≡◌, ◌+◌, ◌*◌, ◌≤◌, length, IfOk, IfSome, IsTrue, ◌↔◌};
ghost use Rattle.chw_base.specs.declared.limits.TheConstants.{TYPE_DEPTH};
ghost use Rattle.chw_types.specs.TypeView.{trees_of};
ghost use Rattle.chw_typing.specs.HeadTypes.{con_type, for_each, from_each, variables};
ghost use Rattle.con_places.specs.Constructing.{constructor_of};

use chw_base::limits::TYPE_DEPTH;
use chw_base::{NoMemory, TyIx};
use chw_types::{Kind, Ty};
use con_places::Constructor;
use std::alloc::Global;

// The type variables of so many binders, the outermost first.
fn variables(alloc: Global, count: usize) -> Result<Vec<Ty>, NoMemory>
    ensures { IfOk result (λ ts. trees_of ts.items ≡ variables count) }
{
    if count > u32::MAX as usize {
        return Err(NoMemory);
    }
    let mut done = Vec::new(alloc);
    for i in 0..count {
        let number = (count - 1 - i) as u32;
        done.push(Ty::var(TyIx { number }))?;
    }
    Ok(done)
}

// Functions from these, the first one outermost.
fn from_each(alloc: Global, fields: &[Ty], to: Ty) -> Result<Ty, NoMemory>
    ensures { IfOk result (λ t. t ≡ from_each fields.now to) }
{
    let mut done = to;
    for i in 0..fields.len() {
        let from = fields[fields.len() - 1 - i].copy(alloc)?;
        done = Ty::fun(alloc, from, done)?;
    }
    Ok(done)
}

// Binders of these kinds, the first one outermost.
fn for_each(alloc: Global, kinds: &[Kind], of: Ty) -> Result<Ty, NoMemory>
    ensures { IfOk result (λ t. t ≡ for_each kinds.now of) }
{
    let mut done = of;
    for i in 0..kinds.len() {
        done = Ty::forall(alloc, kinds[kinds.len() - 1 - i], done)?;
    }
    Ok(done)
}

// Whether a constructor's fields and its data type's parameters are at most as many as types are deep.
fn is_shallow(con: &Constructor<'_>) -> bool
    ensures { IsTrue result ↔ (length con.now.decl.now.fields + length con.now.it.now.params ≤ TYPE_DEPTH) }
{
    let fields = con.decl.fields.len();
    let most = TYPE_DEPTH as usize;
    fields <= most && con.it.params.len() <= most - fields
}

/// The type of a constructor: its data type's parameters as type parameters, then its fields as parameters, then the data type.
///
/// Where fields and parameters are more than `TYPE_DEPTH` together, the answer is want of memory, since the type would be deeper.
pub fn con_type(alloc: Global, con: &Constructor<'_>) -> Result<Ty, NoMemory>
    ensures is { IfOk result (λ t. t ≡ con_type (constructor_of con.now)) }
    ensures shallow { IfOk result (λ _. length con.now.decl.now.fields + length con.now.it.now.params ≤ TYPE_DEPTH) }
{
    if !is_shallow(con) {
        return Err(NoMemory);
    }
    let params = con.it.params.as_slice();
    let to = Ty::data_of(con.of, variables(alloc, params.len())?);
    let from = from_each(alloc, con.decl.fields.as_slice(), to)?;
    for_each(alloc, params, from)
}

/// How many of so many parts are left after the parameters of a constructor's type. Each parameter has
/// a binder, and is an argument of the data type.
///
/// Nothing comes if there are too few parts, or if the type would be too deep to be made.
pub(crate) fn parts_left_after(con: &Constructor<'_>, parts: u32) -> Option<u32>
    ensures { IfSome result (λ left. 2 * length con.now.it.now.params + left ≡ parts) }
{
    if !is_shallow(con) {
        return None;
    }
    parts.checked_sub(2 * con.it.params.len() as u32)
}
