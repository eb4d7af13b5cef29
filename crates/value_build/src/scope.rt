//! The variables in scope.
ghost use Rattle.std.specs.Prelude.{◌≡◌, ◌<◌, ◌++◌, ◌∷◌, [], length, Some, IfOk, OnOk};
ghost use Rattle.std.specs.Prelude.{slice_get, slice_index_or};
ghost use Rattle.chw_terms.specs.TermTree.{var};
ghost use Rattle.net_built.specs.Terms.{variable, wires_at, wires_of};
ghost use Rattle.net_built.specs.Wires.{new_wires};
ghost use Rattle.value_build.specs.Groups.{bound_of};
ghost use Rattle.value_build.specs.InScope.{as_variable, as_variables, in_scope};
ghost use Rattle.value_build.specs.ReadyParts.{IsName};

use chw_base::{NoMemory, Seq, VarIx, WireId};
use chw_terms::{Binding, Head, Term};
use chw_types::Ty;
use net_pieces::parts;
use std::alloc::Global;

/// A variable: its type, and its wires.
#[derive(Drop)]
pub struct Variable {
    pub ty: Ty,
    pub wires: Seq<WireId>,
}

/// The wires of a variable. The last in scope is variable 0. One that isn't in scope has none.
pub fn wires_at(scope: &[Variable], x: VarIx) -> &[WireId]
    ensures { result.now ≡ wires_at (in_scope scope.now) x.number }
{
    let number = x.number as usize;
    if scope.len() <= number {
        return &[];
    }
    scope[scope.len() - 1 - number].wires.as_slice()
}

/// The wires of a term that is a variable. Any other has none.
pub fn wires_of<'s>(scope: &'s [Variable], e: &Term) -> &'s [WireId]
    ensures { result.now ≡ wires_of (in_scope scope.now) e.now }
{
    if !e.args.is_empty() {
        return &[];
    }
    match &e.head {
        Head::Var(x) => wires_at(scope, *x),
        _ => &[],
    }
}

/// The same wires once more.
pub fn copy_wires(alloc: Global, wires: &[WireId]) -> Result<Seq<WireId>, NoMemory>
    ensures { IfOk result (λ same. same ≡ wires.now) }
{
    Ok(Seq::from(Vec::from_slice(alloc, wires)?))
}

/// A variable in scope once more.
pub fn variable_at(alloc: Global, scope: &[Variable], x: VarIx) -> Result<Variable, NoMemory>
    requires { x.number < length scope.now }
    ensures { IfOk result (λ it. slice_get (in_scope scope.now) x.number ≡ Some (as_variable it)) }
{
    let number = x.number as usize;
    let it = &scope[scope.len() - 1 - number];
    let wires = copy_wires(alloc, it.wires.as_slice())?;
    let ty = it.ty.copy(alloc)?;
    Ok(Variable { ty, wires })
}

/// Puts a variable of this type into scope, on these wires.
pub fn push(
    alloc: Global,
    scope: &mut Vec<Variable>,
    ty: &Ty,
    wires: &[WireId],
) -> Result<(), NoMemory>
    ensures { OnOk result (as_variables scope.new.items
        ≡ as_variables scope.old.items ++ variable ty.now wires.now ∷ []) }
{
    let wires = copy_wires(alloc, wires)?;
    let ty = ty.copy(alloc)?;
    scope.push(Variable { ty, wires })?;
    Ok(())
}

/// Puts a variable of a type with a part of this width into scope, on the wire of this number.
pub(crate) fn push_part(
    alloc: Global,
    scope: &mut Vec<Variable>,
    ty: &Ty,
    number: u32,
    width: u32,
) -> Result<(), NoMemory>
    ensures { OnOk result (as_variables scope.new.items
        ≡ as_variables scope.old.items ++ variable ty.now (new_wires number (width ∷ [])) ∷ []) }
{
    let wires = parts::new_wires(alloc, number, width)?;
    push(alloc, scope, ty, wires.as_slice())
}

/// The variable that a term is, which is one.
pub fn name_of(e: &Term) -> VarIx
    requires { IsName e.now }
    ensures { e.now ≡ var result.number }
{
    match &e.head {
        Head::Var(x) => *x,
        _ => unreachable!(),
    }
}

// The wires of this number among lists of wires; none where there are none.
fn wires_of_number(wires: &[Seq<WireId>], number: usize) -> &[WireId]
    ensures { result.now ≡ slice_index_or wires.now number [] }
{
    if wires.len() <= number {
        return &[];
    }
    wires[number].as_slice()
}

/// Puts a variable into scope for each binding, on these wires; one for which there are none has none.
pub fn enter(
    alloc: Global,
    scope: &mut Vec<Variable>,
    bindings: &[Binding],
    wires: &[Seq<WireId>],
) -> Result<(), NoMemory>
    ensures { OnOk result (as_variables scope.new.items
        ≡ as_variables scope.old.items ++ bound_of bindings.now wires.now) }
{
    for (i, binding) in bindings.iter().enumerate() {
        push(alloc, scope, &binding.ty, wires_of_number(wires, i))?;
    }
    Ok(())
}
