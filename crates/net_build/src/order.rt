//! The order of the modules: the made definitions that the top uses, by however many others, each
//! behind those that it uses, and then the top.
ghost use Rattle.std.specs.Prelude.{◌≡◌, ◌<◌, ◌++◌, ◌∷◌, [], List, length, IfOk, OnOk};
ghost use Rattle.chw_types.specs.declared.declarations.Data.{Data};
ghost use Rattle.normal_forms.specs.Uses.{IsAcyclic};
ghost use Rattle.normal_form.specs.UseOrders.{UsesAreThere};
ghost use Rattle.net_built.specs.Modules.{AllVisited, IsOrderOfModules};
ghost use Rattle.net_build.specs.Marks.{AreBelow};
ghost use Rattle.net_build.specs.Outputs.{AreOutputMarks};
ghost use Rattle.net_build.specs.Tasks.{AreUsesOf, Continues, Opens, TasksAreBelow};
ghost use Rattle.net_build.specs.Tasks.{in_turn, visits};
ghost use Rattle.net_build.specs.Turns.{turns};

use crate::placed::Placed;
use chw_base::NoMemory;
use chw_terms::Made;
use normal_form::uses::body_made;
use std::alloc::Global;

/// What is still to be done: to visit a made definition, or to put it behind those that it uses.
#[derive(Clone, Copy)]
pub(crate) enum Task {
    Visit(u32),
    Place(u32),
}

// The made definitions in the body of this one, from left to right.
fn uses_of(alloc: Global, made: &[Made], m: u32) -> Result<Vec<u32>, NoMemory>
    requires m { m < length made.now }
    requires there { UsesAreThere made.now }
    ensures { IfOk result (λ uses. AreUsesOf made.now m uses.items) }
{
    body_made(alloc, &made[m as usize])
}

// Puts visits of these made definitions on the list, the first one last.
fn push_visits(uses: &[u32], todo: &mut Vec<Task>) -> Result<(), NoMemory>
    ensures { OnOk result (in_turn todo.new.items ≡ visits uses.now ++ in_turn todo.old.items) }
{
    for i in (0..uses.len()).rev() {
        todo.push(Task::Visit(uses[i]))?;
    }
    Ok(())
}

// Puts a visit of all that a made definition uses on the list, and its own place behind them.
fn open_uses(alloc: Global, made: &[Made], m: u32, todo: &mut Vec<Task>) -> Result<(), NoMemory>
    requires m { m < length made.now }
    requires there { UsesAreThere made.now }
    ensures { OnOk result (Opens made.now m (in_turn todo.old.items) (in_turn todo.new.items)) }
{
    let uses = uses_of(alloc, made, m)?;
    todo.push(Task::Place(m))?;
    push_visits(&uses, todo)
}

// Visits a made definition: where it isn't placed and has an output, what it uses comes first.
fn visit(
    alloc: Global,
    made: &[Made],
    has: &[bool],
    m: u32,
    placed: &Placed,
    todo: &mut Vec<Task>,
) -> Result<(), NoMemory>
    requires marks { length has.now ≡ length made.now }
    requires count { placed.now.count ≡ length made.now }
    requires there { UsesAreThere made.now }
    requires acyclic { IsAcyclic made.now }
    requires below { TasksAreBelow (length made.now) (Task.Visit m ∷ in_turn todo.old.items) }
    ensures order { OnOk result ((datas : List Data) → AreOutputMarks datas made.now has.now
        → Continues datas made.now (Task.Visit m ∷ in_turn todo.old.items) placed.now.order
        (in_turn todo.new.items) placed.now.order) }
    ensures below { OnOk result (TasksAreBelow (length made.now) (in_turn todo.new.items)) }
    ensures fewer { OnOk result (turns made.now (in_turn todo.new.items)
        < turns made.now (Task.Visit m ∷ in_turn todo.old.items)) }
{
    if placed.has(m) {
        return Ok(());
    }
    if !has[m as usize] {
        return Ok(());
    }
    open_uses(alloc, made, m, todo)
}

// Does what is to be done next.
fn perform(
    alloc: Global,
    made: &[Made],
    has: &[bool],
    task: Task,
    placed: &mut Placed,
    todo: &mut Vec<Task>,
) -> Result<(), NoMemory>
    requires marks { length has.now ≡ length made.now }
    requires count { placed.old.count ≡ length made.now }
    requires there { UsesAreThere made.now }
    requires acyclic { IsAcyclic made.now }
    requires below { TasksAreBelow (length made.now) (task ∷ in_turn todo.old.items) }
    ensures order { OnOk result ((datas : List Data) → AreOutputMarks datas made.now has.now
        → Continues datas made.now (task ∷ in_turn todo.old.items) placed.old.order
        (in_turn todo.new.items) placed.new.order) }
    ensures below { OnOk result (TasksAreBelow (length made.now) (in_turn todo.new.items)) }
    ensures fewer { OnOk result (turns made.now (in_turn todo.new.items)
        < turns made.now (task ∷ in_turn todo.old.items)) }
    ensures count { OnOk result (placed.new.count ≡ length made.now) }
{
    match task {
        Task::Visit(m) => visit(alloc, made, has, m, placed, todo),
        Task::Place(m) => placed.put(m),
    }
}

// These made definitions, which are used, each behind those that it uses.
//
// As none uses itself, each is opened once at most.
fn used_first(
    alloc: Global,
    made: &[Made],
    has: &[bool],
    uses: &[u32],
) -> Result<Vec<u32>, NoMemory>
    requires marks { length has.now ≡ length made.now }
    requires there { UsesAreThere made.now }
    requires acyclic { IsAcyclic made.now }
    requires below { AreBelow (length made.now) uses.now }
    ensures order { IfOk result (λ order. (datas : List Data)
        → AreOutputMarks datas made.now has.now
        → AllVisited datas made.now [] uses.now order.items) }
    ensures below { IfOk result (λ order. AreBelow (length made.now) order.items) }
{
    let mut placed = Placed::none(alloc, made.len())?;
    let mut todo = Vec::new(alloc);
    push_visits(uses, &mut todo)?;
    while let Some(task) = todo.pop() {
        perform(alloc, made, has, task, &mut placed, &mut todo)?;
    }
    Ok(placed.into_order())
}

/// The made definitions that have modules, in the order of the modules, where it is known of each
/// whether it has an output.
pub(crate) fn order_of_modules(
    alloc: Global,
    made: &[Made],
    has: &[bool],
) -> Result<Vec<u32>, NoMemory>
    requires marks { length has.now ≡ length made.now }
    requires there { UsesAreThere made.now }
    requires acyclic { IsAcyclic made.now }
    requires first { 0 < length made.now }
    ensures order { IfOk result (λ order. (datas : List Data)
        → AreOutputMarks datas made.now has.now → IsOrderOfModules datas made.now order.items) }
    ensures below { IfOk result (λ order. AreBelow (length made.now) order.items) }
{
    let uses = uses_of(alloc, made, 0)?;
    let mut order = used_first(alloc, made, has, &uses)?;
    order.push(0)?;
    Ok(order)
}
