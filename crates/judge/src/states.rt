//! The verdict on a state that no rule rewrites.
ghost use Rattle.std.specs.Prelude.{◌≡◌, IfOk, Some, slice_get};
ghost use Rattle.chw_base.specs.Outcome.{IfFault};
ghost use Rattle.rewriting.specs.Steps.{HasNoStep};
ghost use Rattle.rewriting.specs.Typed.{IsTypedScene};
ghost use Rattle.term_frames.specs.Signatures.{IsSignature};
ghost use Rattle.normal_forms.specs.Normal.{IsNormal, all_rules};
ghost use Rattle.normal_form.specs.Entries.{IsEntry};
ghost use Rattle.judge.specs.States.{FindsBlocked, FindsBlockedIn, FindsFault, IsBlockedNowhere, IsFinished, IsPlacedIn, RefusesState};

use crate::judging::{Verdict, judge};
use blocked_places::{Block, BlockedPart};
use chw_base::{MadeId, NoMemory, Or, narrow};
use chw_terms::{Made, Program, Scene};
use chw_typing::named_laws::data_types_in_order;
use ended_laws::laws::none_is_stuck;
use normal_form::Normal;
use std::alloc::Global;
use term_types::Signature;
use type_widths::Widths;

/// A blocked place of a state: in which made definition, at which path of its body, and by what.
#[derive(Drop)]
pub struct BlockedAt {
    pub made: MadeId,
    pub path: Vec<u32>,
    pub block: Block,
}

/// Why a state has no net.
#[derive(Drop)]
pub enum StateFault {
    /// This is its first blocked place.
    Blocked(BlockedAt),
    /// It is blocked nowhere, and so normal. Each of these made definitions uses the next one, and the last one the first.
    Uses { cycle: Vec<MadeId> },
}

// The blocked place with the number of its made definition.
fn placed_in(number: usize, part: BlockedPart) -> Result<BlockedAt, NoMemory>
    ensures { IfOk result (IsPlacedIn number part) }
{
    let made = MadeId {
        number: narrow(number)?,
    };
    let BlockedPart { path, block } = part;
    Ok(BlockedAt { made, path, block })
}

// The first blocked place of the made definition of this number.
fn blocked_in(
    alloc: Global,
    scene: &Scene,
    signature: &Signature,
    widths: &mut Widths<'_>,
    number: usize,
    it: &Made,
) -> Result<Option<BlockedAt>, NoMemory>
    requires typed { IsTypedScene scene.now }
    requires ended { HasNoStep all_rules scene.now.program.now scene.now.made.now }
    requires table { IsSignature scene.now.program.now signature.now }
    requires is { slice_get scene.now.made.now number ≡ Some it.now }
    requires widths { widths.old ≡ scene.now.program.now.datas }
    ensures found { IfOk result (FindsBlockedIn scene.now.program.now scene.now.made.now number) }
    ensures same { widths.new ≡ widths.old }
{
    match judge(alloc, scene, signature, widths, it)? {
        Verdict::Normal => Ok(None),
        Verdict::Blocked(part) => Ok(Some(placed_in(number, part)?)),
    }
}

// The first blocked place of a state.
fn blocked_at(
    alloc: Global,
    scene: &Scene,
    signature: &Signature,
    widths: &mut Widths<'_>,
) -> Result<Option<BlockedAt>, NoMemory>
    requires typed { IsTypedScene scene.now }
    requires ended { HasNoStep all_rules scene.now.program.now scene.now.made.now }
    requires table { IsSignature scene.now.program.now signature.now }
    requires widths { widths.old ≡ scene.now.program.now.datas }
    ensures { IfOk result (FindsBlocked scene.now.program.now scene.now.made.now) }
{
    let made = scene.made;
    for number in 0..made.len() {
        let found = blocked_in(alloc, scene, signature, widths, number, &made[number])?;
        if found.is_some() {
            return Ok(found);
        }
    }
    Ok(None)
}

// What is at fault with the bodies of a state.
fn fault_of_bodies(alloc: Global, scene: &Scene) -> Result<Option<StateFault>, NoMemory>
    requires typed { IsTypedScene scene.now }
    requires ended { HasNoStep all_rules scene.now.program.now scene.now.made.now }
    ensures { IfOk result (FindsFault scene.now.program.now scene.now.made.now) }
{
    none_is_stuck();
    data_types_in_order();
    let signature = Signature::of(alloc, scene.program)?;
    let mut widths = Widths::of(alloc, scene.program.datas.as_slice());
    match blocked_at(alloc, scene, &signature, &mut widths)? {
        Some(at) => Ok(Some(StateFault::Blocked(at))),
        None => Ok(None),
    }
}

// A normal state that is blocked nowhere as one of which no made definition uses itself, or a cycle of uses.
fn ordered<'a>(
    alloc: Global,
    program: &'a Program,
    made: &'a [Made],
) -> Result<Normal<'a>, Or<StateFault>>
    requires entry { IsEntry program.now made.now }
    requires normal { IsNormal program.now made.now }
    requires free { IsBlockedNowhere program.now made.now }
    ensures state { IfOk result (λ n. n ≡ record { program = program.now; made = made.now }) }
    ensures finished { IfOk result (λ _. IsFinished program.now made.now) }
    ensures fault { IfFault result (RefusesState program.now made.now) }
{
    match Normal::of(alloc, program, made) {
        Ok(normal) => Ok(normal),
        Err(Or::Memory) => Err(Or::Memory),
        Err(Or::Fault(cycle)) => Err(Or::Fault(StateFault::Uses { cycle })),
    }
}

/// The state as a normal one of which no made definition uses itself, or why it isn't one. Each answer comes exactly where it holds.
///
/// The scene is typed, and no rule has an instance in its state. So the state is normal exactly
/// where nothing of it is blocked. It begins with the program's top, and has no more made
/// definitions than a run may make.
/// Where a number would pass 32 bits, the answer is want of memory.
pub fn judge_state<'a>(alloc: Global, scene: &Scene<'a>) -> Result<Normal<'a>, Or<StateFault>>
    requires typed { IsTypedScene scene.now }
    requires entry { IsEntry scene.now.program.now scene.now.made.now }
    requires ended { HasNoStep all_rules scene.now.program.now scene.now.made.now }
    ensures state { IfOk result (λ n. n ≡ record { program = scene.now.program.now; made = scene.now.made.now }) }
    ensures finished { IfOk result (λ _. IsFinished scene.now.program.now scene.now.made.now) }
    ensures fault { IfFault result (RefusesState scene.now.program.now scene.now.made.now) }
{
    match fault_of_bodies(alloc, scene)? {
        Some(fault) => Err(Or::Fault(fault)),
        None => ordered(alloc, scene.program, scene.made),
    }
}
