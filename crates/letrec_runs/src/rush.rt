//! Steps at the right sides of a letrec that is taken apart.
ghost use Rattle.std.specs.Prelude.{◌≡◌, ◌≤◌, ◌<◌, ◌+◌, ◌∷◌, [], ℕ, length, IfOk, IsTrue, OnErr};
ghost use Rattle.chw_types.specs.References.{HasNoCycle};
ghost use Rattle.chw_terms.specs.TermView.{group_of};
ghost use Rattle.chw_terms.specs.declared.scene.Place.{Place};
ghost use Rattle.rewriting.specs.Origins.{origins_of};
ghost use Rattle.rewriting.specs.Shapes.{IsLet};
ghost use Rattle.rewriting.specs.Spots.{spot_of, HasLets};
ghost use Rattle.rule_types.specs.Laws.{AreTypedOrigins};
ghost use Rattle.term_frames.specs.Signatures.{IsSignature};
ghost use Rattle.open_letrec.specs.Opened.{with_side};
ghost use Rattle.letrec_runs.specs.Rush.{place_in, Goes, IsChange, IsJoinedOne, IsResting, IsRestingLet};
ghost use Rattle.letrec_runs.specs.Traced.{Traces, TracesJoin};

use crate::lets::{as_let, is_let, take_let};
use crate::quiet::settle_all;
use crate::resting::is_at_rest;
use crate::scope::{inner_place, types_of};
use crate::trace::{Top, trace_joined, trace_one};
use crate::trial::{Made, try_side};
use active_parts::enter_group;
use chw_base::{NoMemory, narrow};
use chw_terms::{Binding, Mode, Place, Rule, Scene, Term};
use chw_types::Data;
use made_table::Table;
use norm_lines::StepAt;
use open_letrec::OpenLetrec;
use rewriting::scene_laws::settings_of_scenes;
use std::alloc::Global;
use term_types::Signature;
use trials::Rules;

// A letrec that is taken apart, and the place of its right sides.
#[derive(Drop)]
pub(crate) struct Rush {
    pub(crate) apart: OpenLetrec,
    pub(crate) place: Place,
}

impl Rush {
    // A letrec at a place is taken apart.
    pub(crate) fn begin(
        alloc: Global,
        place: &Place,
        group: Vec<Binding>,
        body: Term,
    ) -> Result<Rush, NoMemory>
        ensures apart { IfOk result (λ r. r.apart ≡ record { settled = []; left = group.items; body = body }) }
        ensures place { IfOk result (λ r. r.place ≡ place_in place.now r.apart) }
    {
        let mut inner = inner_place(alloc, place)?;
        enter_group(alloc, &mut inner, group.as_slice())?;
        let apart = OpenLetrec::open(alloc, group, body)?;
        Ok(Rush {
            apart,
            place: inner,
        })
    }

    // The rush with this right side put in place of the current one.
    fn with(self, side: Term) -> Result<Rush, NoMemory>
        requires { 0 < length self.apart.left }
        ensures apart { IfOk result (λ r. r.apart ≡ with_side self.apart side) }
        ensures place { IfOk result (λ r. r.place ≡ self.place) }
    {
        let Rush { mut apart, place } = self;
        apart.put_current(side)?;
        Ok(Rush { apart, place })
    }

    // The rush in which a letrec that is put for the current right side has joined.
    fn joined(self, alloc: Global, new: Term) -> Result<Rush, NoMemory>
        requires some { 0 < length self.apart.left }
        requires is { IsLet new }
        requires stands { (outer : Place) × (self.place ≡ place_in outer self.apart) }
        ensures apart { IfOk result (λ r. IsJoinedOne self.apart new r.apart) }
        ensures place { (outer : Place) → self.place ≡ place_in outer self.apart → IfOk result (λ r. r.place ≡ place_in outer r.apart) }
    {
        let Rush { apart, mut place } = self;
        let (group, body) = take_let(new);
        let types = types_of(alloc, group.as_slice())?;
        let before = place.vars.len() - apart.left();
        place.vars.insert_all(before, types)?;
        let apart = apart.join(group, body)?;
        Ok(Rush { apart, place })
    }
}

// A step puts a term that is no letrec, and it is traced.
fn put(
    alloc: Global,
    top: Top<'_>,
    rush: Rush,
    rule: Rule,
    new: Term,
    trace: &mut Vec<StepAt>,
) -> Result<Rush, NoMemory>
    requires { 0 < length rush.apart.left }
    ensures apart { IfOk result (λ r. r.apart ≡ with_side rush.apart new) }
    ensures place { IfOk result (λ r. r.place ≡ rush.place) }
    ensures traced { IfOk result (λ _. Traces top.entry.made.number top.entry.path.now trace.old.items trace.new.items (length rush.apart.settled ∷ []) rule) }
    ensures none { OnErr result (trace.new.items ≡ trace.old.items) }
{
    let number = narrow(rush.apart.settled())?;
    let rush = rush.with(new)?;
    trace_one(alloc, top, trace, Some(number), rule)?;
    Ok(rush)
}

// A step puts a letrec, which joins. Both steps are traced.
fn put_and_join(
    alloc: Global,
    top: Top<'_>,
    outer: &Place,
    rush: Rush,
    rule: Rule,
    new: Term,
    trace: &mut Vec<StepAt>,
) -> Result<Rush, NoMemory>
    requires some { 0 < length rush.apart.left }
    requires is { IsLet new }
    requires stands { rush.place ≡ place_in outer.now rush.apart }
    ensures apart { IfOk result (λ r. IsJoinedOne rush.apart new r.apart) }
    ensures place { IfOk result (λ r. r.place ≡ place_in outer.now r.apart) }
    ensures traced { IfOk result (λ _. TracesJoin top.entry.made.number top.entry.path.now trace.old.items trace.new.items (length rush.apart.settled) rule) }
    ensures none { OnErr result (trace.new.items ≡ trace.old.items) }
{
    let number = narrow(rush.apart.settled())?;
    let rush = rush.joined(alloc, new)?;
    trace_joined(alloc, top, trace, number, rule)?;
    Ok(rush)
}

// Whether a term is a letrec without arguments and no rule acts on it.
pub(crate) fn is_let_at_rest(
    alloc: Global,
    datas: &[Data],
    mode: Mode,
    term: &Term,
) -> Result<bool, NoMemory>
    requires { HasNoCycle datas.now }
    ensures { IfOk result (λ yes. IsTrue yes → IsRestingLet datas.now mode term.now) }
{
    let Some(it) = as_let(term) else {
        return Ok(false);
    };
    is_at_rest(alloc, datas, mode, it.group, it.body)
}

// The letrec that was made of the current right side, which was taken out, joins. Where a rule may act on it, the right side is put back.
fn change_to_let(
    alloc: Global,
    top: Top<'_>,
    scene: &Scene,
    outer: &Place,
    rush: Rush,
    side: Term,
    rule: Rule,
    new: Term,
    trace: &mut Vec<StepAt>,
) -> Result<(Rush, bool), NoMemory>
    requires order { HasNoCycle scene.now.program.now.datas }
    requires some { 0 < length rush.apart.left }
    requires stands { rush.place ≡ place_in outer.now rush.apart }
    requires is { IsLet new }
    ensures goes { IfOk result (λ r. (most : ℕ) → IsChange (origins_of scene.now) outer.now most rush.apart side rule new → Goes (origins_of scene.now) (spot_of outer.now) most top.entry.made.number top.entry.path.now outer.now (with_side rush.apart side) trace.old.items trace.new.items r) }
    ensures none { OnErr result (trace.new.items ≡ trace.old.items) }
{
    let datas = scene.program.datas.as_slice();
    let rests = is_let_at_rest(alloc, datas, outer.mode, &new)?;
    if !rests {
        drop(new);
        let rush = rush.with(side)?;
        return Ok((rush, false));
    }
    drop(side);
    let rush = put_and_join(alloc, top, outer, rush, rule, new, trace)?;
    Ok((rush, true))
}

// What was made of the current right side, which was taken out, is put there; a letrec joins, if no rule may act on it.
fn change(
    alloc: Global,
    top: Top<'_>,
    scene: &Scene,
    outer: &Place,
    rush: Rush,
    side: Term,
    made: Made,
    trace: &mut Vec<StepAt>,
) -> Result<(Rush, bool), NoMemory>
    requires order { HasNoCycle scene.now.program.now.datas }
    requires some { 0 < length rush.apart.left }
    requires stands { rush.place ≡ place_in outer.now rush.apart }
    ensures goes { IfOk result (λ r. (most : ℕ) → IsChange (origins_of scene.now) outer.now most rush.apart side made.rule made.new → Goes (origins_of scene.now) (spot_of outer.now) most top.entry.made.number top.entry.path.now outer.now (with_side rush.apart side) trace.old.items trace.new.items r) }
    ensures none { OnErr result (trace.new.items ≡ trace.old.items) }
{
    let Made { rule, new } = made;
    if is_let(&new) {
        return change_to_let(alloc, top, scene, outer, rush, side, rule, new, trace);
    }
    drop(side);
    let rush = put(alloc, top, rush, rule, new, trace)?;
    Ok((rush, true))
}

// One step more at the current right side, if one may be made, and another one where a letrec joins.
fn act<R: Rules>(
    alloc: Global,
    top: Top<'_>,
    table: &Table,
    scene: &Scene,
    signature: &Signature,
    outer: &Place,
    most: u32,
    rush: Rush,
    trace: &mut Vec<StepAt>,
    rules: &mut R,
) -> Result<(Rush, bool), NoMemory>
    requires same { scene.now.made.now ≡ table.now }
    requires order { HasNoCycle scene.now.program.now.datas }
    requires table { IsSignature scene.now.program.now signature.now }
    requires origins { AreTypedOrigins (origins_of scene.now) }
    requires lets { HasLets outer.now.mode }
    requires some { 0 < length rush.apart.left }
    requires rests { IsResting (origins_of scene.now) (spot_of outer.now) most rush.apart }
    requires stands { rush.place ≡ place_in outer.now rush.apart }
    ensures goes { IfOk result (Goes (origins_of scene.now) (spot_of outer.now) most top.entry.made.number top.entry.path.now outer.now rush.apart trace.old.items trace.new.items) }
    ensures none { OnErr result (trace.new.items ≡ trace.old.items) }
    ensures looks { R.looks rules.new ≤ R.looks rules.old + 21 }
{
    settings_of_scenes();
    let Rush { mut apart, place } = rush;
    let side = apart.take_current(alloc)?;
    let rush = Rush { apart, place };
    let found = try_side(
        alloc,
        table,
        scene,
        signature,
        &side,
        &rush.place,
        most,
        rules,
    )?;
    let Some(made) = found else {
        let rush = rush.with(side)?;
        return Ok((rush, false));
    };
    change(alloc, top, scene, outer, rush, side, made, trace)
}

// Quiet right sides are settled, and then a step is made, if one may be made; and whether one was.
pub(crate) fn advance<R: Rules>(
    alloc: Global,
    top: Top<'_>,
    table: &Table,
    scene: &Scene,
    signature: &Signature,
    outer: &Place,
    most: u32,
    rush: Rush,
    trace: &mut Vec<StepAt>,
    rules: &mut R,
) -> Result<(Rush, bool), NoMemory>
    requires same { scene.now.made.now ≡ table.now }
    requires order { HasNoCycle scene.now.program.now.datas }
    requires table { IsSignature scene.now.program.now signature.now }
    requires origins { AreTypedOrigins (origins_of scene.now) }
    requires lets { HasLets outer.now.mode }
    requires rests { IsResting (origins_of scene.now) (spot_of outer.now) most rush.apart }
    requires stands { rush.place ≡ place_in outer.now rush.apart }
    ensures goes { IfOk result (Goes (origins_of scene.now) (spot_of outer.now) most top.entry.made.number top.entry.path.now outer.now rush.apart trace.old.items trace.new.items) }
    ensures none { OnErr result (trace.new.items ≡ trace.old.items) }
    ensures looks { R.looks rules.new ≤ R.looks rules.old + 21 }
{
    let Rush { apart, place } = rush;
    let apart = settle_all(apart)?;
    let rush = Rush { apart, place };
    if rush.apart.left() == 0 {
        return Ok((rush, false));
    }
    act(
        alloc, top, table, scene, signature, outer, most, rush, trace, rules,
    )
}
