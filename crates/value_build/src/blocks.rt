//! Blocks: letrecs, their right sides, and the alternatives of cases.
//!
//! What is built is a draft: the bindings of a letrec have the wires that are known.
ghost use Rattle.std.specs.Prelude.{◌≡◌, ℕ, [], IfOk, OnOk};
ghost use Rattle.chw_terms.specs.declared.scene.Sort.TheVariants.{Value};
ghost use Rattle.chw_terms.specs.TermTree.{letrec, case_of};
ghost use Rattle.chw_terms.specs.TermView.{group_of, alts_of};
ghost use Rattle.chw_layout.specs.Measured.{HasWidth};
ghost use Rattle.chw_types.specs.TypeTree.{TypeTree};
ghost use Rattle.net_built.specs.Terms.{head_of};
ghost use Rattle.net_ready.specs.Drafts.{Known, AltsDrafted, BlockDrafted, GroupDrafted};
ghost use Rattle.net_ready.specs.Drafts.{SideDrafted};
ghost use Rattle.net_ready.specs.Ready.{types_on, args_of, AltsReady, BlockReady, GroupReady};
ghost use Rattle.net_ready.specs.Ready.{SideReady, ValueReady};
ghost use Rattle.value_build.specs.Added.{Adds, next};
ghost use Rattle.value_build.specs.Drafting.{AltDrafted, CaseDrafted, Drafts};
ghost use Rattle.value_build.specs.InScope.{in_scope, as_variable};
ghost use Rattle.value_build.specs.ReadyParts.{AltReady, CaseReady, IsMeasured};

use crate::base::Base;
use crate::cases::{choice, cut_tested, last_wires};
use crate::drafts::{Draft, Wires, known_at};
use crate::fields::bind_fields;
use crate::scope::{Variable, copy_wires, enter, name_of, variable_at, wires_at};
use crate::sides::value_cells;
use chw_base::{NoMemory, Seq, WireId};
use chw_terms::{Alt, Binding, Head, Term};
use chw_types::Ty;
use net_pieces::Pieces;
use std::alloc::Global;

/// Appends the cells of a block where so much is known, and gives the wires of its result.
#[cycle(blocks)]
pub(crate) fn block(
    alloc: Global,
    base: &mut Base<'_>,
    known: &[Seq<Seq<WireId>>],
    scope: &mut Vec<Variable>,
    draft: &mut Draft,
    e: &Term,
) -> Result<Seq<WireId>, NoMemory>
    requires { BlockReady base.old.datas Value (types_on (in_scope scope.old.items)) e.now }
    ensures drafted { IfOk result (λ wires. Drafts (λ at n p inner. BlockDrafted base.old known.now
        at (in_scope scope.old.items) n e.now p wires inner) draft.old draft.new) }
    ensures scope { OnOk result (scope.new.items ≡ scope.old.items) }
    ensures base { base.new ≡ base.old }
{
    match &e.head {
        Head::Var(x) => copy_wires(alloc, wires_at(scope, *x)),
        Head::LetRec(bindings, body) => { letrec(alloc, base, known, scope, draft, bindings, body) }
        _ => unreachable!(),
    }
}

// A letrec that gives a variable.
#[cycle(blocks)]
fn letrec(
    alloc: Global,
    base: &mut Base<'_>,
    known: &[Seq<Seq<WireId>>],
    scope: &mut Vec<Variable>,
    draft: &mut Draft,
    bindings: &[Binding],
    body: &Term,
) -> Result<Seq<WireId>, NoMemory>
    requires { BlockReady base.old.datas Value (types_on (in_scope scope.old.items))
        (letrec (group_of bindings.now) body.now) }
    ensures drafted { IfOk result (λ wires. Drafts (λ at n p inner. BlockDrafted base.old known.now
        at (in_scope scope.old.items) n (letrec (group_of bindings.now) body.now) p wires inner)
        draft.old draft.new) }
    ensures scope { OnOk result (scope.new.items ≡ scope.old.items) }
    ensures base { base.new ≡ base.old }
{
    let x = name_of(body);
    let left = scope.len();
    let place = draft.make_place(alloc)?;
    enter(alloc, scope, bindings, known_at(known, place))?;
    let found = sides(alloc, base, known, scope, draft, bindings)?;
    draft.fill(place, found);
    let result = copy_wires(alloc, wires_at(scope, x));
    scope.truncate(left);
    result
}

// The right sides of bindings, with the wires of each.
#[cycle(blocks)]
fn sides(
    alloc: Global,
    base: &mut Base<'_>,
    known: &[Seq<Seq<WireId>>],
    scope: &mut Vec<Variable>,
    draft: &mut Draft,
    bindings: &[Binding],
) -> Result<Wires, NoMemory>
    requires { GroupReady base.old.datas Value (types_on (in_scope scope.old.items))
        (group_of bindings.now) }
    ensures drafted { IfOk result (λ wires. Drafts (λ at n p inner. GroupDrafted base.old known.now
        at (in_scope scope.old.items) n (group_of bindings.now) p wires.items inner)
        draft.old draft.new) }
    ensures scope { OnOk result (scope.new.items ≡ scope.old.items) }
    ensures base { base.new ≡ base.old }
{
    let mut found = Vec::new(alloc);
    for binding in bindings {
        found.push(side(alloc, base, known, scope, draft, &binding.ty, &binding.body)?)?;
    }
    Ok(found)
}

// The right side of a binding of this type.
#[cycle(blocks)]
fn side(
    alloc: Global,
    base: &mut Base<'_>,
    known: &[Seq<Seq<WireId>>],
    scope: &mut Vec<Variable>,
    draft: &mut Draft,
    t: &Ty,
    e: &Term,
) -> Result<Seq<WireId>, NoMemory>
    requires { SideReady base.old.datas Value (types_on (in_scope scope.old.items)) t.now e.now }
    ensures drafted { IfOk result (λ wires. Drafts (λ at n p inner. SideDrafted base.old known.now
        at (in_scope scope.old.items) n t.now e.now p wires inner) draft.old draft.new) }
    ensures scope { OnOk result (scope.new.items ≡ scope.old.items) }
    ensures base { base.new ≡ base.old }
{
    let w = base.width(alloc, t)?;
    match &e.head {
        Head::Case(on, alts) => case(alloc, base, known, scope, draft, on, alts, w),
        _ => flat_side(alloc, base, scope, &mut draft.into, e, w),
    }
}

// A right side that is no case.
fn flat_side(
    alloc: Global,
    base: &mut Base<'_>,
    scope: &[Variable],
    into: &mut Pieces,
    e: &Term,
    w: u32,
) -> Result<Seq<WireId>, NoMemory>
    requires { ValueReady base.old.datas (head_of e.now) (args_of e.now) }
    ensures drafted { IfOk result (λ wires. (known : Known) (at : ℕ) (t : TypeTree)
        → HasWidth base.old.datas t w
        → Adds (λ p. SideDrafted base.old known at (in_scope scope.now) (next into.old) t e.now p
        wires []) into.old into.new) }
    ensures base { base.new ≡ base.old }
{
    value_cells(alloc, base, scope, into, w, e)?;
    last_wires(alloc, into, w)
}

// A case of so many bits.
#[cycle(blocks)]
fn case(
    alloc: Global,
    base: &mut Base<'_>,
    known: &[Seq<Seq<WireId>>],
    scope: &mut Vec<Variable>,
    draft: &mut Draft,
    on: &Term,
    alts: &[Alt],
    w: u32,
) -> Result<Seq<WireId>, NoMemory>
    requires { CaseReady base.old.datas (types_on (in_scope scope.old.items)) on.now
        (alts_of alts.now) }
    ensures drafted { IfOk result (λ wires. (t : TypeTree) → HasWidth base.old.datas t w
        → Drafts (λ at n p inner. SideDrafted base.old known.now at (in_scope scope.old.items) n t
        (case_of on.now (alts_of alts.now)) p wires inner) draft.old draft.new) }
    ensures scope { OnOk result (scope.new.items ≡ scope.old.items) }
    ensures base { base.new ≡ base.old }
{
    let x = name_of(on);
    let it = variable_at(alloc, scope, x)?;
    let wires = case_on(alloc, base, known, scope, draft, &it, alts, w);
    drop(it);
    wires
}

// A case of so many bits on this variable.
#[cycle(blocks)]
fn case_on(
    alloc: Global,
    base: &mut Base<'_>,
    known: &[Seq<Seq<WireId>>],
    scope: &mut Vec<Variable>,
    draft: &mut Draft,
    it: &Variable,
    alts: &[Alt],
    w: u32,
) -> Result<Seq<WireId>, NoMemory>
    requires measured { IsMeasured base.old.datas it.now.ty }
    requires ready { AltsReady base.old.datas (types_on (in_scope scope.old.items)) it.now.ty
        (alts_of alts.now) }
    ensures drafted { IfOk result (λ wires. Drafts (λ at n p inner. CaseDrafted base.old known.now
        at (in_scope scope.old.items) (as_variable it.now) n w (alts_of alts.now) p wires inner)
        draft.old draft.new) }
    ensures scope { OnOk result (scope.new.items ≡ scope.old.items) }
    ensures base { base.new ≡ base.old }
{
    let whole = base.width(alloc, &it.ty)?;
    let on = cut_tested(alloc, base, &mut draft.into, it, whole)?;
    let below = whole.saturating_sub(on.bits);
    let results = alternatives(alloc, base, known, scope, draft, it, below, alts)?;
    choice(alloc, base, &mut draft.into, &it.ty, &on, alts, &results, w)
}

// Alternatives on a variable with so many bits below what is tested; the wires of their results.
#[cycle(blocks)]
fn alternatives(
    alloc: Global,
    base: &mut Base<'_>,
    known: &[Seq<Seq<WireId>>],
    scope: &mut Vec<Variable>,
    draft: &mut Draft,
    it: &Variable,
    below: u32,
    alts: &[Alt],
) -> Result<Wires, NoMemory>
    requires { AltsReady base.old.datas (types_on (in_scope scope.old.items)) it.now.ty
        (alts_of alts.now) }
    ensures drafted { IfOk result (λ results. Drafts (λ at n p inner. AltsDrafted base.old known.now
        at (in_scope scope.old.items) (as_variable it.now) below n (alts_of alts.now) p
        results.items inner) draft.old draft.new) }
    ensures scope { OnOk result (scope.new.items ≡ scope.old.items) }
    ensures base { base.new ≡ base.old }
{
    let mut results = Vec::new(alloc);
    for alt in alts {
        results.push(alternative(alloc, base, known, scope, draft, it, below, alt)?)?;
    }
    Ok(results)
}

// An alternative: its fields, and its block.
#[cycle(blocks)]
fn alternative(
    alloc: Global,
    base: &mut Base<'_>,
    known: &[Seq<Seq<WireId>>],
    scope: &mut Vec<Variable>,
    draft: &mut Draft,
    it: &Variable,
    below: u32,
    alt: &Alt,
) -> Result<Seq<WireId>, NoMemory>
    requires { AltReady base.old.datas (types_on (in_scope scope.old.items)) it.now.ty
        alt.now.pattern alt.now.body }
    ensures drafted { IfOk result (λ wires. Drafts (λ at n p inner. AltDrafted base.old known.now
        at (in_scope scope.old.items) (as_variable it.now) below n alt.now.pattern alt.now.body p
        wires inner) draft.old draft.new) }
    ensures scope { OnOk result (scope.new.items ≡ scope.old.items) }
    ensures base { base.new ≡ base.old }
{
    let left = scope.len();
    bind_fields(alloc, base, scope, &mut draft.into, it, below, &alt.pattern)?;
    let wires = block(alloc, base, known, scope, draft, &alt.body);
    scope.truncate(left);
    wires
}
