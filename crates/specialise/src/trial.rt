//! The rule of made definitions, tried on a term at a place.
ghost use Rattle.std.specs.Prelude.{◌≡◌, ◌↔◌, ◌++◌, ℕ, List, [], map, reverse, length, IfOk, IsTrue, MatchOption};
ghost use Rattle.chw_types.specs.References.{HasNoCycle};
ghost use Rattle.chw_types.specs.TypeTree.{TypeTree};
ghost use Rattle.chw_prims.specs.declared.prim.Primitive.TheVariants.{Fmap};
ghost use Rattle.chw_terms.specs.declared.term.Arg.TheVariants.{OfTerm};
ghost use Rattle.chw_terms.specs.declared.scene.Sort.TheVariants.{Value};
ghost use Rattle.chw_terms.specs.FreeVariables.{free_in};
ghost use Rattle.chw_terms.specs.TermTree.{var, made, prim};
ghost use Rattle.chw_terms.specs.TermView.{tree_of, applied};
ghost use Rattle.chw_typing.specs.Scopes.{setting_in};
ghost use Rattle.looks.specs.Looking.{looked};
ghost use Rattle.rewriting.specs.Calls.{IsCall, to_lambdas};
ghost use Rattle.rewriting.specs.Origins.{MadeOf, origins_of};
ghost use Rattle.rewriting.specs.Shapes.{fmap_of};
ghost use Rattle.rewriting.specs.Spots.{HasLets, spot_of};
ghost use Rattle.rule_parts.specs.Cores.{HasTypeAt};
ghost use Rattle.term_types.specs.Answers.{IsReady};
ghost use Rattle.term_frames.specs.Signatures.{IsSignature};
ghost use Rattle.specialise.specs.Calls.{IsOnGlobal, IsPlain};
ghost use Rattle.specialise.specs.Closed.{closed, numbers};
ghost use Rattle.specialise.specs.Seeds.{HasLambdas, IsNumbered, IsOfCall, made_of_seed};
ghost use Rattle.specialise.specs.Special.{AnswersSpecial};

use crate::calls::{call_seed, is_plain};
use crate::closing::close;
use crate::lifted::{Lifted, as_lifted, is_of_circuit, lifted_type, lifting};
use crate::numbers::{Seed, number_for};
use crate::opened::with_args;
use chw_base::{MadeId, NoMemory, VarIx};
use chw_prims::Prim;
use chw_terms::{Arg, Head, Made, Mode, Place, Program, Scene, Sort, Term};
use free_variables::free_in;
use looks::Looks;
use made_table::Table;
use std::alloc::Global;
use term_types::Signature;

// How many arguments `fmap` names.
const FMAP_ARGS: usize = 5;

/// The term that the rule makes, and the made definition where there is one more.
#[derive(Drop)]
pub struct Special {
    pub new: Term,
    pub definition: Option<Made>,
}

// Whether values or circuits are built there.
fn has_lets(mode: Mode) -> bool
    ensures { IsTrue result ↔ HasLets mode }
{
    match mode {
        Mode::V | Mode::C => true,
        Mode::HV | Mode::HC | Mode::K => false,
    }
}

// A made definition on variables.
fn on_free(alloc: Global, number: MadeId, free: &[VarIx]) -> Result<Term, NoMemory>
    ensures { IfOk result (λ e. e ≡ applied (made number.number) (map (λ x. OfTerm (var x)) (numbers free.now))) }
{
    let mut args = Vec::new(alloc);
    for at in free {
        args.push(Arg::OfTerm(Term::var(alloc, *at)))?;
    }
    Ok(Term {
        head: Head::Made(number),
        args,
    })
}

// The made definition of a call on its free variables, with the definition if it is new.
fn called_on(
    alloc: Global,
    table: &Table,
    scene: &Scene,
    signature: &Signature,
    at: &Term,
    place: &Place,
    free: &[VarIx],
) -> Result<Option<Special>, NoMemory>
    requires order { HasNoCycle scene.now.program.now.datas }
    requires ready { IsReady (setting_in scene.now) [] (reverse place.now.vars) }
    requires table { IsSignature scene.now.program.now signature.now }
    requires free { numbers free.now ≡ free_in at.now }
    requires typed { HasTypeAt (origins_of scene.now) (spot_of place.now) at.now }
    requires plain { IsPlain (origins_of scene.now) (spot_of place.now) at.now }
    ensures { IfOk result (λ r. MatchOption r
        ((types : List TypeTree) (gives : TypeTree) → IsCall (origins_of scene.now) (spot_of place.now) at.now types gives → ⊥)
        (λ s. (it : MadeOf) × (m : ℕ) × IsOfCall (origins_of scene.now) (spot_of place.now) at.now it
        × IsNumbered scene.now.program.now table.now it m s.definition
        × (s.new ≡ applied (made m) (map (λ x. OfTerm (var x)) (numbers free.now))))) }
{
    let Some(seed) = call_seed(alloc, scene, signature, place, at, free)? else {
        return Ok(None);
    };
    let made = number_for(alloc, table, scene.program, seed)?;
    let new = on_free(alloc, made.number, free)?;
    Ok(Some(Special {
        new,
        definition: made.definition,
    }))
}

// What the rule makes of the call of a definition.
fn special_call(
    alloc: Global,
    table: &Table,
    scene: &Scene,
    signature: &Signature,
    at: &Term,
    place: &Place,
) -> Result<Option<Special>, NoMemory>
    requires same { scene.now.made.now ≡ table.now }
    requires order { HasNoCycle scene.now.program.now.datas }
    requires ready { IsReady (setting_in scene.now) [] (reverse place.now.vars) }
    requires table { IsSignature scene.now.program.now signature.now }
    requires typed { HasTypeAt (origins_of scene.now) (spot_of place.now) at.now }
    requires call { IsOnGlobal at.now }
    ensures { IfOk result (AnswersSpecial scene.now.program.now table.now (spot_of place.now) at.now) }
{
    if !has_lets(place.mode) {
        return Ok(None);
    }
    // The arguments first: in a call on calls these need names, and its free variables aren't looked for.
    if !is_plain(alloc, scene, signature, place, at)? {
        return Ok(None);
    }
    let free = free_in(alloc, at)?;
    let outcome = called_on(alloc, table, scene, signature, at, place, &free);
    drop(free);
    outcome
}

// What a lifted function becomes a made definition of.
fn lifted_seed(
    alloc: Global,
    scene: &Scene,
    signature: &Signature,
    place: &Place,
    function: &Term,
) -> Result<Option<Seed>, NoMemory>
    requires order { HasNoCycle scene.now.program.now.datas }
    requires ready { IsReady (setting_in scene.now) [] (reverse place.now.vars) }
    requires table { IsSignature scene.now.program.now signature.now }
    ensures { IfOk result (λ r. MatchOption r
        ((t : TypeTree) → HasLambdas (origins_of scene.now) (spot_of place.now) function.now t → ⊥)
        (λ s. HasLambdas (origins_of scene.now) (spot_of place.now) function.now s.ty
        × (s.origin ≡ closed (origins_of scene.now) (to_lambdas []) function.now)
        × (s.sort ≡ Value))) }
{
    let Some(ty) = lifted_type(alloc, scene, signature, place, function)? else {
        return Ok(None);
    };
    let origin = close(alloc, scene, &[], 0, function)?;
    Ok(Some(Seed {
        origin,
        ty,
        sort: Sort::Value,
    }))
}

// `fmap` with a made definition as its function, on these arguments behind its own.
fn lifting_on(alloc: Global, at: Lifted<'_>, number: MadeId, rest: &[Arg]) -> Result<Term, NoMemory>
    ensures { IfOk result (λ e. e ≡ applied (fmap_of at.entry.dom.now at.entry.from.now at.entry.to.now (made number.number) at.entry.signal.now) rest.now) }
{
    let core = lifting(alloc, at, number)?;
    with_args(alloc, core, rest)
}

// The same with the made definition of this, and the definition if it is new.
fn lifted_with(
    alloc: Global,
    table: &Table,
    program: &Program,
    at: Lifted<'_>,
    seed: Seed,
    rest: &[Arg],
) -> Result<Special, NoMemory>
    ensures { IfOk result (λ s. (m : ℕ) × IsNumbered program.now table.now (made_of_seed seed) m s.definition
        × (s.new ≡ applied (fmap_of at.entry.dom.now at.entry.from.now at.entry.to.now (made m) at.entry.signal.now) rest.now)) }
{
    let made = number_for(alloc, table, program, seed)?;
    let new = lifting_on(alloc, at, made.number, rest)?;
    Ok(Special {
        new,
        definition: made.definition,
    })
}

// What the rule makes of `fmap` on its five arguments, and on those behind them.
fn special_lifted(
    alloc: Global,
    table: &Table,
    scene: &Scene,
    signature: &Signature,
    place: &Place,
    own: &[Arg],
    rest: &[Arg],
) -> Result<Option<Special>, NoMemory>
    requires same { scene.now.made.now ≡ table.now }
    requires order { HasNoCycle scene.now.program.now.datas }
    requires ready { IsReady (setting_in scene.now) [] (reverse place.now.vars) }
    requires table { IsSignature scene.now.program.now signature.now }
    requires typed { HasTypeAt (origins_of scene.now) (spot_of place.now) (applied (prim Fmap) (own.now ++ rest.now)) }
    requires five { length own.now ≡ 5 }
    ensures { IfOk result (AnswersSpecial scene.now.program.now table.now (spot_of place.now) (applied (prim Fmap) (own.now ++ rest.now))) }
{
    if !is_of_circuit(place.mode) {
        return Ok(None);
    }
    let Some(at) = as_lifted(own) else {
        return Ok(None);
    };
    let Some(seed) = lifted_seed(alloc, scene, signature, place, at.function)? else {
        return Ok(None);
    };
    Ok(Some(lifted_with(alloc, table, scene.program, at, seed, rest)?))
}

// What the rule makes of a primitive on arguments.
fn special_prim(
    alloc: Global,
    table: &Table,
    scene: &Scene,
    signature: &Signature,
    place: &Place,
    which: Prim,
    args: &[Arg],
) -> Result<Option<Special>, NoMemory>
    requires same { scene.now.made.now ≡ table.now }
    requires order { HasNoCycle scene.now.program.now.datas }
    requires ready { IsReady (setting_in scene.now) [] (reverse place.now.vars) }
    requires table { IsSignature scene.now.program.now signature.now }
    requires typed { HasTypeAt (origins_of scene.now) (spot_of place.now) (applied (prim which) args.now) }
    ensures { IfOk result (AnswersSpecial scene.now.program.now table.now (spot_of place.now) (applied (prim which) args.now)) }
{
    let Prim::Fmap = which else {
        return Ok(None);
    };
    if args.len() < FMAP_ARGS {
        return Ok(None);
    }
    let (own, rest) = args.split_at(FMAP_ARGS);
    special_lifted(alloc, table, scene, signature, place, own, rest)
}

/// What the rule of made definitions makes of a term that has a type: the term, and the made definition where none in the table has its
/// origin. Nothing comes exactly where the rule has no instance.
///
/// In values and circuits the call of a definition becomes a made definition on its free variables. In circuits a lifted function with a
/// lambda for each parameter becomes a made definition; the other arguments stay behind.
///
/// The scene's made definitions are those of the table. The rest is as at `rules::try_typed`: one look is counted, also where memory
/// is wanting.
pub fn try_special<L: Looks>(
    alloc: Global,
    table: &Table,
    scene: &Scene,
    signature: &Signature,
    at: &Term,
    place: &Place,
    looks: &mut L,
) -> Result<Option<Special>, NoMemory>
    requires same { scene.now.made.now ≡ table.now }
    requires order { HasNoCycle scene.now.program.now.datas }
    requires ready { IsReady (setting_in scene.now) [] (reverse place.now.vars) }
    requires table { IsSignature scene.now.program.now signature.now }
    requires typed { HasTypeAt (origins_of scene.now) (spot_of place.now) at.now }
    ensures special { IfOk result (AnswersSpecial scene.now.program.now table.now (spot_of place.now) at.now) }
    ensures one_look { L.looks looks.new ≡ looked (L.looks looks.old) }
{
    looks.look();
    match &at.head {
        Head::Global(_) => special_call(alloc, table, scene, signature, at, place),
        Head::PrimOf(which) => special_prim(
            alloc, table, scene, signature, place, *which, &at.args,
        ),
        _ => Ok(None),
    }
}
