//! The first demanded argument of a form.
ghost use Rattle.std.specs.Prelude.{◌≡◌, ◌↔◌, [], reverse, IfOk, IfSome, IfNone, IsTrue};
ghost use Rattle.chw_types.specs.References.{HasNoCycle};
ghost use Rattle.chw_terms.specs.declared.term.Arg.TheVariants.{OfTerm};
ghost use Rattle.chw_terms.specs.TermTree.{TermTree};
ghost use Rattle.chw_typing.specs.Scopes.{setting_in};
ghost use Rattle.rewriting.specs.Origins.{origins_of};
ghost use Rattle.rewriting.specs.Spots.{spot_of, LooksAt};
ghost use Rattle.term_types.specs.Answers.{IsReady};
ghost use Rattle.term_frames.specs.Signatures.{IsSignature};
ghost use Rattle.flow_demanded.specs.Demanding.{IsUnnamed, IsFirstOfForm, NoneOfForm};
ghost use Rattle.flow_demanded.specs.Forms.{HasForm};

use crate::forms::{Form, has_form};
use crate::looks::looks_at;
use chw_base::NoMemory;
use chw_prims::Prim;
use chw_terms::{Arg, Mode, Place, Scene, Term};
use chw_typing::found_laws::found_is_type;
use chw_typing::laws::{one_type, types_are_term_types};
use rewriting::scene_laws::{names_of_modes, settings_of_scenes};
use rule_parts::named::is_named;
use std::alloc::Global;
use term_types::{Signature, type_in_scope};

// Whether a term at a place that isn't one of a constant has a type, and none that is named there.
fn is_unnamed(
    alloc: Global,
    scene: &Scene,
    signature: &Signature,
    place: &Place,
    term: &Term,
) -> Result<bool, NoMemory>
    requires order { HasNoCycle scene.now.program.now.datas }
    requires ready { IsReady (setting_in scene.now) [] (reverse place.now.vars) }
    requires table { IsSignature scene.now.program.now signature.now }
    ensures { IfOk result (λ is. IsTrue is ↔ IsUnnamed (origins_of scene.now) (spot_of place.now) term.now) }
{
    settings_of_scenes();
    found_is_type();
    one_type();
    types_are_term_types();
    names_of_modes();
    if let Mode::K = place.mode {
        return Ok(false);
    }
    let Some(ty) = type_in_scope(alloc, scene, signature, &place.vars, term)? else {
        return Ok(false);
    };
    let datas = scene.program.datas.as_slice();
    Ok(!is_named(alloc, datas, place.mode, &ty)?)
}

/// A demanded argument: its number, and the term that it is.
#[derive(Clone, Copy)]
pub(crate) struct Demanded<'a> {
    pub(crate) number: usize,
    pub(crate) term: &'a Term,
}

// The argument of this number as a term, where the primitive looks at it and it has this form.
fn candidate(which: Prim, number: usize, form: Form, arg: &Arg) -> Option<&Term>
    ensures some { IfSome result (λ a. (arg.now ≡ OfTerm a.now) × LooksAt which number × HasForm form a.now) }
    ensures none { IfNone result ((a : TermTree) → arg.now ≡ OfTerm a → LooksAt which number → HasForm form a → ⊥) }
{
    if !looks_at(which, number) {
        return None;
    }
    let Arg::OfTerm(term) = arg else {
        return None;
    };
    if !has_form(form, term) {
        return None;
    }
    Some(term)
}

/// The first argument that the primitive demands and that has this form. Nothing comes exactly where it demands none of this form.
pub(crate) fn first_demanded<'a>(
    alloc: Global,
    scene: &Scene,
    signature: &Signature,
    place: &Place,
    which: Prim,
    args: &'a [Arg],
    form: Form,
) -> Result<Option<Demanded<'a>>, NoMemory>
    requires order { HasNoCycle scene.now.program.now.datas }
    requires ready { IsReady (setting_in scene.now) [] (reverse place.now.vars) }
    requires table { IsSignature scene.now.program.now signature.now }
    ensures first { IfOk result (λ r. IfSome r (λ it. IsFirstOfForm (origins_of scene.now) (spot_of place.now) which args.now form it.number it.term.now)) }
    ensures none { IfOk result (λ r. IfNone r (NoneOfForm (origins_of scene.now) (spot_of place.now) which args.now form)) }
{
    for (i, arg) in args.iter().enumerate() {
        if let Some(term) = candidate(which, i, form, arg) {
            if is_unnamed(alloc, scene, signature, place, term)? {
                return Ok(Some(Demanded { number: i, term }));
            }
        }
    }
    Ok(None)
}
