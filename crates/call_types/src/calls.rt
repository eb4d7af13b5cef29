//! The type of a call on terms.
ghost use Rattle.std.specs.Prelude.{◌≡◌, reverse, option_map};
ghost use Rattle.chw_terms.specs.TermView.{tree_of};
ghost use Rattle.chw_typing.specs.Scopes.{setting_in};
ghost use Rattle.call_types.specs.CallTypes.{call_type, given_by_each};

use chw_terms::{Arg, GapBuffer, Head, Scene, Term};
use chw_types::{Ty, TyNode};

// What is left of the type of a head behind its arguments, where all are terms.
fn behind<'t>(ty: &'t Ty, args: &[Arg]) -> Option<&'t Ty>
    ensures { option_map (λ t. t.now) result ≡ given_by_each (Some ty.now) args.now }
{
    let mut left = ty;
    for arg in args {
        let Arg::OfTerm(_) = arg else {
            return None;
        };
        let TyNode::Fun(_, gives) = &left.node else {
            return None;
        };
        left = gives;
    }
    Some(left)
}

// The type of a head that is a variable, a definition or a made definition.
fn type_of_head<'t>(scene: &Scene<'t>, vars: &'t GapBuffer<Ty>, head: &Head) -> Option<&'t Ty>
    ensures { option_map (λ t. t.now) result ≡ call_type (setting_in scene.now) (reverse vars.now) (tree_of head.now) }
{
    match head {
        Head::Var(at) => vars.from_end(at.number as usize),
        Head::Global(at) => match scene.program.defs.as_slice().get(at.number as usize) {
            Some(it) => Some(&it.ty),
            None => None,
        },
        Head::Made(at) => match scene.made.get(at.number as usize) {
            Some(it) => Some(&it.ty),
            None => None,
        },
        _ => None,
    }
}

/// The type of a variable, of a definition or of a made definition on terms, with variables of these types in scope, the outermost first,
/// by the type of the head: what is left of it behind so many parameters. Nothing comes of other terms, and where the head has no such
/// type.
///
/// The arguments aren't looked at: it is the type that is found for the term if one is found.
pub(crate) fn type_of_call<'t>(
    scene: &Scene<'t>,
    vars: &'t GapBuffer<Ty>,
    term: &Term,
) -> Option<&'t Ty>
    ensures { option_map (λ t. t.now) result ≡ call_type (setting_in scene.now) (reverse vars.now) term.now }
{
    match type_of_head(scene, vars, &term.head) {
        Some(ty) => behind(ty, &term.args),
        None => None,
    }
}
