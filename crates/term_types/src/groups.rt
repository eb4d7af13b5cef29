//! The types of variables that are bound together.
ghost use Rattle.std.specs.Prelude.{◌≡◌, reverse, IfOk, MatchOption};
ghost use Rattle.chw_typing.specs.Scopes.{setting_in};
ghost use Rattle.term_types.specs.Groups.{NotAllOfTerms, IsGroup, together};

use chw_base::NoMemory;
use chw_terms::{Binding, Scene};
use chw_types::Kind;
use seen_types::found::Kinded;
use std::alloc::Global;
use term_spines::kinding::kind_of_terms;

/// The declared types of the bindings of a letrec with their kinds, and the kind that stands for them: a circuit where one of them is.
#[derive(Drop)]
pub(crate) struct Group<'t> {
    pub(crate) types: Vec<Kinded<'t>>,
    pub(crate) kind: Kind,
}

/// The declared types of bindings, where terms have each of them.
pub(crate) fn group_types<'t>(
    alloc: Global,
    scene: &Scene,
    kinds: &[Kind],
    bindings: &'t [Binding],
) -> Result<Option<Group<'t>>, NoMemory>
    ensures { IfOk result (λ r. MatchOption r (NotAllOfTerms (setting_in scene.now) (reverse kinds.now) bindings.now) (λ g. IsGroup (setting_in scene.now) (reverse kinds.now) bindings.now g)) }
{
    let mut types = Vec::new(alloc);
    let mut all = Kind::Val;
    for b in bindings {
        let Some(kind) = kind_of_terms(scene, kinds, &b.ty) else {
            return Ok(None);
        };
        types.push(Kinded { ty: &b.ty, kind })?;
        all = together(all, kind);
    }
    Ok(Some(Group { types, kind: all }))
}

// The kind that stands for both: a circuit where one of them is.
fn together(all: Kind, kind: Kind) -> Kind
    ensures { result ≡ together all kind }
{
    match kind {
        Kind::Cir => Kind::Cir,
        _ => all,
    }
}
