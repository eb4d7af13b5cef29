//! The verdict on the body of a made definition.
ghost use Rattle.std.specs.Prelude.{◌≡◌, IfOk};
ghost use Rattle.rewriting.specs.Origins.{made_of, origins_of};
ghost use Rattle.rewriting.specs.Steps.{HasNoStep};
ghost use Rattle.rewriting.specs.Typed.{IsTypedScene};
ghost use Rattle.term_frames.specs.Signatures.{IsSignature};
ghost use Rattle.normal_forms.specs.Normal.{all_rules};
ghost use Rattle.judge.specs.Verdicts.{IsMadeOf, Judges};

use blocked_places::{BlockedPart, first_blocked};
use chw_base::NoMemory;
use chw_terms::{Made, Scene};
use ended_laws::laws::none_is_stuck;
use normal_laws::laws::normal_is_not_blocked;
use std::alloc::Global;
use term_types::Signature;
use type_widths::Widths;

/// What is found of the body of a made definition.
#[derive(Drop)]
pub enum Verdict {
    /// It is in normal form, and nothing blocks it.
    Normal,
    /// It isn't in normal form, and this is its first blocked place, by path and then by what blocks.
    Blocked(BlockedPart),
}

/// Whether the body of a made definition is in normal form, else what blocks it first. It is in
/// normal form exactly where nothing blocks it.
///
/// The scene is typed, and no rule has an instance in its state. The made definition is one of it,
/// the signature is that of its program, and the widths are over its data types.
/// Where a number would pass 32 bits, the answer is want of memory.
pub fn judge(
    alloc: Global,
    scene: &Scene,
    signature: &Signature,
    widths: &mut Widths<'_>,
    it: &Made,
) -> Result<Verdict, NoMemory>
    requires typed { IsTypedScene scene.now }
    requires ended { HasNoStep all_rules scene.now.program.now scene.now.made.now }
    requires table { IsSignature scene.now.program.now signature.now }
    requires made { IsMadeOf scene.now it.now }
    requires widths { widths.old ≡ scene.now.program.now.datas }
    ensures verdict { IfOk result (Judges (origins_of scene.now) (made_of it.now) it.now.body) }
    ensures same { widths.new ≡ widths.old }
{
    none_is_stuck();
    normal_is_not_blocked();
    match first_blocked(alloc, scene, signature, widths, it)? {
        Some(part) => Ok(Verdict::Blocked(part)),
        None => Ok(Verdict::Normal),
    }
}
