//! The primitives and their names.
ghost use Rattle.std.specs.Prelude.{◌≡◌, IfSome, IfNone};
ghost use Rattle.std.specs.List.{Contains};
ghost use Rattle.chw_prims.specs.declared.prim.Primitive.{Primitive};
ghost use Rattle.chw_prims.specs.Names.{name_of};

use crate::Prim;

/// All primitives.
pub const ALL: [Prim; 82] = [
    Prim::AddU,
    Prim::AddS,
    Prim::SubU,
    Prim::SubS,
    Prim::MulU,
    Prim::MulS,
    Prim::XaddU,
    Prim::XaddS,
    Prim::XmulU,
    Prim::XmulS,
    Prim::AndU,
    Prim::AndS,
    Prim::AndB,
    Prim::OrU,
    Prim::OrS,
    Prim::OrB,
    Prim::XorU,
    Prim::XorS,
    Prim::XorB,
    Prim::NotU,
    Prim::NotS,
    Prim::NotB,
    Prim::ShlU,
    Prim::ShlS,
    Prim::ShlB,
    Prim::ShrU,
    Prim::ShrS,
    Prim::ShrB,
    Prim::EqU,
    Prim::EqS,
    Prim::EqB,
    Prim::LtU,
    Prim::LtS,
    Prim::ExtU,
    Prim::ExtS,
    Prim::ExtB,
    Prim::TruncU,
    Prim::TruncS,
    Prim::TruncB,
    Prim::Slice,
    Prim::Join,
    Prim::RedAnd,
    Prim::RedOr,
    Prim::RedXor,
    Prim::PackU,
    Prim::PackS,
    Prim::UnpackU,
    Prim::UnpackS,
    Prim::Fmap,
    Prim::Ap,
    Prim::Pure,
    Prim::Register,
    Prim::BlockRam,
    Prim::UnsafeSynchronizer,
    Prim::VGet,
    Prim::VGetC,
    Prim::VAt,
    Prim::VReplace,
    Prim::VMap,
    Prim::VMapC,
    Prim::VZipWith,
    Prim::VZipWithC,
    Prim::VFoldl,
    Prim::VFoldlC,
    Prim::VFoldr,
    Prim::VFoldrC,
    Prim::VGenerate,
    Prim::VGenerateC,
    Prim::VReplicate,
    Prim::VReplicateC,
    Prim::VAppend,
    Prim::VAppendC,
    Prim::VConcat,
    Prim::VConcatC,
    Prim::VTake,
    Prim::VTakeC,
    Prim::VDrop,
    Prim::VDropC,
    Prim::VReverse,
    Prim::VReverseC,
    Prim::VRotl,
    Prim::VRotlC,
];

/// The name by which a description calls the primitive.
pub fn name(primitive: Prim) -> &'static str
    ensures { result.now ≡ name_of primitive }
{
    match primitive {
        Prim::AddU => "addU",
        Prim::AddS => "addS",
        Prim::SubU => "subU",
        Prim::SubS => "subS",
        Prim::MulU => "mulU",
        Prim::MulS => "mulS",
        Prim::XaddU => "xaddU",
        Prim::XaddS => "xaddS",
        Prim::XmulU => "xmulU",
        Prim::XmulS => "xmulS",
        Prim::AndU => "andU",
        Prim::AndS => "andS",
        Prim::AndB => "andB",
        Prim::OrU => "orU",
        Prim::OrS => "orS",
        Prim::OrB => "orB",
        Prim::XorU => "xorU",
        Prim::XorS => "xorS",
        Prim::XorB => "xorB",
        Prim::NotU => "notU",
        Prim::NotS => "notS",
        Prim::NotB => "notB",
        Prim::ShlU => "shlU",
        Prim::ShlS => "shlS",
        Prim::ShlB => "shlB",
        Prim::ShrU => "shrU",
        Prim::ShrS => "shrS",
        Prim::ShrB => "shrB",
        Prim::EqU => "eqU",
        Prim::EqS => "eqS",
        Prim::EqB => "eqB",
        Prim::LtU => "ltU",
        Prim::LtS => "ltS",
        Prim::ExtU => "extU",
        Prim::ExtS => "extS",
        Prim::ExtB => "extB",
        Prim::TruncU => "truncU",
        Prim::TruncS => "truncS",
        Prim::TruncB => "truncB",
        Prim::Slice => "slice",
        Prim::Join => "join",
        Prim::RedAnd => "redAnd",
        Prim::RedOr => "redOr",
        Prim::RedXor => "redXor",
        Prim::PackU => "packU",
        Prim::PackS => "packS",
        Prim::UnpackU => "unpackU",
        Prim::UnpackS => "unpackS",
        Prim::Fmap => "fmap",
        Prim::Ap => "ap",
        Prim::Pure => "pure",
        Prim::Register => "register",
        Prim::BlockRam => "blockRam",
        Prim::UnsafeSynchronizer => "unsafeSynchronizer",
        Prim::VGet => "vget",
        Prim::VGetC => "vgetC",
        Prim::VAt => "vat",
        Prim::VReplace => "vreplace",
        Prim::VMap => "vmap",
        Prim::VMapC => "vmapC",
        Prim::VZipWith => "vzipWith",
        Prim::VZipWithC => "vzipWithC",
        Prim::VFoldl => "vfoldl",
        Prim::VFoldlC => "vfoldlC",
        Prim::VFoldr => "vfoldr",
        Prim::VFoldrC => "vfoldrC",
        Prim::VGenerate => "vgenerate",
        Prim::VGenerateC => "vgenerateC",
        Prim::VReplicate => "vreplicate",
        Prim::VReplicateC => "vreplicateC",
        Prim::VAppend => "vappend",
        Prim::VAppendC => "vappendC",
        Prim::VConcat => "vconcat",
        Prim::VConcatC => "vconcatC",
        Prim::VTake => "vtake",
        Prim::VTakeC => "vtakeC",
        Prim::VDrop => "vdrop",
        Prim::VDropC => "vdropC",
        Prim::VReverse => "vreverse",
        Prim::VReverseC => "vreverseC",
        Prim::VRotl => "vrotl",
        Prim::VRotlC => "vrotlC",
    }
}

/// The primitive of this name, where there is one.
pub fn named(sought: &[u8]) -> Option<Prim>
    ensures found { IfSome result (λ primitive. name_of primitive ≡ sought.now) }
    ensures unknown { IfNone result ((primitive : Primitive) → name_of primitive ≡ sought.now → ⊥) }
{
    let all = ALL;
    first_named(&all, sought)
}

/// The first of these primitives that has this name.
fn first_named(primitives: &[Prim], sought: &[u8]) -> Option<Prim>
    ensures found { IfSome result (λ primitive. name_of primitive ≡ sought.now) }
    ensures unknown { IfNone result ((primitive : Primitive) → Contains primitives.now primitive → name_of primitive ≡ sought.now → ⊥) }
{
    for primitive in primitives {
        if name(*primitive).as_bytes() == sought {
            return Some(*primitive);
        }
    }
    None
}
