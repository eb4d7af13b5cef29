//! The lines of the table of the primitives' types.
ghost use Rattle.std.specs.Prelude.{◌≡◌};
ghost use Rattle.chw_prims.specs.Schemas.{row_of};

use crate::Prim;
use chw_types::{Kind, Scalar};

/// A line of the table of types, at a sort of scalars or at a kind of elements.
#[derive(Clone, Copy, Debug, PartialEq, Eq)]
pub enum Row {
    /// Two words of one width give a third.
    Binary(Scalar),
    /// The exact sum.
    WideSum(Scalar),
    /// The exact product.
    WideProduct(Scalar),
    /// A word gives another of its width.
    Unary(Scalar),
    /// A word is moved by a number of places.
    Shift(Scalar),
    /// Two words of one width are compared.
    Compare(Scalar),
    /// A word becomes wider.
    Extend(Scalar),
    /// A word becomes narrower.
    Truncate(Scalar),
    /// The middle bits.
    Cut,
    /// One word beside another.
    Joined,
    /// All bits give one.
    Reduce,
    /// A number as bits.
    Packed(Scalar),
    /// Bits as a number.
    Unpacked(Scalar),
    /// A function on the values of a signal.
    Mapping,
    /// A signal of functions on a signal.
    Applying,
    /// One value at all times.
    Constant,
    /// A first value, and a signal one tick late.
    Delay,
    /// A first content, a place to read, and a place and value to write.
    Memory,
    /// A signal looked at in another domain.
    Crossing,
    /// One element, by a number of the type.
    Element(Kind),
    /// One element, by a word.
    ElementAt,
    /// One element replaced, by a word.
    Replaced,
    /// A function on each element.
    Mapped(Kind),
    /// A function on the elements of two vectors.
    Zipped(Kind),
    /// From element 0 on.
    FoldedLeft(Kind),
    /// From the last element on.
    FoldedRight(Kind),
    /// Each element from its place.
    Generated(Kind),
    /// One element many times.
    Replicated(Kind),
    /// One vector after another.
    Appended(Kind),
    /// A vector of vectors made flat.
    Concatenated(Kind),
    /// The first elements.
    Taken(Kind),
    /// The last elements.
    Dropped(Kind),
    /// The last element first.
    Reversed(Kind),
    /// The elements turned round.
    Rotated(Kind),
}

impl Row {
    /// The line of this primitive.
    pub fn of(p: Prim) -> Row
        ensures { result ≡ row_of p }
    {
        match p {
            Prim::AddU | Prim::SubU | Prim::MulU | Prim::AndU | Prim::OrU | Prim::XorU =>
                Row::Binary(Scalar::U),
            Prim::AddS | Prim::SubS | Prim::MulS | Prim::AndS | Prim::OrS | Prim::XorS =>
                Row::Binary(Scalar::S),
            Prim::AndB | Prim::OrB | Prim::XorB => Row::Binary(Scalar::B),
            Prim::XaddU => Row::WideSum(Scalar::U),
            Prim::XaddS => Row::WideSum(Scalar::S),
            Prim::XmulU => Row::WideProduct(Scalar::U),
            Prim::XmulS => Row::WideProduct(Scalar::S),
            Prim::NotU => Row::Unary(Scalar::U),
            Prim::NotS => Row::Unary(Scalar::S),
            Prim::NotB => Row::Unary(Scalar::B),
            Prim::ShlU | Prim::ShrU => Row::Shift(Scalar::U),
            Prim::ShlS | Prim::ShrS => Row::Shift(Scalar::S),
            Prim::ShlB | Prim::ShrB => Row::Shift(Scalar::B),
            Prim::EqU | Prim::LtU => Row::Compare(Scalar::U),
            Prim::EqS | Prim::LtS => Row::Compare(Scalar::S),
            Prim::EqB => Row::Compare(Scalar::B),
            Prim::ExtU => Row::Extend(Scalar::U),
            Prim::ExtS => Row::Extend(Scalar::S),
            Prim::ExtB => Row::Extend(Scalar::B),
            Prim::TruncU => Row::Truncate(Scalar::U),
            Prim::TruncS => Row::Truncate(Scalar::S),
            Prim::TruncB => Row::Truncate(Scalar::B),
            Prim::Slice => Row::Cut,
            Prim::Join => Row::Joined,
            Prim::RedAnd | Prim::RedOr | Prim::RedXor => Row::Reduce,
            Prim::PackU => Row::Packed(Scalar::U),
            Prim::PackS => Row::Packed(Scalar::S),
            Prim::UnpackU => Row::Unpacked(Scalar::U),
            Prim::UnpackS => Row::Unpacked(Scalar::S),
            Prim::Fmap => Row::Mapping,
            Prim::Ap => Row::Applying,
            Prim::Pure => Row::Constant,
            Prim::Register => Row::Delay,
            Prim::BlockRam => Row::Memory,
            Prim::UnsafeSynchronizer => Row::Crossing,
            Prim::VGet => Row::Element(Kind::Val),
            Prim::VGetC => Row::Element(Kind::Cir),
            Prim::VAt => Row::ElementAt,
            Prim::VReplace => Row::Replaced,
            Prim::VMap => Row::Mapped(Kind::Val),
            Prim::VMapC => Row::Mapped(Kind::Cir),
            Prim::VZipWith => Row::Zipped(Kind::Val),
            Prim::VZipWithC => Row::Zipped(Kind::Cir),
            Prim::VFoldl => Row::FoldedLeft(Kind::Val),
            Prim::VFoldlC => Row::FoldedLeft(Kind::Cir),
            Prim::VFoldr => Row::FoldedRight(Kind::Val),
            Prim::VFoldrC => Row::FoldedRight(Kind::Cir),
            Prim::VGenerate => Row::Generated(Kind::Val),
            Prim::VGenerateC => Row::Generated(Kind::Cir),
            Prim::VReplicate => Row::Replicated(Kind::Val),
            Prim::VReplicateC => Row::Replicated(Kind::Cir),
            Prim::VAppend => Row::Appended(Kind::Val),
            Prim::VAppendC => Row::Appended(Kind::Cir),
            Prim::VConcat => Row::Concatenated(Kind::Val),
            Prim::VConcatC => Row::Concatenated(Kind::Cir),
            Prim::VTake => Row::Taken(Kind::Val),
            Prim::VTakeC => Row::Taken(Kind::Cir),
            Prim::VDrop => Row::Dropped(Kind::Val),
            Prim::VDropC => Row::Dropped(Kind::Cir),
            Prim::VReverse => Row::Reversed(Kind::Val),
            Prim::VReverseC => Row::Reversed(Kind::Cir),
            Prim::VRotl => Row::Rotated(Kind::Val),
            Prim::VRotlC => Row::Rotated(Kind::Cir),
        }
    }
}
