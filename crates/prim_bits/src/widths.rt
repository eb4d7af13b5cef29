//! The widths of results.
ghost use Rattle.std.specs.Prelude.{◌≡◌};
ghost use Rattle.chw_prims.specs.Schemas.{row_of};
ghost use Rattle.prim_bits.specs.Widths.{result_width};

use chw_prims::Prim;

/// The width of a primitive's result at its first two natural arguments, 0 where it isn't one on words.
pub fn width_at(p: Prim, n: u32, m: u32) -> u64
    ensures { result ≡ result_width (row_of p) n m }
{
    let n = u64::from(n);
    let m = u64::from(m);
    match p {
        Prim::AddU | Prim::AddS | Prim::SubU | Prim::SubS | Prim::MulU | Prim::MulS => n,
        Prim::AndU | Prim::AndS | Prim::AndB | Prim::OrU | Prim::OrS | Prim::OrB => n,
        Prim::XorU | Prim::XorS | Prim::XorB | Prim::NotU | Prim::NotS | Prim::NotB => n,
        Prim::ShlU | Prim::ShlS | Prim::ShlB | Prim::ShrU | Prim::ShrS | Prim::ShrB => n,
        Prim::TruncU | Prim::TruncS | Prim::TruncB => n,
        Prim::PackU | Prim::PackS | Prim::UnpackU | Prim::UnpackS => n,
        Prim::XaddU | Prim::XaddS => n + 1,
        Prim::XmulU | Prim::XmulS | Prim::ExtU | Prim::ExtS | Prim::ExtB | Prim::Join => n + m,
        Prim::EqU | Prim::EqS | Prim::EqB | Prim::LtU | Prim::LtS => 1,
        Prim::RedAnd | Prim::RedOr | Prim::RedXor => 1,
        Prim::Slice => m,
        _ => 0,
    }
}
