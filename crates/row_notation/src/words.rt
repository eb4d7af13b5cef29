//! What single words say.
use chw_base::{ConId, DefId, DomId, MadeId, TyIx, VarIx};
use chw_bits::Bits;
use chw_prims::named;
use chw_terms::{Arg, Head, Pattern, Term};
use chw_types::{Kind, Scalar, Ty};
use std::alloc::Global;

/// The kind of this name.
pub(crate) fn kind(word: &str) -> Option<Kind> {
    match word {
        "Nat" => Some(Kind::Nat),
        "Dom" => Some(Kind::Dom),
        "Val" => Some(Kind::Val),
        "Cir" => Some(Kind::Cir),
        _ => None,
    }
}

/// A type or a term without parts, but a literal: a numeral, a primitive, or a letter with a number.
pub(crate) fn leaf(alloc: Global, word: &str) -> Option<Arg> {
    if let Ok(number) = word.parse::<u32>() {
        return Some(Arg::OfType(Ty::nat(number)));
    }
    if let Some(primitive) = named(word.as_bytes()) {
        return Some(Arg::OfTerm(Term::prim_of(alloc, primitive)));
    }
    let (letter, number) = numbered(word)?;
    match letter {
        "t" => Some(Arg::OfType(Ty::var(TyIx { number }))),
        "d" => Some(Arg::OfType(Ty::dom_of(DomId { number }))),
        "v" => Some(Arg::OfTerm(Term::var(alloc, VarIx { number }))),
        "g" => Some(Arg::OfTerm(Term::global(alloc, DefId { number }))),
        "m" => Some(Arg::OfTerm(Term::made(alloc, MadeId { number }))),
        "c" => Some(Arg::OfTerm(Term::con(alloc, ConId { number }))),
        _ => None,
    }
}

// A letter, and the number behind it.
fn numbered(word: &str) -> Option<(&str, u32)> {
    let (letter, digits) = word.split_at_checked(1)?;
    let number = digits.parse::<u32>().ok()?;
    Some((letter, number))
}

/// The pattern of an alternative.
pub(crate) fn pattern(alloc: Global, word: &str) -> Option<Pattern> {
    if word == "_" {
        return Some(Pattern::Default);
    }
    if let Some((con, fields)) = word.split_once('/') {
        let (_, number) = numbered(con)?;
        let fields = fields.parse::<u32>().ok()?;
        return Some(Pattern::OfCon(ConId { number }, fields));
    }
    let (sort, bits) = literal(alloc, word)?;
    Some(Pattern::OfLit(sort, bits))
}

/// The sort and the bits of a literal.
pub(crate) fn literal(alloc: Global, word: &str) -> Option<(Scalar, Bits)> {
    let (sign, digits) = word.split_at_checked(1)?;
    let sort = match sign {
        "u" => Scalar::U,
        "s" => Scalar::S,
        "b" => Scalar::B,
        _ => return None,
    };
    let mut bits = Vec::new(alloc);
    for digit in digits.as_bytes() {
        bits.push(*digit == b'1').ok()?;
    }
    if bits.len() > 1_000 {
        return None;
    }
    Some((sort, Bits::of_list(bits)))
}
