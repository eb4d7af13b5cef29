//! Elements of written vectors.
ghost use Rattle.std.specs.Prelude.{◌≡◌, ◌+◌, ◌*◌, min, if◌then◌else◌, IfOk, IfSome, IfNone, MatchOption, Some, None};
ghost use Rattle.chw_bits.specs.Bits.{number_of};
ghost use Rattle.chw_types.specs.TypeTree.{TypeTree};
ghost use Rattle.chw_terms.specs.declared.scene.Mode.TheVariants.{K};
ghost use Rattle.chw_terms.specs.declared.rule.Rule.TheVariants.{Elem};
ghost use Rattle.chw_terms.specs.TermTree.{TermTree, Terms, prim, vec_lit};
ghost use Rattle.chw_terms.specs.TermView.{terms_of, applied};
ghost use Rattle.rewriting.specs.Origins.{Origins};
ghost use Rattle.rewriting.specs.Spots.{spot_of};
ghost use Rattle.chw_typing.specs.Paths.{element_at};
ghost use Rattle.rule_parts.specs.Cores.{AnswersCore};
ghost use Rattle.work_prims.specs.Elements.{IsElement, IsElementAt};

use crate::given::{closed, literal_of};
use chw_base::NoMemory;
use chw_prims::Prim;
use chw_terms::{Arg, Head, Mode, Place, Scalar, Term};
use std::alloc::Global;

// The elements of a written vector.
fn elements(vector: &Term) -> Option<&[Term]>
    ensures some { IfSome result (λ es. (t : TypeTree) × (vector.now ≡ vec_lit t (terms_of es.now))) }
    ensures none { IfNone result ((t : TypeTree) (es : Terms) → vector.now ≡ vec_lit t es → ⊥) }
{
    let Head::VecLit(_, es) = &vector.head else {
        return None;
    };
    if vector.args.is_empty() {
        Some(es)
    } else {
        None
    }
}

// The place with one more bit behind it, or the last one if that is less.
fn next_place(place: u32, bit: bool, last: u32) -> u32
    ensures { result ≡ min (2 * place + (if bit then 1 else 0)) last }
{
    let next = 2 * u64::from(place) + u64::from(bit);
    match u32::try_from(next) {
        Ok(next) if next < last => next,
        _ => last,
    }
}

// The number that bits mean, or the last one if that is less.
fn place_of(bits: &[bool], last: u32) -> u32
    ensures { result ≡ min (number_of bits.now) last }
{
    let mut place = 0;
    for bit in bits {
        place = next_place(place, *bit, last);
    }
    place
}

// A copy of the element of this number.
fn copy_element(alloc: Global, es: &[Term], at: u32) -> Result<Option<Term>, NoMemory>
    ensures some { IfOk result (λ r. IfSome r (λ e. element_at (terms_of es.now) at ≡ Some e)) }
    ensures none { IfOk result (λ r. IfNone r (element_at (terms_of es.now) at ≡ None)) }
{
    match es.get(at as usize) {
        Some(e) => Ok(Some(e.copy(alloc)?)),
        None => Ok(None),
    }
}

// vget @i @n @a [es ..]  ==>  the element i; so of circuits
fn by_number(alloc: Global, args: &[Arg]) -> Result<Option<Term>, NoMemory>
    ensures { IfOk result (λ r. MatchOption r ((e : TermTree) → IsElement args.now e → ⊥) (λ e. IsElement args.now e)) }
{
    let [
        Arg::OfType(i),
        Arg::OfType(_),
        Arg::OfType(_),
        Arg::OfTerm(vector),
    ] = args
    else {
        return Ok(None);
    };
    let Some(es) = elements(vector) else {
        return Ok(None);
    };
    let Some(j) = closed(alloc, i)? else {
        return Ok(None);
    };
    copy_element(alloc, es, j)
}

// In a constant vat @n @k @a [es ..] word  ==>  the element of the word's number, and behind the last one that
fn by_word(alloc: Global, mode: Mode, args: &[Arg]) -> Result<Option<Term>, NoMemory>
    ensures { IfOk result (λ r. MatchOption r ((e : TermTree) → mode ≡ K → IsElementAt args.now e → ⊥) (λ e. (mode ≡ K) × IsElementAt args.now e)) }
{
    if mode != Mode::K {
        return Ok(None);
    }
    let [
        Arg::OfType(n),
        Arg::OfType(_),
        Arg::OfType(_),
        Arg::OfTerm(vector),
        Arg::OfTerm(index),
    ] = args
    else {
        return Ok(None);
    };
    let Some(es) = elements(vector) else {
        return Ok(None);
    };
    let Some((Scalar::U, bits)) = literal_of(index) else {
        return Ok(None);
    };
    let Some(last) = closed(alloc, n)? else {
        return Ok(None);
    };
    copy_element(alloc, es, place_of(bits.as_slice(), last))
}

/// The element that is taken of a written vector by a number of its type, and in a constant by a literal.
pub(crate) fn element(
    alloc: Global,
    place: &Place,
    p: Prim,
    args: &[Arg],
) -> Result<Option<Term>, NoMemory>
    ensures { IfOk result (λ r. (o : Origins) → AnswersCore o (spot_of place.now) Elem (applied (prim p) args.now) r) }
{
    match p {
        Prim::VGet | Prim::VGetC => by_number(alloc, args),
        Prim::VAt => by_word(alloc, place.mode, args),
        _ => Ok(None),
    }
}
