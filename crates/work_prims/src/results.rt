//! Primitives on words in constants.
ghost use Rattle.std.specs.Prelude.{◌≡◌, ℕ, Bool, List, map, length, IfOk, IfSome, IfNone, MatchOption};
ghost use Rattle.chw_types.specs.declared.kind.Scalar.{Scalar};
ghost use Rattle.chw_types.specs.TypeTree.{nat_lit};
ghost use Rattle.chw_prims.specs.Schemas.{bool, row_type};
ghost use Rattle.chw_terms.specs.declared.rule.Rule.TheVariants.{Delta};
ghost use Rattle.chw_terms.specs.declared.term.Arg.TheVariants.{OfTerm};
ghost use Rattle.chw_terms.specs.Evaluated.{evaluated};
ghost use Rattle.chw_terms.specs.TermTree.{TermTree, prim, con, lit};
ghost use Rattle.chw_terms.specs.TermView.{applied};
ghost use Rattle.rewriting.specs.Origins.{Origins};
ghost use Rattle.rewriting.specs.Spots.{spot_of};
ghost use Rattle.prim_bits.specs.Widths.{TakesNumbers};
ghost use Rattle.rewriting.specs.Primitives.{word_given};
ghost use Rattle.rule_parts.specs.Cores.{AnswersCore};
ghost use Rattle.work_prims.specs.Given.{AreWords};
ghost use Rattle.work_prims.specs.Results.{IsResult, IsResultOn};

use crate::given::{closed, literal_of, split_types};
use crate::widths::takes_numbers;
use chw_base::{ConId, NoMemory};
use chw_bits::Bits;
use chw_prims::{Prim, Row};
use chw_terms::{Arg, Mode, Place, Scalar, Term};
use chw_types::Ty;
use prim_bits::apply;
use std::alloc::Global;

// The numbers that types are, where all are closed naturals.
fn numbers(alloc: Global, types: &[Ty]) -> Result<Option<Vec<u32>>, NoMemory>
    ensures some { IfOk result (λ r. IfSome r (λ ns. map evaluated types.now ≡ map (λ n. nat_lit n) ns.items)) }
    ensures none { IfOk result (λ r. IfNone r ((ns : List ℕ) → map evaluated types.now ≡ map (λ n. nat_lit n) ns → ⊥)) }
{
    let mut done = Vec::new(alloc);
    for ty in types {
        let Some(n) = closed(alloc, ty)? else {
            return Ok(None);
        };
        done.push(n)?;
    }
    Ok(Some(done))
}

// The bits of an argument that is a literal.
fn word(arg: &Arg) -> Option<&Bits>
    ensures some { IfSome result (λ bits. (x : Scalar) × (arg.now ≡ OfTerm (lit x bits.now))) }
    ensures none { IfNone result ((x : Scalar) (bits : List Bool) → arg.now ≡ OfTerm (lit x bits) → ⊥) }
{
    let Arg::OfTerm(e) = arg else {
        return None;
    };
    match literal_of(e) {
        Some((_, bits)) => Some(bits),
        None => None,
    }
}

// The bits of arguments, where all are literals.
fn words(alloc: Global, args: &[Arg]) -> Result<Option<Vec<Bits>>, NoMemory>
    ensures some { IfOk result (λ r. IfSome r (λ words. AreWords args.now words.items)) }
    ensures none { IfOk result (λ r. IfNone r ((words : List (List Bool)) → AreWords args.now words → ⊥)) }
{
    let mut done = Vec::new(alloc);
    for arg in args {
        let Some(bits) = word(arg) else {
            return Ok(None);
        };
        done.push(bits.copy(alloc)?)?;
    }
    Ok(Some(done))
}

// True for the one bit 1, else False.
fn truth(bits: &Bits) -> ConId
    ensures { con result.number ≡ word_given bool bits.now }
{
    let number = u32::from(bits.len() == 1 && bits.at(0));
    ConId { number }
}

// A word that a line's primitives give, as a literal or a constructor.
fn given(alloc: Global, row: Row, bits: Bits) -> Term
    ensures { result ≡ word_given (row_type row) bits }
{
    match row {
        Row::Binary(x) | Row::WideSum(x) | Row::WideProduct(x) | Row::Unary(x) | Row::Shift(x) =>
            Term::lit(alloc, x, bits),
        Row::Extend(x) | Row::Truncate(x) | Row::Unpacked(x) => Term::lit(alloc, x, bits),
        Row::Cut | Row::Joined | Row::Packed(_) => Term::lit(alloc, Scalar::B, bits),
        _ => {
            let number = truth(&bits);
            drop(bits);
            Term::con(alloc, number)
        }
    }
}

// The value of a primitive at natural arguments on words, where it takes them within the limits.
fn value(alloc: Global, p: Prim, nats: &[u32], words: &[Bits]) -> Result<Option<Term>, NoMemory>
    ensures { IfOk result (λ r. MatchOption r (TakesNumbers p nats.now (map length words.now) → ⊥) (λ e. IsResult p nats.now words.now e)) }
{
    if !takes_numbers(p, nats, words) {
        return Ok(None);
    }
    let bits = apply(alloc, p, nats, words)?;
    Ok(Some(given(alloc, Row::of(p), bits)))
}

// The same at types on terms as arguments.
fn value_on(alloc: Global, p: Prim, types: &[Ty], rest: &[Arg]) -> Result<Option<Term>, NoMemory>
    ensures { IfOk result (λ r. MatchOption r ((e : TermTree) → IsResultOn p types.now rest.now e → ⊥) (λ e. IsResultOn p types.now rest.now e)) }
{
    let Some(nats) = numbers(alloc, types)? else {
        return Ok(None);
    };
    let Some(words) = words(alloc, rest)? else {
        return Ok(None);
    };
    value(alloc, p, &nats, &words)
}

/// In a constant p @types words  ==>  its value, a literal or a constructor of Bool
pub(crate) fn delta(
    alloc: Global,
    place: &Place,
    p: Prim,
    args: &[Arg],
) -> Result<Option<Term>, NoMemory>
    ensures { IfOk result (λ r. (o : Origins) → AnswersCore o (spot_of place.now) Delta (applied (prim p) args.now) r) }
{
    let Mode::K = place.mode else {
        return Ok(None);
    };
    let (types, rest) = split_types(alloc, args)?;
    let value = value_on(alloc, p, &types, rest);
    drop(types);
    value
}
