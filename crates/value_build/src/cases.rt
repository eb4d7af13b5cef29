//! What a case tests, and the choice of its results.
ghost use Rattle.std.specs.Prelude.{◌≡◌, ℕ, ◌-◌, ◌∷◌, [], IfOk, OnOk};
ghost use Rattle.chw_bits.specs.Bits.{bits_of};
ghost use Rattle.chw_layout.specs.Measured.{tag_width};
ghost use Rattle.chw_terms.specs.TermView.{alts_of};
ghost use Rattle.net_built.specs.Data.{constructor_count, last_of, tested_of, word_of, words_of};
ghost use Rattle.net_built.specs.Wires.{wire, one, ◌▸◌, new_wires, wire_count, wires_from};
ghost use Rattle.net_built.specs.Words.{only};
ghost use Rattle.netlist.specs.declared.net.Cell.TheVariants.{Cut};
ghost use Rattle.chw_terms.specs.declared.term.Pattern.TheVariants.{OfCon};
ghost use Rattle.value_build.specs.Added.{next};
ghost use Rattle.value_build.specs.ReadyParts.{AreAlternatives, IsPattern};
ghost use Rattle.value_build.specs.Tests.{first_of, IsTested, IsChoice};

use crate::base::Base;
use crate::scope::{Variable, copy_wires};
use chw_base::{ConId, DataId, NoMemory, Seq, WireId};
use chw_bits::Bits;
use chw_layout::tag_width;
use chw_terms::{Alt, Pattern};
use chw_types::{Data, Ty, TyNode};
use net_pieces::{Pieces, choices, data, parts};
use std::alloc::Global;

/// What a case tests: how many bits, and on which wires.
#[derive(Drop)]
pub(crate) struct Tested {
    pub(crate) bits: u32,
    pub(crate) wires: Seq<WireId>,
}

// How many bits count the constructors of a data type.
fn tag_of(datas: &[Data], at: DataId) -> u32
    ensures { result ≡ tag_width (constructor_count datas.now at.number) }
{
    match datas.get(at.number as usize) {
        Some(it) => tag_width(it.cons.len()),
        None => tag_width(0),
    }
}

// The tag of data of so many bits, on its wire.
fn tag_tested(
    alloc: Global,
    into: &mut Pieces,
    tag: u32,
    whole: u32,
    wires: &[WireId],
) -> Result<Tested, NoMemory>
    ensures piece { OnOk result (into.new ≡ into.old ▸ one tag (Cut (wire (next into.old)) (only wires.now) (whole - 1) (whole - tag))) }
    ensures bits { IfOk result (λ on. on.bits ≡ tag) }
    ensures wires { IfOk result (λ on. on.wires ≡ new_wires (next into.old) (tag ∷ [])) }
{
    let first = into.next();
    data::upper_bits(into, whole, tag, wires)?;
    let wires = parts::new_wires(alloc, first, tag)?;
    Ok(Tested { bits: tag, wires })
}

/// Appends the cells that cut out what a case on a variable of so many bits tests.
pub(crate) fn cut_tested(
    alloc: Global,
    base: &Base<'_>,
    into: &mut Pieces,
    it: &Variable,
    whole: u32,
) -> Result<Tested, NoMemory>
    ensures { IfOk result (IsTested (tested_of base.now.datas it.now.ty whole (next into.old) it.now.wires) into.old into.new) }
{
    match &it.ty.node {
        TyNode::DataOf(at, _) => {
            let tag = tag_of(base.datas(), *at);
            tag_tested(alloc, into, tag, whole, it.wires.as_slice())
        }
        _ => {
            let wires = copy_wires(alloc, it.wires.as_slice())?;
            Ok(Tested { bits: whole, wires })
        }
    }
}

// The number of a constructor among those of its data type, as a word of so many bits.
fn constructor_word(
    alloc: Global,
    base: &Base<'_>,
    ty: &Ty,
    bits: u32,
    at: ConId,
) -> Result<Bits, NoMemory>
    requires { (n : ℕ) × IsPattern base.now.datas ty.now (OfCon at n) }
    ensures { IfOk result (λ b. b ≡ bits_of bits (at.number - first_of base.now.datas ty.now)) }
{
    let Some(it) = base.constructor(at) else {
        unreachable!();
    };
    parts::number(alloc, bits, it.place)
}

// The word of so many bits for which an alternative on values of this type stands.
fn word(alloc: Global, base: &Base<'_>, ty: &Ty, bits: u32, q: &Pattern) -> Result<Bits, NoMemory>
    requires { IsPattern base.now.datas ty.now q.now }
    ensures { IfOk result (λ b. b ≡ word_of bits (first_of base.now.datas ty.now) q.now) }
{
    match q {
        Pattern::OfCon(at, _) => constructor_word(alloc, base, ty, bits, *at),
        Pattern::OfLit(_, word) => word.copy(alloc),
        Pattern::Default => Ok(Bits::of_list(Vec::new(alloc))),
    }
}

// The words of all alternatives but the last.
fn words(
    alloc: Global,
    base: &Base<'_>,
    ty: &Ty,
    bits: u32,
    alts: &[Alt],
) -> Result<Vec<Bits>, NoMemory>
    requires { AreAlternatives base.now.datas ty.now (alts_of alts.now) }
    ensures { IfOk result (λ ws. ws.items ≡ words_of bits (first_of base.now.datas ty.now) (alts_of alts.now)) }
{
    let mut words = Vec::new(alloc);
    for i in 1..alts.len() {
        words.push(word(alloc, base, ty, bits, &alts[i - 1].pattern)?)?;
    }
    Ok(words)
}

// The last wire for a part of so many bits; none where it has no bits.
pub(crate) fn last_wires(alloc: Global, into: &Pieces, w: u32) -> Result<Seq<WireId>, NoMemory>
    ensures { IfOk result (λ wires. wires ≡ wires_from (next into.now - wire_count (w ∷ [])) (wire_count (w ∷ []))) }
{
    let count = w.min(1);
    let first = into.next().saturating_sub(count);
    parts::wires_from(alloc, first, count)
}

// The last of some lists of wires.
fn last_of(alloc: Global, results: &[Seq<WireId>]) -> Result<Seq<WireId>, NoMemory>
    ensures { IfOk result (λ wires. wires ≡ last_of results.now) }
{
    match results.last() {
        Some(last) => copy_wires(alloc, last.as_slice()),
        None => Ok(Seq::from(Vec::new(alloc))),
    }
}

/// Appends the tests for the alternatives of a case on values of this type, and the choice of their results. Gives the wires of the choice.
pub(crate) fn choice(
    alloc: Global,
    base: &Base<'_>,
    into: &mut Pieces,
    ty: &Ty,
    on: &Tested,
    alts: &[Alt],
    results: &[Seq<WireId>],
    w: u32,
) -> Result<Seq<WireId>, NoMemory>
    requires { AreAlternatives base.now.datas ty.now (alts_of alts.now) }
    ensures { IfOk result (IsChoice on.now.bits on.now.wires
        (words_of on.now.bits (first_of base.now.datas ty.now) (alts_of alts.now)) results.now w into.old into.new) }
{
    let words = words(alloc, base, ty, on.bits, alts)?;
    let tested = choices::tests(into, alloc, on.bits, on.wires.as_slice(), &words)?;
    choices::chosen(into, alloc, w, tested.as_slice(), results)?;
    if tested.is_empty() {
        return last_of(alloc, results);
    }
    last_wires(alloc, into, w)
}
