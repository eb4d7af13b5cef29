//! The text of a type.
ghost use Rattle.std.specs.Prelude.{◌≡◌, ◌+◌, ◌++◌, codes, decimal, IfOk};
ghost use Rattle.std.specs.List.{slice_get};
ghost use Rattle.type_ports.specs.TypeText.{tightness, grouped, placed, pair_text, variable_text, domain_text, data_text, kind_text, scalar_text, text_under, type_text};

use chw_base::{Name, NoMemory};
use chw_types::{Data, Kind, Scalar, Ty, TyNode, sort_of};
use itoa::Buffer;
use std::alloc::Global;

/// The text of a type, with one space between tokens and parentheses only where they are needed.
///
/// The binder at level k from the outside binds `t` and k. A variable that isn't bound in the type, a domain without a name and a data
/// type that isn't among these are each `_` and its number.
pub fn type_text(alloc: Global, t: &Ty, datas: &[Data], domains: &[Name]) -> Result<Name, NoMemory>
    ensures { IfOk result (λ text. text ≡ type_text datas.now domains.now t.now) }
{
    let text = text_under(alloc, t, 0, datas, domains)?;
    Ok(Name::from(text))
}

// How tightly a type's text holds together.
fn tightness(t: &Ty) -> u32
    ensures { result ≡ tightness t.now }
{
    match &t.node {
        TyNode::Fun(_, _) => 0,
        TyNode::Forall(_, _) => 0,
        TyNode::Sum(_, _) => 1,
        TyNode::Times(_, _) => 2,
        TyNode::Unsigned(_) => 3,
        TyNode::Signed(_) => 3,
        TyNode::BitVector(_) => 3,
        TyNode::Vec(_, _) => 3,
        TyNode::Signal(_, _) => 3,
        TyNode::DataOf(_, args) => { if args.is_empty() { 4 } else { 3 } }
        _ => 4,
    }
}

// A text with more behind it.
fn joined(mut text: Vec<u8>, sign: &[u8], more: &[u8]) -> Result<Vec<u8>, NoMemory>
    ensures { IfOk result (λ r. r.items ≡ text.items ++ sign.now ++ more.now) }
{
    text.extend_from_slice(sign)?;
    text.extend_from_slice(more)?;
    Ok(text)
}

// A text, in parentheses where this says so.
fn grouped(alloc: Global, needed: bool, text: Vec<u8>) -> Result<Vec<u8>, NoMemory>
    ensures { IfOk result (λ r. r.items ≡ grouped needed text.items) }
{
    if !needed {
        return Ok(text);
    }
    let open = Vec::from_slice(alloc, b"( ")?;
    joined(open, &text, b" )")
}

// A word and a number.
fn numbered(alloc: Global, word: &[u8], number: u32) -> Result<Vec<u8>, NoMemory>
    ensures { IfOk result (λ r. r.items ≡ word.now ++ decimal number) }
{
    let mut buffer = Buffer::new();
    let mut text = Vec::from_slice(alloc, word)?;
    text.extend_from_slice(buffer.format(number).as_bytes())?;
    Ok(text)
}

fn variable_text(alloc: Global, under: u32, number: u32) -> Result<Vec<u8>, NoMemory>
    ensures { IfOk result (λ r. r.items ≡ variable_text under number) }
{
    if number < under {
        numbered(alloc, b"t", under - 1 - number)
    } else {
        numbered(alloc, b"_", number)
    }
}

fn domain_text(alloc: Global, domains: &[Name], number: u32) -> Result<Vec<u8>, NoMemory>
    ensures { IfOk result (λ r. r.items ≡ domain_text (slice_get domains.now number) number) }
{
    let at = number as usize;
    if at < domains.len() {
        Ok(Vec::from_slice(alloc, domains[at].as_slice())?)
    } else {
        numbered(alloc, b"_", number)
    }
}

fn data_text(alloc: Global, datas: &[Data], number: u32) -> Result<Vec<u8>, NoMemory>
    ensures { IfOk result (λ r. r.items ≡ data_text (slice_get datas.now number) number) }
{
    let at = number as usize;
    if at < datas.len() {
        Ok(Vec::from_slice(alloc, datas[at].name.as_slice())?)
    } else {
        numbered(alloc, b"_", number)
    }
}

fn kind_text(alloc: Global, kind: Kind) -> Result<Vec<u8>, NoMemory>
    ensures { IfOk result (λ r. r.items ≡ kind_text kind) }
{
    match kind {
        Kind::Nat => Ok(Vec::from_slice(alloc, b"Nat")?),
        Kind::Dom => Ok(Vec::from_slice(alloc, b"Dom")?),
        Kind::Val => Ok(Vec::from_slice(alloc, b"Val")?),
        Kind::Cir => Ok(Vec::from_slice(alloc, b"Cir")?),
    }
}

fn scalar_text(alloc: Global, sort: Scalar) -> Result<Vec<u8>, NoMemory>
    ensures { IfOk result (λ r. r.items ≡ scalar_text sort) }
{
    match sort {
        Scalar::U => Ok(Vec::from_slice(alloc, b"Unsigned")?),
        Scalar::S => Ok(Vec::from_slice(alloc, b"Signed")?),
        Scalar::B => Ok(Vec::from_slice(alloc, b"BitVector")?),
    }
}

// One more binder.
fn deeper(under: u32) -> Result<u32, NoMemory>
    ensures { IfOk result (λ n. n ≡ under + 1) }
{
    under.checked_add(1).ok_or(NoMemory)
}

// What opens a type with a binder.
fn binder_text(alloc: Global, under: u32, kind: Kind) -> Result<Vec<u8>, NoMemory>
    ensures { IfOk result (λ r. r.items ≡ (codes "forall ( t" ++ decimal under) ++ codes " : " ++ kind_text kind) }
{
    let open = numbered(alloc, b"forall ( t", under)?;
    let kind = kind_text(alloc, kind)?;
    joined(open, b" : ", &kind)
}

// A type's text, in parentheses where it holds together less tightly than this.
fn placed(alloc: Global, t: &Ty, least: u32, text: Vec<u8>) -> Result<Vec<u8>, NoMemory>
    ensures { IfOk result (λ r. r.items ≡ placed least t.now text.items) }
{
    Ok(grouped(alloc, tightness(t) < least, text)?)
}

// A word and the texts of two types that it is applied to.
fn applied(
    alloc: Global,
    word: &[u8],
    a: &Ty,
    left: Vec<u8>,
    b: &Ty,
    right: Vec<u8>,
) -> Result<Vec<u8>, NoMemory>
    ensures { IfOk result (λ r. r.items ≡ (word.now ++ codes " " ++ placed 4 a.now left.items) ++ codes " " ++ placed 4 b.now right.items) }
{
    let left = placed(alloc, a, 4, left)?;
    let right = placed(alloc, b, 4, right)?;
    let text = joined(Vec::from_slice(alloc, word)?, b" ", &left)?;
    Ok(joined(text, b" ", &right)?)
}

// The text of a type of two parts, from the texts of the parts.
fn pair_text(alloc: Global, t: &Ty, left: Vec<u8>, right: Vec<u8>) -> Result<Vec<u8>, NoMemory>
    ensures { IfOk result (λ r. r.items ≡ pair_text t.now left.items right.items) }
{
    match &t.node {
        TyNode::Sum(a, b) => {
            let left = placed(alloc, a, 1, left)?;
            let right = placed(alloc, b, 2, right)?;
            Ok(joined(left, b" + ", &right)?)
        }
        TyNode::Times(a, b) => {
            let left = placed(alloc, a, 2, left)?;
            let right = placed(alloc, b, 3, right)?;
            Ok(joined(left, b" * ", &right)?)
        }
        TyNode::Vec(n, t) => Ok(applied(alloc, b"Vec", n, left, t, right)?),
        TyNode::Fun(a, _) => {
            let left = placed(alloc, a, 1, left)?;
            Ok(joined(left, b" -> ", &right)?)
        }
        TyNode::Signal(d, t) => Ok(applied(alloc, b"Signal", d, left, t, right)?),
        _ => Ok(left),
    }
}

#[tactic(auto, unfolding(crate::specs::TypeText::text_under))]
fn text_under(
    alloc: Global,
    t: &Ty,
    under: u32,
    datas: &[Data],
    domains: &[Name],
) -> Result<Vec<u8>, NoMemory>
    ensures { IfOk result (λ r. r.items ≡ text_under datas.now domains.now under t.now) }
{
    match &t.node {
        TyNode::Var(x) => Ok(variable_text(alloc, under, x.number)?),
        TyNode::NatLit(n) => Ok(numbered(alloc, b"", *n)?),
        TyNode::DomOf(d) => Ok(domain_text(alloc, domains, d.number)?),
        TyNode::Unsigned(w) | TyNode::Signed(w) | TyNode::BitVector(w) => {
            let width = text_under(alloc, w, under, datas, domains)?;
            let width = placed(alloc, w, 4, width)?;
            Ok(joined(scalar_text(alloc, sort_of(t))?, b" ", &width)?)
        }
        TyNode::Sum(a, b)
        | TyNode::Times(a, b)
        | TyNode::Vec(a, b)
        | TyNode::Fun(a, b)
        | TyNode::Signal(a, b) => {
            let left = text_under(alloc, a, under, datas, domains)?;
            let right = text_under(alloc, b, under, datas, domains)?;
            Ok(pair_text(alloc, t, left, right)?)
        }
        TyNode::DataOf(d, args) => {
            let mut text = data_text(alloc, datas, d.number)?;
            for arg in args {
                let more = text_under(alloc, arg, under, datas, domains)?;
                let more = placed(alloc, arg, 4, more)?;
                text = joined(text, b" ", &more)?;
            }
            Ok(text)
        }
        TyNode::Forall(k, t) => {
            let binder = binder_text(alloc, under, *k)?;
            let of = text_under(alloc, t, deeper(under)?, datas, domains)?;
            Ok(joined(binder, b" ) . ", &of)?)
        }
    }
}
