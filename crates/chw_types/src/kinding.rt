//! Which kind a type has.
ghost use Rattle.std.specs.Prelude.{◌≡◌, ◌^◌, ◌-◌, length, reverse, min, nat_le, IfOk, OnErr};
ghost use Rattle.chw_types.specs.Kinds.{degree, most_degree, KindOf, HasNoKind};
ghost use Rattle.chw_types.specs.KindFound.{kind_found, natural_kind, domain_kind, scalar_kind, vector_kind, function_kind, signal_kind, bound_kind, is_kind};

use crate::declarations::Data;
use crate::kind::Kind;
use crate::scope::Scope;
use crate::ty::{Ty, TyNode};
use chw_base::Name;

/// The greatest degree of a natural that has a kind.
const MOST_DEGREE: u32 = 4;

/// The type has no kind.
#[derive(Clone, Copy, Debug, PartialEq, Eq)]
pub struct KindFault;

/// The kind of a type, in a scope of kinds of which the first is the outermost, over these data types and domains.
///
/// `KindFault` comes exactly where the type has no kind.
pub fn kind_of(t: &Ty, scope: &[Kind], datas: &[Data], domains: &[Name]) -> Result<Kind, KindFault>
    ensures kind { IfOk result (KindOf datas.now (length domains.now) (reverse scope.now) t.now) }
    ensures fault { OnErr result (HasNoKind datas.now (length domains.now) (reverse scope.now) t.now) }
{
    let scope = Scope::outside(scope);
    match kind_in(t, &scope, datas, domains) {
        Some(kind) => Ok(kind),
        None => Err(KindFault),
    }
}

// The kind of a type under binders that were passed.
fn kind_in(t: &Ty, scope: &Scope, datas: &[Data], domains: &[Name]) -> Option<Kind>
    ensures { result ≡ kind_found datas.now (length domains.now) scope.now t.now }
{
    look_at(t, scope, datas, domains).kind
}

// What is found of a type: its kind, and the degree of a natural, at most the last value of its type.
#[derive(Clone, Copy)]
struct Looked {
    kind: Option<Kind>,
    degree: u32,
}

// The kind of a type, together with its degree: so each part of a natural is looked at once.
#[tactic(auto, unfolding(crate::specs::KindFound::kind_found), using(crate::proofs::KindsInLists::small_degree))]
fn look_at(t: &Ty, scope: &Scope, datas: &[Data], domains: &[Name]) -> Looked
    ensures kind { result.kind ≡ kind_found datas.now (length domains.now) scope.now t.now }
    ensures degree { result.degree ≡ min (degree t.now) (2 ^ 32 - 1) }
{
    match &t.node {
        TyNode::Var(at) => Looked {
            kind: scope.at(at.number),
            degree: 1,
        },
        TyNode::NatLit(_) => no_degree(Some(Kind::Nat)),
        TyNode::Sum(a, b) => {
            let a = look_at(a, &*scope, datas, domains);
            let b = look_at(b, &*scope, datas, domains);
            natural(a.degree.max(b.degree), a.kind, b.kind)
        }
        TyNode::Times(a, b) => {
            let a = look_at(a, &*scope, datas, domains);
            let b = look_at(b, &*scope, datas, domains);
            natural(a.degree.saturating_add(b.degree), a.kind, b.kind)
        }
        TyNode::DomOf(at) => no_degree(domain_kind((at.number as usize) < domains.len())),
        TyNode::Unsigned(w) | TyNode::Signed(w) | TyNode::BitVector(w) => {
            no_degree(scalar_kind(look_at(w, &*scope, datas, domains).kind))
        }
        TyNode::Vec(n, t) => {
            let n = look_at(n, &*scope, datas, domains);
            let t = look_at(t, &*scope, datas, domains);
            no_degree(vector_kind(n.kind, t.kind))
        }
        TyNode::DataOf(at, args) => {
            let Some(it) = datas.get(at.number as usize) else {
                return no_degree(None);
            };
            let params = it.params.as_slice();
            if params.len() != args.len() {
                return no_degree(None);
            }
            for (i, arg) in args.iter().enumerate() {
                if !is_kind(look_at(arg, &*scope, datas, domains).kind, params[i]) {
                    return no_degree(None);
                }
            }
            no_degree(Some(it.kind))
        }
        TyNode::Fun(a, b) => {
            let a = look_at(a, &*scope, datas, domains);
            let b = look_at(b, &*scope, datas, domains);
            no_degree(function_kind(a.kind, b.kind))
        }
        TyNode::Signal(d, t) => {
            let d = look_at(d, &*scope, datas, domains);
            let t = look_at(t, &*scope, datas, domains);
            no_degree(signal_kind(d.kind, t.kind))
        }
        TyNode::Forall(k, t) => {
            let inner = (&*scope).under(*k);
            no_degree(bound_kind(look_at(t, &inner, datas, domains).kind))
        }
    }
}

// What is found of a type that is no natural in variables.
fn no_degree(kind: Option<Kind>) -> Looked
    ensures kind { result.kind ≡ kind }
    ensures degree { result.degree ≡ 0 }
{
    Looked { kind, degree: 0 }
}

// What is found of a sum or product of this degree.
fn natural(degree: u32, a: Option<Kind>, b: Option<Kind>) -> Looked
    ensures kind { result.kind ≡ natural_kind (nat_le degree most_degree) a b }
    ensures degree { result.degree ≡ degree }
{
    Looked {
        kind: natural_kind(degree <= MOST_DEGREE, a, b),
        degree,
    }
}

fn natural_kind(small: bool, a: Option<Kind>, b: Option<Kind>) -> Option<Kind>
    ensures { result ≡ natural_kind small a b }
{
    match (small, a, b) {
        (true, Some(Kind::Nat), Some(Kind::Nat)) => Some(Kind::Nat),
        _ => None,
    }
}

fn domain_kind(known: bool) -> Option<Kind>
    ensures { result ≡ domain_kind known }
{
    if known { Some(Kind::Dom) } else { None }
}

fn scalar_kind(width: Option<Kind>) -> Option<Kind>
    ensures { result ≡ scalar_kind width }
{
    match width {
        Some(Kind::Nat) => Some(Kind::Val),
        _ => None,
    }
}

fn vector_kind(len: Option<Kind>, of: Option<Kind>) -> Option<Kind>
    ensures { result ≡ vector_kind len of }
{
    match (len, of) {
        (Some(Kind::Nat), Some(Kind::Val)) => Some(Kind::Val),
        (Some(Kind::Nat), Some(Kind::Cir)) => Some(Kind::Cir),
        _ => None,
    }
}

fn function_kind(from: Option<Kind>, to: Option<Kind>) -> Option<Kind>
    ensures { result ≡ function_kind from to }
{
    match (from, to) {
        (Some(Kind::Val), Some(Kind::Val)) => Some(Kind::Val),
        (Some(Kind::Val), Some(Kind::Cir)) => Some(Kind::Cir),
        (Some(Kind::Cir), Some(Kind::Cir)) => Some(Kind::Cir),
        _ => None,
    }
}

fn signal_kind(dom: Option<Kind>, of: Option<Kind>) -> Option<Kind>
    ensures { result ≡ signal_kind dom of }
{
    match (dom, of) {
        (Some(Kind::Dom), Some(Kind::Val)) => Some(Kind::Cir),
        _ => None,
    }
}

fn bound_kind(of: Option<Kind>) -> Option<Kind>
    ensures { result ≡ bound_kind of }
{
    match of {
        Some(Kind::Val) => Some(Kind::Val),
        Some(Kind::Cir) => Some(Kind::Cir),
        _ => None,
    }
}

fn is_kind(found: Option<Kind>, asked: Kind) -> bool
    ensures { result ≡ is_kind found asked }
{
    found == Some(asked)
}
