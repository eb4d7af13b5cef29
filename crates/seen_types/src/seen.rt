//! Types that are seen where they are written, or made.
ghost use Rattle.std.specs.Prelude.{◌≡◌, IfOk, IfSome, MatchOption};
ghost use Rattle.chw_types.specs.TypeTree.{nat_lit, vector, fun, for_all};
ghost use Rattle.chw_types.specs.TypeMoves.{shift};

use chw_base::{NoMemory, TyIx};
use chw_types::{Kind, Ty, TyNode, shift_type};
use std::alloc::Global;
use std::marker::Model;

/// A type that is written in the description, or that was made. Contracts see the type.
#[derive(Drop)]
pub struct Seen<'t> {
    form: Form<'t>,
}

#[derive(Drop)]
enum Form<'t> {
    Written(&'t Ty),
    Made(Ty),
}

impl<'t> Model for Seen<'t> {
    ghost use Rattle.chw_types.specs.TypeTree.{TypeTree};
    ghost use Rattle.chw_types.specs.TypeCode.{coded_tree};

    ghost Value = { TypeTree };

    ghost coded = { coded_tree };

    ghost use Rattle.seen_types.specs.SeenView.{type_seen};

    ghost view = { λ s. type_seen s.form };
}

impl<'t> Seen<'t> {
    /// A type that is written.
    pub fn written(ty: &'t Ty) -> Seen<'t>
        ensures { result ≡ ty.now }
    {
        Seen {
            form: Form::Written(ty),
        }
    }

    /// A type that was made.
    pub fn made(ty: Ty) -> Seen<'t>
        ensures { result ≡ ty }
    {
        Seen {
            form: Form::Made(ty),
        }
    }

    /// The type itself.
    pub fn ty(&self) -> &Ty
        ensures { result.now ≡ self.now }
    {
        match &self.form {
            Form::Written(ty) => ty,
            Form::Made(ty) => ty,
        }
    }

    /// The type, where it is written.
    pub fn if_written(&self) -> Option<&'t Ty>
        ensures { IfSome result (λ t. t.now ≡ self.now) }
    {
        match &self.form {
            Form::Written(ty) => Some(*ty),
            Form::Made(_) => None,
        }
    }

    /// The type on its own: a written one is copied.
    pub fn into_ty(self, alloc: Global) -> Result<Ty, NoMemory>
        ensures { IfOk result (λ t. t ≡ self.entry) }
    {
        match self.form {
            Form::Written(ty) => Ok(ty.copy(alloc)?),
            Form::Made(ty) => Ok(ty),
        }
    }

    /// The same type once more: a made one is copied.
    pub(crate) fn again(&self, alloc: Global) -> Result<Seen<'t>, NoMemory>
        ensures { IfOk result (λ r. r ≡ self.now) }
    {
        match &self.form {
            Form::Written(ty) => Ok(Seen::written(*ty)),
            Form::Made(ty) => Ok(Seen::made(ty.copy(alloc)?)),
        }
    }

    /// The parameter's type and the result's, of a function type.
    pub fn into_function(self) -> Option<(Seen<'t>, Seen<'t>)>
        ensures { MatchOption result ((a b : _) → self.entry ≡ fun a b → ⊥) (λ p. self.entry ≡ fun p.0 p.1) }
    {
        match self.form {
            Form::Written(ty) => written_parts(ty),
            Form::Made(ty) => made_parts(ty),
        }
    }

    /// The kind of the variable and the type that binds it, of a type with a type parameter.
    pub fn into_bound(self) -> Option<(Kind, Seen<'t>)>
        ensures { MatchOption result ((k t : _) → self.entry ≡ for_all k t → ⊥) (λ p. self.entry ≡ for_all p.0 p.1) }
    {
        match self.form {
            Form::Written(ty) => written_bound(ty),
            Form::Made(ty) => made_bound(ty),
        }
    }
}

// The parts of a written type with a type parameter.
fn written_bound<'t>(ty: &'t Ty) -> Option<(Kind, Seen<'t>)>
    ensures { MatchOption result ((k t : _) → ty.now ≡ for_all k t → ⊥) (λ p. ty.now ≡ for_all p.0 p.1) }
{
    match &ty.node {
        TyNode::Forall(kind, of) => Some((*kind, Seen::written(&**of))),
        _ => None,
    }
}

// The parts of a made type with a type parameter.
fn made_bound<'t>(ty: Ty) -> Option<(Kind, Seen<'t>)>
    ensures { MatchOption result ((k t : _) → ty ≡ for_all k t → ⊥) (λ p. ty ≡ for_all p.0 p.1) }
{
    match ty.node {
        TyNode::Forall(kind, of) => Some((kind, Seen::made(Box::into_inner(of)))),
        _ => None,
    }
}

// The parts of a function type that is written.
fn written_parts<'t>(ty: &'t Ty) -> Option<(Seen<'t>, Seen<'t>)>
    ensures { MatchOption result ((a b : _) → ty.now ≡ fun a b → ⊥) (λ p. ty.now ≡ fun p.0 p.1) }
{
    match &ty.node {
        TyNode::Fun(from, to) => Some((Seen::written(&**from), Seen::written(&**to))),
        _ => None,
    }
}

// The parts of a function type that was made.
fn made_parts<'t>(ty: Ty) -> Option<(Seen<'t>, Seen<'t>)>
    ensures { MatchOption result ((a b : _) → ty ≡ fun a b → ⊥) (λ p. ty ≡ fun p.0 p.1) }
{
    match ty.node {
        TyNode::Fun(from, to) => {
            Some((
                Seen::made(Box::into_inner(from)),
                Seen::made(Box::into_inner(to)),
            ))
        }
        _ => None,
    }
}

/// A written type, raised by so many type binders.
///
/// Where a type variable would pass 32 bits, the answer is want of memory.
#[tactic(auto, using(crate::proofs::Staying::not_raised))]
pub fn raised<'t>(alloc: Global, ty: &'t Ty, by: u32) -> Result<Seen<'t>, NoMemory>
    ensures { IfOk result (λ r. r ≡ shift ty.now 0 by) }
{
    if by == 0 {
        return Ok(Seen::written(ty));
    }
    Ok(Seen::made(shift_type(alloc, ty, TyIx { number: 0 }, by)?))
}

/// A type that was seen, raised by so many type binders.
///
/// Where a type variable would pass 32 bits, the answer is want of memory.
#[tactic(auto, using(crate::proofs::Staying::not_raised))]
pub fn raised_again<'t>(alloc: Global, seen: &Seen<'t>, by: u32) -> Result<Seen<'t>, NoMemory>
    ensures { IfOk result (λ r. r ≡ shift seen.now 0 by) }
{
    if by == 0 {
        return Ok(seen.again(alloc)?);
    }
    Ok(Seen::made(shift_type(alloc, seen.ty(), TyIx { number: 0 }, by)?))
}

/// The same, where the type isn't needed any more as it was.
#[tactic(auto, using(crate::proofs::Staying::not_raised))]
pub fn raised_on<'t>(alloc: Global, seen: Seen<'t>, by: u32) -> Result<Seen<'t>, NoMemory>
    ensures { IfOk result (λ r. r ≡ shift seen.entry 0 by) }
{
    if by == 0 {
        return Ok(seen);
    }
    Ok(Seen::made(shift_type(alloc, seen.ty(), TyIx { number: 0 }, by)?))
}

/// The type of functions from a written type.
pub fn function<'t>(alloc: Global, from: &Ty, to: Seen<'t>) -> Result<Seen<'t>, NoMemory>
    ensures { IfOk result (λ r. r ≡ fun from.now to.entry) }
{
    let to = to.into_ty(alloc)?;
    Ok(Seen::made(Ty::fun(alloc, from.copy(alloc)?, to)?))
}

/// A type under one more binder.
pub fn for_all<'t>(alloc: Global, kind: Kind, of: Seen<'t>) -> Result<Seen<'t>, NoMemory>
    ensures { IfOk result (λ r. r ≡ for_all kind of.entry) }
{
    let of = of.into_ty(alloc)?;
    Ok(Seen::made(Ty::forall(alloc, kind, of)?))
}

/// The type of vectors of so many elements of a written type.
pub fn vector<'t>(alloc: Global, len: u32, of: &Ty) -> Result<Seen<'t>, NoMemory>
    ensures { IfOk result (λ r. r ≡ vector (nat_lit len) of.now) }
{
    Ok(Seen::made(Ty::vec(alloc, Ty::nat(len), of.copy(alloc)?)?))
}
