//! A letrec that is taken apart.
ghost use Rattle.std.specs.Prelude.{◌≡◌, ◌++◌, [], ◌<◌, length, IfOk, OnOk, OnErr};
ghost use Rattle.chw_types.specs.TypeMoves.{Renaming};
ghost use Rattle.chw_terms.specs.TermMoves.{rename};
ghost use Rattle.open_letrec.specs.Opened.{with_side, settled_one, joined_one, IsCurrent};

use crate::parts::{exchange_all, move_group, move_term, store_all, swap_last, turn};
use crate::places::{Places, Way};
use chw_base::{DefId, NoMemory};
use chw_terms::{Binding, Term};
use std::alloc::Global;
use std::marker::Model;

/// A letrec that is taken apart. Contracts see the bindings that are settled, those that are left, and the body, with indices for
/// variables. The first binding that is left is current.
#[derive(Drop)]
pub struct OpenLetrec {
    settled: Vec<Binding>,
    // The others, the last one first.
    waiting: Vec<Binding>,
    body: Term,
    places: Places,
}

impl Model for OpenLetrec {
    ghost use Rattle.open_letrec.specs.Opened.{Opened, coded_opened};

    ghost Value = { Opened };

    ghost coded = { coded_opened };

    ghost use Rattle.open_letrec.specs.Stored.{view_of, IsSound};

    ghost view = { view_of };

    ghost invariant = { IsSound };
}

impl OpenLetrec {
    /// The letrec of these bindings in this body. None is settled. Time is linear in the letrec.
    pub fn open(alloc: Global, group: Vec<Binding>, body: Term) -> Result<OpenLetrec, NoMemory>
        ensures { IfOk result (λ o. o ≡ record { settled = []; left = group.items; body = body }) }
    {
        let mut places = Places::none(alloc);
        places.grow(group.len())?;
        let mut waiting = group;
        turn(&mut waiting);
        move_group(&mut waiting, &places, Way::Store)?;
        let mut body = body;
        move_term(&mut body, &places, Way::Store)?;
        Ok(OpenLetrec {
            settled: Vec::new(alloc),
            waiting,
            body,
            places,
        })
    }

    /// The bindings and the body. Time is linear in the letrec.
    pub fn close(self) -> Result<(Vec<Binding>, Term), NoMemory>
        ensures group { IfOk result (λ r. r.0.items ≡ self.settled ++ self.left) }
        ensures body { IfOk result (λ r. r.1 ≡ self.body) }
    {
        let OpenLetrec {
            settled,
            waiting,
            body,
            places,
        } = self;
        let mut group = settled;
        let mut waiting = waiting;
        turn(&mut waiting);
        group.append(&mut waiting)?;
        move_group(&mut group, &places, Way::Show)?;
        let mut body = body;
        move_term(&mut body, &places, Way::Show)?;
        Ok((group, body))
    }

    /// How many bindings are settled.
    pub fn settled(&self) -> usize
        ensures { result ≡ length self.now.settled }
    {
        self.settled.len()
    }

    /// How many are left.
    pub fn left(&self) -> usize
        ensures { result ≡ length self.now.left }
    {
        self.waiting.len()
    }

    /// The right side of the current binding as it is stored, with other numbers for variables.
    pub fn stored(&self) -> &Term
        requires { 0 < length self.now.left }
        ensures { (ρ : Renaming) × IsCurrent self.now (rename result.now ρ) }
    {
        let last = self.waiting.len() - 1;
        let binding = &self.waiting[last];
        &binding.body
    }

    /// Takes the right side of the current binding out. Until one is put, another one stands there.
    pub fn take_current(&mut self, alloc: Global) -> Result<Term, NoMemory>
        requires { 0 < length self.old.left }
        ensures { IfOk result (λ e. self.old ≡ with_side self.new e) }
    {
        let mut side = Term::global(alloc, DefId { number: 0 });
        swap_last(&mut self.waiting, &mut side);
        move_term(&mut side, &self.places, Way::Show)?;
        Ok(side)
    }

    /// Puts another right side of the current binding. Where no memory is found, all is as it was.
    pub fn put_current(&mut self, side: Term) -> Result<(), NoMemory>
        requires { 0 < length self.old.left }
        ensures put { OnOk result (self.new ≡ with_side self.old side) }
        ensures refused { OnErr result (self.new ≡ self.old) }
    {
        let mut side = side;
        move_term(&mut side, &self.places, Way::Store)?;
        swap_last(&mut self.waiting, &mut side);
        drop(side);
        Ok(())
    }

    /// Settles the current binding, in constant time.
    pub fn settle(self) -> Result<OpenLetrec, NoMemory>
        requires { 0 < length self.left }
        ensures { IfOk result (λ o. o ≡ settled_one self) }
    {
        let OpenLetrec {
            mut settled,
            mut waiting,
            body,
            mut places,
        } = self;
        places.settle()?;
        let Some(binding) = waiting.pop() else {
            unreachable!()
        };
        settled.push(binding)?;
        Ok(OpenLetrec {
            settled,
            waiting,
            body,
            places,
        })
    }

    /// The letrec of `cs` in `e`, which was the current right side, joins. The first one of `cs` is current. Time is linear in `cs` and
    /// `e`.
    pub fn join(self, cs: Vec<Binding>, e: Term) -> Result<OpenLetrec, NoMemory>
        requires { 0 < length self.left }
        ensures { IfOk result (λ o. o ≡ joined_one self cs.items e) }
    {
        let OpenLetrec {
            settled,
            mut waiting,
            body,
            mut places,
        } = self;
        let mut cs = cs;
        let mut e = e;
        exchange_all(&mut cs, &mut e, waiting.len())?;
        store_all(&mut places, &mut cs, &mut e)?;
        swap_last(&mut waiting, &mut e);
        turn(&mut cs);
        waiting.append(&mut cs)?;
        drop(e);
        Ok(OpenLetrec {
            settled,
            waiting,
            body,
            places,
        })
    }
}
