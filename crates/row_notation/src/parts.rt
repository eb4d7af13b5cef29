//! The parts of a group, by their sorts.
use crate::words::{kind, leaf, literal, pattern};
use chw_base::{DataId, Name, Or, Seq, TyIx, VarIx};
use chw_terms::{Alt, Arg, Binding, Head, Term};
use chw_types::{ConDecl, Data, Kind, Ty, TyNode};
use row_tables::Unread;
use std::alloc::Global;
use std::mem;

/// The parts of a text or of a group in parentheses, each sort in its order.
#[derive(Drop)]
pub struct Parts<'a> {
    /// The word that says what the group is; none in an application and in a binding.
    form: &'a str,
    pub kinds: Vec<Kind>,
    pub types: Vec<Ty>,
    /// In a group without a form the first term is applied to what stands behind it.
    pub terms: Vec<Term>,
    bindings: Vec<Binding>,
    alts: Vec<Alt>,
    cons: Vec<ConDecl>,
    pub datas: Vec<Data>,
}

impl<'a> Parts<'a> {
    /// No parts, of what this form says.
    pub(crate) fn new(alloc: Global, form: &'a str) -> Parts<'a> {
        Parts {
            form,
            kinds: Vec::new(alloc),
            types: Vec::new(alloc),
            terms: Vec::new(alloc),
            bindings: Vec::new(alloc),
            alts: Vec::new(alloc),
            cons: Vec::new(alloc),
            datas: Vec::new(alloc),
        }
    }

    /// The type at a place among the types, the first one at 0.
    pub fn ty(&self, place: usize) -> Result<&Ty, Or<Unread>> {
        self.types.get(place).ok_or(Or::Fault(Unread))
    }

    /// The term at a place among the terms, the first one at 0.
    pub fn term(&self, place: usize) -> Result<&Term, Or<Unread>> {
        self.terms.get(place).ok_or(Or::Fault(Unread))
    }

    /// The numeral at a place among the types.
    pub fn number(&self, place: usize) -> Result<u32, Or<Unread>> {
        match &self.ty(place)?.node {
            TyNode::NatLit(number) => Ok(*number),
            _ => Err(Or::Fault(Unread)),
        }
    }

    /// The type variable at a place among the types.
    pub fn ty_var(&self, place: usize) -> Result<TyIx, Or<Unread>> {
        match &self.ty(place)?.node {
            TyNode::Var(at) => Ok(*at),
            _ => Err(Or::Fault(Unread)),
        }
    }

    /// The variable at a place among the terms.
    pub fn var(&self, place: usize) -> Result<VarIx, Or<Unread>> {
        match &self.term(place)?.head {
            Head::Var(at) => Ok(*at),
            _ => Err(Or::Fault(Unread)),
        }
    }

    /// Adds what a word says.
    pub(crate) fn add_word(&mut self, alloc: Global, word: &'a str) -> Option<()> {
        if let Some(kind) = kind(word) {
            return self.kinds.push(kind).ok();
        }
        if let Some(part) = leaf(alloc, word) {
            return self.add(part);
        }
        // A literal at the beginning of a group is that of an alternative.
        if self.form.is_empty() && self.types.is_empty() && self.terms.is_empty() {
            self.form = word;
            return Some(());
        }
        let (sort, bits) = literal(alloc, word)?;
        self.add(Arg::OfTerm(Term::lit(alloc, sort, bits)))
    }

    /// Adds what a group with these parts says, and takes them.
    pub(crate) fn add_group(&mut self, alloc: Global, group: &mut Parts<'a>) -> Option<()> {
        match group.form {
            "" => self.add_plain(group),
            "lam" | "ty" | "rec" | "vec" | "case" => {
                let head = group.head(alloc)?;
                self.add(Arg::OfTerm(Term::of_head(alloc, head)))
            }
            "+" | "*" | ">" | "V" | "G" | "U" | "S" | "B" | "data" | "all" => {
                let node = group.node(alloc)?;
                self.add(Arg::OfType(Ty { node }))
            }
            form if form.starts_with(|sign: char| sign.is_ascii_uppercase()) => {
                self.add_declared(alloc, group)
            }
            form => {
                let pattern = pattern(alloc, form)?;
                let body = group.terms.pop()?;
                self.alts.push(Alt { pattern, body }).ok()
            }
        }
    }

    // Adds a type or a term.
    fn add(&mut self, part: Arg) -> Option<()> {
        if self.form.is_empty() {
            if let Some(fun) = self.terms.last_mut() {
                return fun.args.push(part).ok();
            }
        }
        match part {
            Arg::OfType(ty) => self.types.push(ty).ok(),
            Arg::OfTerm(term) => self.terms.push(term).ok(),
        }
    }

    // A binding begins with a type, and an application with a term.
    fn add_plain(&mut self, group: &mut Parts<'a>) -> Option<()> {
        let body = group.terms.pop()?;
        match group.types.pop() {
            Some(ty) => self.bindings.push(Binding { ty, body }).ok(),
            None => self.add(Arg::OfTerm(body)),
        }
    }

    // A data type where there are constructors, else a constructor.
    fn add_declared(&mut self, alloc: Global, group: &mut Parts<'a>) -> Option<()> {
        let name = Name::from(Vec::from_slice(alloc, group.form.as_bytes()).ok()?);
        if group.cons.is_empty() {
            let fields = Seq::from(mem::replace(&mut group.types, Vec::new(alloc)));
            return self.cons.push(ConDecl { name, fields }).ok();
        }
        let data = Data {
            name,
            params: Seq::from(mem::replace(&mut group.kinds, Vec::new(alloc))),
            kind: Kind::Nat,
            cons: Seq::from(mem::replace(&mut group.cons, Vec::new(alloc))),
        };
        self.datas.push(data).ok()
    }

    // A term that has parts, but no application.
    fn head(&mut self, alloc: Global) -> Option<Head> {
        if self.form == "vec" {
            let of = self.types.pop()?;
            return Some(Head::VecLit(of, mem::replace(&mut self.terms, Vec::new(alloc))));
        }
        let part = Box::new(alloc, self.terms.pop()?).ok()?;
        match self.form {
            "lam" => Some(Head::Lam(self.types.pop()?, part)),
            "ty" => Some(Head::TyLam(self.kinds.pop()?, part)),
            "rec" => {
                let bindings = mem::replace(&mut self.bindings, Vec::new(alloc));
                Some(Head::LetRec(bindings, part))
            }
            _ => {
                let alts = mem::replace(&mut self.alts, Vec::new(alloc));
                Some(Head::Case(part, alts))
            }
        }
    }

    // A type that has parts.
    fn node(&mut self, alloc: Global) -> Option<TyNode> {
        if self.form == "data" {
            return self.data_of(alloc);
        }
        let last = Box::new(alloc, self.types.pop()?).ok()?;
        match self.form {
            "U" => Some(TyNode::Unsigned(last)),
            "S" => Some(TyNode::Signed(last)),
            "B" => Some(TyNode::BitVector(last)),
            "all" => Some(TyNode::Forall(self.kinds.pop()?, last)),
            _ => self.pair(alloc, last),
        }
    }

    // A type that has two types as its parts.
    fn pair(&mut self, alloc: Global, last: Box<Ty>) -> Option<TyNode> {
        let first = Box::new(alloc, self.types.pop()?).ok()?;
        match self.form {
            "+" => Some(TyNode::Sum(first, last)),
            "*" => Some(TyNode::Times(first, last)),
            ">" => Some(TyNode::Fun(first, last)),
            "V" => Some(TyNode::Vec(first, last)),
            _ => Some(TyNode::Signal(first, last)),
        }
    }

    // A data type at the types behind its number.
    fn data_of(&mut self, alloc: Global) -> Option<TyNode> {
        let number = self.number(0).ok()?;
        let mut args = Vec::new(alloc);
        mem::swap(&mut args, &mut self.types);
        if !args.is_empty() {
            args.remove(0);
        }
        Some(TyNode::DataOf(DataId { number }, args))
    }
}
