//! Terms, which contracts see as plain trees.
ghost use Rattle.std.specs.Prelude.{◌≡◌, IfOk};
ghost use Rattle.chw_terms.specs.TermTree.{var, global, made, lam, app, ty_lam, ty_app, letrec, con, prim, lit, vec_lit, case_of, binders};
ghost use Rattle.chw_terms.specs.TermView.{terms_of, group_of, alts_of, tree_of, applied_to, applied};

use chw_base::{ConId, DefId, MadeId, NoMemory, VarIx};
use chw_bits::Bits;
use chw_prims::Prim;
use chw_types::{Kind, Scalar, Ty};
use std::alloc::Global;
use std::marker::Model;

/// A term: a head, and what it is applied to, the first argument first. Most terms have no arguments.
///
/// A variable is counted from the innermost binder outwards. A lambda binds one variable, 0 in its body. A letrec of n bindings binds
/// n variables in all right sides and in the body: the last binding is 0, and the first is n - 1. A pattern with n fields binds n
/// variables in its alternative in the same way: the last field is 0, and the first is n - 1. What stands further out follows.
///
/// Type variables are counted apart: a type lambda binds the type variable 0 in its body and no variable, and the other binders bind
/// no type variable.
///
/// Contracts see a head with arguments as applications of one argument each, the first one innermost. In memory the arguments are a
/// list, so that a term nests no deeper for having many of them: calls go along the list by a loop, and by recursion only into parts.
#[cycle(term)]
#[derive(Drop)]
pub struct Term {
    pub head: Head,
    pub args: Vec<Arg>,
}

/// The forms of terms that aren't applications.
#[cycle(term)]
#[derive(Drop)]
pub enum Head {
    Var(VarIx),
    /// A definition of the program.
    Global(DefId),
    /// A definition that was made in normalising.
    Made(MadeId),
    /// The type of the variable, and the body.
    Lam(Ty, Box<Term>),
    /// The kind of the type variable, and the body.
    TyLam(Kind, Box<Term>),
    LetRec(Vec<Binding>, Box<Term>),
    /// A constructor, counted over all data types of the program.
    Con(ConId),
    PrimOf(Prim),
    Lit(Scalar, Bits),
    /// The type of the elements, and the elements.
    VecLit(Ty, Vec<Term>),
    Case(Box<Term>, Vec<Alt>),
}

/// An argument.
#[cycle(term)]
#[derive(Drop)]
pub enum Arg {
    /// Applied to a term.
    OfTerm(Term),
    /// At a type.
    OfType(Ty),
}

/// A binding of a letrec: the type of the variable, and its right side.
#[cycle(term)]
#[derive(Drop)]
pub struct Binding {
    pub ty: Ty,
    pub body: Term,
}

/// An alternative of a case.
#[cycle(term)]
#[derive(Drop)]
pub struct Alt {
    pub pattern: Pattern,
    pub body: Term,
}

/// What an alternative is for.
#[derive(Drop)]
pub enum Pattern {
    /// A constructor, and how many variables it binds: one for each field.
    OfCon(ConId, u32),
    OfLit(Scalar, Bits),
    /// Whatever no other alternative is for.
    Default,
}

impl Model for Term {
    ghost use Rattle.chw_terms.specs.TermTree.{TermTree};
    ghost use Rattle.chw_terms.specs.TermCode.{coded_tree};

    ghost Value = { TermTree };

    ghost coded = { coded_tree };

    ghost use Rattle.chw_terms.specs.TermView.{tree_of, applied};
    ghost use Rattle.chw_terms.specs.TermSize.{tree_size};

    ghost view = { λ e. applied (tree_of e.head) e.args.items };

    ghost size = { tree_size };

    ghost use Rattle.chw_terms.specs.TermFalls.{term_falls};

    ghost size_decreases = { λ a h. term_falls a.head a.args.items };
}

impl Pattern {
    /// How many variables it binds.
    pub fn binders(&self) -> u32
        ensures { result ≡ binders self.now }
    {
        match self {
            Pattern::OfCon(_, n) => *n,
            Pattern::OfLit(_, _) => 0,
            Pattern::Default => 0,
        }
    }

    /// The same pattern once more.
    pub fn copy(&self, alloc: Global) -> Result<Pattern, NoMemory>
        ensures { IfOk result (λ q. q ≡ self.now) }
    {
        match self {
            Pattern::OfCon(c, n) => Ok(Pattern::OfCon(*c, *n)),
            Pattern::OfLit(sort, bits) => Ok(Pattern::OfLit(*sort, bits.copy(alloc)?)),
            Pattern::Default => Ok(Pattern::Default),
        }
    }
}

impl Term {
    /// The head with no arguments.
    pub fn of_head(alloc: Global, head: Head) -> Term
        ensures { result ≡ tree_of head }
    {
        Term {
            head,
            args: Vec::new(alloc),
        }
    }

    /// The variable of this number.
    pub fn var(alloc: Global, at: VarIx) -> Term
        ensures { result ≡ var at.number }
    {
        Term::of_head(alloc, Head::Var(at))
    }

    /// The definition of this number.
    pub fn global(alloc: Global, at: DefId) -> Term
        ensures { result ≡ global at.number }
    {
        Term::of_head(alloc, Head::Global(at))
    }

    /// The made definition of this number.
    pub fn made(alloc: Global, at: MadeId) -> Term
        ensures { result ≡ made at.number }
    {
        Term::of_head(alloc, Head::Made(at))
    }

    /// The function of a variable of this type.
    pub fn lam(alloc: Global, ty: Ty, body: Term) -> Result<Term, NoMemory>
        ensures { IfOk result (λ e. e ≡ lam ty body) }
    {
        let body = Box::new(alloc, body)?;
        Ok(Term::of_head(alloc, Head::Lam(ty, body)))
    }

    /// The function of a type variable of this kind.
    pub fn ty_lam(alloc: Global, kind: Kind, body: Term) -> Result<Term, NoMemory>
        ensures { IfOk result (λ e. e ≡ ty_lam kind body) }
    {
        let body = Box::new(alloc, body)?;
        Ok(Term::of_head(alloc, Head::TyLam(kind, body)))
    }

    /// A group of bindings that may refer to one another, and a body.
    pub fn letrec(alloc: Global, group: Vec<Binding>, body: Term) -> Result<Term, NoMemory>
        ensures { IfOk result (λ e. e ≡ letrec (group_of group.items) body) }
    {
        let body = Box::new(alloc, body)?;
        Ok(Term::of_head(alloc, Head::LetRec(group, body)))
    }

    /// The constructor of this number.
    pub fn con(alloc: Global, at: ConId) -> Term
        ensures { result ≡ con at.number }
    {
        Term::of_head(alloc, Head::Con(at))
    }

    /// The primitive.
    pub fn prim_of(alloc: Global, which: Prim) -> Term
        ensures { result ≡ prim which }
    {
        Term::of_head(alloc, Head::PrimOf(which))
    }

    /// The literal of this sort with these bits.
    pub fn lit(alloc: Global, sort: Scalar, bits: Bits) -> Term
        ensures { result ≡ lit sort bits }
    {
        Term::of_head(alloc, Head::Lit(sort, bits))
    }

    /// The vector of these elements, which are of this type.
    pub fn vec_lit(alloc: Global, ty: Ty, elements: Vec<Term>) -> Term
        ensures { result ≡ vec_lit ty (terms_of elements.items) }
    {
        Term::of_head(alloc, Head::VecLit(ty, elements))
    }

    /// The choice among alternatives by the value of a term.
    pub fn case(alloc: Global, on: Term, alts: Vec<Alt>) -> Result<Term, NoMemory>
        ensures { IfOk result (λ e. e ≡ case_of on (alts_of alts.items)) }
    {
        let on = Box::new(alloc, on)?;
        Ok(Term::of_head(alloc, Head::Case(on, alts)))
    }

    /// A term applied to an argument.
    pub fn app(fun: Term, arg: Term) -> Result<Term, NoMemory>
        ensures { IfOk result (λ e. e ≡ app fun arg) }
    {
        Ok(fun.with_arg(Arg::OfTerm(arg))?)
    }

    /// A term at a type.
    pub fn ty_app(fun: Term, arg: Ty) -> Result<Term, NoMemory>
        ensures { IfOk result (λ e. e ≡ ty_app fun arg) }
    {
        Ok(fun.with_arg(Arg::OfType(arg))?)
    }

    /// The term with one more argument, the last one.
    #[tactic(auto, using(crate::proofs::Spines::applied_last))]
    pub fn with_arg(self, arg: Arg) -> Result<Term, NoMemory>
        ensures { IfOk result (λ e. e ≡ applied_to self arg) }
    {
        let Term { head, mut args } = self;
        args.push(arg)?;
        Ok(Term { head, args })
    }

    /// The term with these arguments behind its own.
    #[tactic(auto, using(crate::proofs::Spines::applied_more))]
    pub fn applied(self, more: Vec<Arg>) -> Result<Term, NoMemory>
        ensures { IfOk result (λ e. e ≡ applied self more.items) }
    {
        let Term { head, mut args } = self;
        let mut more = more;
        if args.is_empty() {
            return Ok(Term { head, args: more });
        }
        args.append(&mut more)?;
        Ok(Term { head, args })
    }
}
