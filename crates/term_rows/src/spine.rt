//! A term with more arguments than a row can have.
use chw_base::{NoMemory, Or, TyIx, VarIx};
use chw_terms::{Head, Term, depth, occurs, put, put_type_in, shift};
use chw_types::Ty;
use row_notation::put_number;
use row_tables::Unread;
use std::alloc::Global;

/// Writes what the calls give for a spine of this many arguments, each of them with a type
/// argument.
pub fn put_spine(alloc: Global, count: u32, out: &mut Vec<u8>) -> Result<(), Or<Unread>> {
    let term = spine(alloc, count)?;
    put_number(out, "depth ", depth(&term))?;
    put_answer(out, "; the last variable", occurs(&term, before(count)))?;
    put_answer(
        out,
        "; the next one",
        occurs(&term, VarIx { number: count }),
    )?;
    let raised = shift(alloc, &term.copy(alloc)?, VarIx { number: 0 }, 1)?;
    put_answer(
        out,
        "; the next one when raised",
        occurs(&raised, VarIx { number: count }),
    )?;
    let filled = put(alloc, &raised, VarIx { number: 1 }, &term)?;
    put_number(
        out,
        "; arguments when put into itself: ",
        filled.args.len().min(1_000_000) as u32,
    )?;
    put_answer(
        out,
        "; a variable as head",
        matches!(filled.head, Head::Var(_)),
    )?;
    let typed = put_type_in(alloc, &filled, &Ty::nat(8))?;
    Ok(put_number(out, "; depth at a type: ", depth(&typed))?)
}

fn before(count: u32) -> VarIx {
    VarIx {
        number: count.saturating_sub(1),
    }
}

// The variable 0 at each variable and each type variable below this count.
fn spine(alloc: Global, count: u32) -> Result<Term, NoMemory> {
    let mut term = Term::var(alloc, VarIx { number: 0 });
    for number in 0..count {
        term = Term::app(term, Term::var(alloc, VarIx { number }))?;
        term = Term::ty_app(term, Ty::var(TyIx { number }))?;
    }
    Ok(term)
}

fn put_answer(out: &mut Vec<u8>, question: &str, answer: bool) -> Result<(), NoMemory> {
    row_tables::put(out, question)?;
    row_tables::put(out, if answer { ": yes" } else { ": no" })
}
