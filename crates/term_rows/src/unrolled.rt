//! Primitives at types and terms: what each unrolls to, and which can be unrolled.
use chw_base::Or;
use chw_prims::Prim;
use chw_terms::{Arg, Head, Term};
use chw_types::Ty;
use prim_vec::{can_unroll, unroll};
use row_notation::{put_term, read};
use row_tables::{Unread, put};
use std::alloc::Global;

/// Writes what a call gives.
pub(crate) fn answer(
    alloc: Global,
    call: &str,
    text: &str,
    out: &mut Vec<u8>,
) -> Result<(), Or<Unread>> {
    let mut parts = read(alloc, text)?;
    let term = parts.terms.pop().ok_or(Or::Fault(Unread))?;
    let use_of = Use::of(alloc, term)?;
    let can = can_unroll(alloc, use_of.primitive, &use_of.types, &use_of.args)?;
    match call {
        "can_unroll" => Ok(put(out, if can { "true" } else { "false" })?),
        "unroll" if can => {
            let term = unroll(alloc, use_of.primitive, &use_of.types, &use_of.args)?;
            Ok(put_term(out, &term)?)
        }
        _ => Err(Or::Fault(Unread)),
    }
}

// A primitive at types, applied to terms.
#[derive(Drop)]
struct Use {
    primitive: Prim,
    types: Vec<Ty>,
    args: Vec<Term>,
}

impl Use {
    // What this term is.
    fn of(alloc: Global, term: Term) -> Result<Use, Or<Unread>> {
        let Term { head, args } = term;
        let Head::PrimOf(primitive) = head else {
            return Err(Or::Fault(Unread));
        };
        let mut use_of = Use {
            primitive,
            types: Vec::new(alloc),
            args: Vec::new(alloc),
        };
        for arg in args {
            match arg {
                Arg::OfType(ty) => use_of.types.push(ty)?,
                Arg::OfTerm(term) => use_of.args.push(term)?,
            }
        }
        Ok(use_of)
    }
}
