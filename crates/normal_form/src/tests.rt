//! Orders and cycles of made definitions, of each of which it is given by their numbers which it uses.
use crate::order::use_order;
use chw_base::{MadeId, NoMemory, VarIx};
use chw_terms::{Alt, Made, Pattern, Sort, Term};
use chw_types::Ty;
use graph_order::Ordering;
use std::alloc::Global;
use std::test::Fail;

// A case whose only alternative gives a vector of these made definitions.
fn body(alloc: Global, uses: &[u32]) -> Result<Term, NoMemory> {
    let mut elements = Vec::new(alloc);
    for number in uses {
        elements.push(Term::made(alloc, MadeId { number: *number }))?;
    }
    let body = Term::vec_lit(alloc, Ty::nat(0), elements);
    let alts = vec![in alloc;
        Alt {
            pattern: Pattern::Default,
            body
        },
    ]?;
    Term::case(alloc, Term::var(alloc, VarIx { number: 0 }), alts)
}

fn made(alloc: Global, rows: &[&[u32]]) -> Result<Vec<Made>, NoMemory> {
    let mut made = Vec::new(alloc);
    for uses in rows {
        let body = body(alloc, uses)?;
        made.push(Made {
            origin: Term::var(alloc, VarIx { number: 0 }),
            body,
            ty: Ty::nat(0),
            sort: Sort::Value,
        })?;
    }
    Ok(made)
}

// Whether there is a cycle, and it or the order.
fn found(alloc: Global, rows: &[&[u32]]) -> Result<(bool, Vec<u32>), NoMemory> {
    let made = made(alloc, rows)?;
    match use_order(alloc, &made)? {
        Ordering::Order(nodes) => Ok((false, nodes)),
        Ordering::Cycle(nodes) => Ok((true, nodes)),
    }
}

#[test]
fn finds_orders_and_cycles(rt: HostRuntime) -> Result<(), Fail> {
    let rows: [(&[&[u32]], bool, &[u32]); 5] = [
        (&[], false, &[]),
        (&[&[1, 2], &[2], &[]], false, &[2, 1, 0]),
        (&[&[1], &[0]], true, &[0, 1]),
        (&[&[], &[1]], true, &[1]),
        (&[&[7], &[]], false, &[0, 1]),
    ];
    for (uses, is_cycle, nodes) in rows {
        let found = found(rt.alloc(), uses)?;
        assert_eq!(rt; found.0, is_cycle);
        assert_eq!(rt; found.1.as_slice(), nodes);
    }
    Ok(())
}
