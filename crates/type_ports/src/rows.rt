//! A table of the data types: which of its arguments have to be representable for a data type to be.
ghost use Rattle.std.specs.Prelude.{◌≡◌, ◌<◌, [], ◌∷◌, ◌++◌, nat_lt, length, vec_len, slice_set, true, false, IfOk, OnOk, IfSome, IfNone};
ghost use Rattle.std.specs.List.{slice_get};
ghost use Rattle.std.specs.Bool.{OnTrue};
ghost use Rattle.chw_types.specs.declared.declarations.Data.{Data};
ghost use Rattle.chw_types.specs.Arguments.{all_fields};
ghost use Rattle.chw_types.specs.References.{HasNoCycle};
ghost use Rattle.type_ports.specs.RowsRight.{IsRowOf, IsWholeTable, Settled};
ghost use Rattle.type_ports.specs.RowsFound.{unknown_in, unknown_among, fits, fits_all, marked, marked_all, mark, is_unknown, unknown_rows, has_marks, marks_of};

use chw_base::NoMemory;
use chw_types::{ConDecl, Data, Ty, TyNode};
use std::alloc::Global;

/// What is known of a data type.
#[derive(Drop)]
pub(crate) enum Row {
    /// Nothing yet.
    Unknown,
    /// Its fields are being looked at.
    Open,
    /// It is never representable.
    Never,
    /// It is representable exactly where those of its arguments are that are marked here.
    Asks(Vec<bool>),
}

// Whether nothing is known of the data type.
fn is_unknown(at: usize, rows: &[Row]) -> bool
    ensures { result ≡ is_unknown rows.now at }
{
    match rows.get(at) {
        Some(Row::Unknown) => true,
        _ => false,
    }
}

// The first data type that the type stands on and of which nothing is known.
#[tactic(auto, unfolding(crate::specs::RowsFound::unknown_in), using(crate::proofs::RowLoops::unknown_args_at))]
pub(crate) fn unknown_in(t: &Ty, rows: &[Row]) -> Option<usize>
    ensures { result ≡ unknown_in rows.now t.now }
{
    match &t.node {
        TyNode::Vec(_, of) => unknown_in(of, rows),
        TyNode::DataOf(at, args) => {
            let at = at.number as usize;
            if is_unknown(at, rows) {
                return Some(at);
            }
            for arg in args {
                if let Some(found) = unknown_in(arg, rows) {
                    return Some(found);
                }
            }
            None
        }
        _ => None,
    }
}

// The first among these types.
fn unknown_among(types: &[Ty], rows: &[Row]) -> Option<usize>
    ensures { result ≡ unknown_among rows.now types.now }
{
    for t in types {
        if let Some(found) = unknown_in(t, rows) {
            return Some(found);
        }
    }
    None
}

// The first among the fields of these constructors.
#[tactic(auto, using(crate::proofs::RowLoops::unknown_fields_at))]
fn unknown_field(cons: &[ConDecl], rows: &[Row]) -> Option<usize>
    ensures { result ≡ unknown_among rows.now (all_fields cons.now) }
{
    for con in cons {
        if let Some(found) = unknown_among(con.fields.as_slice(), rows) {
            return Some(found);
        }
    }
    None
}

// Marks a variable: the first one in the last place.
#[tactic(auto, using(crate::proofs::RowLoops::mark_set))]
fn mark(asked: &mut [bool], at: u32) -> bool
    ensures fits { result ≡ nat_lt at (length asked.old) }
    ensures marked { OnTrue result (asked.new ≡ mark at asked.old) }
{
    let at = at as usize;
    if at < asked.len() {
        let place = asked.len() - 1 - at;
        asked[place] = true;
        true
    } else {
        false
    }
}

// The marks of a data type that is representable at some arguments.
fn marks_at(rows: &[Row], at: u32) -> Option<&[bool]>
    ensures some { IfSome result (λ m. (has_marks (slice_get rows.now at) ≡ true) × (m.now ≡ marks_of (slice_get rows.now at))) }
    ensures none { IfNone result (has_marks (slice_get rows.now at) ≡ false) }
{
    match rows.get(at as usize) {
        Some(Row::Asks(marks)) => Some(marks.as_slice()),
        _ => None,
    }
}

// Marks the variables that have to be representable for the type to be, and tells whether that is enough.
#[tactic(auto, unfolding(crate::specs::RowsFound::fits, crate::specs::RowsFound::marked))]
pub(crate) fn ask(t: &Ty, rows: &[Row], asked: &mut [bool]) -> bool
    ensures fits { result ≡ fits rows.now (length asked.old) t.now }
    ensures marked { OnTrue result (asked.new ≡ marked rows.now t.now asked.old) }
{
    match &t.node {
        TyNode::Var(at) => mark(asked, at.number),
        TyNode::Unsigned(_) => true,
        TyNode::Signed(_) => true,
        TyNode::BitVector(_) => true,
        TyNode::Vec(_, of) => ask(of, rows, asked),
        TyNode::DataOf(at, args) => {
            let Some(asks) = marks_at(rows, at.number) else {
                return false;
            };
            if args.len() != asks.len() {
                return false;
            }
            for (i, arg) in args.iter().enumerate() {
                if asks[i] {
                    if !ask(arg, rows, asked) {
                        return false;
                    }
                }
            }
            true
        }
        _ => false,
    }
}

// The same of all these types.
fn ask_all(types: &[Ty], rows: &[Row], asked: &mut [bool]) -> bool
    ensures fits { result ≡ fits_all rows.now (length asked.old) types.now }
    ensures marked { OnTrue result (asked.new ≡ marked_all rows.now types.now asked.old) }
{
    for t in types {
        if !ask(t, rows, asked) {
            return false;
        }
    }
    true
}

// The same of all fields of these constructors.
#[tactic(auto, using(crate::proofs::RowLoops::fits_fields_at, crate::proofs::RowLoops::marked_fields_at))]
fn ask_fields(cons: &[ConDecl], rows: &[Row], asked: &mut [bool]) -> bool
    ensures fits { result ≡ fits_all rows.now (length asked.old) (all_fields cons.now) }
    ensures marked { OnTrue result (asked.new ≡ marked_all rows.now (all_fields cons.now) asked.old) }
{
    for con in cons {
        if !ask_all(con.fields.as_slice(), rows, asked) {
            return false;
        }
    }
    true
}

// The row of a data type, where those that its fields stand on have theirs.
fn row_of(alloc: Global, it: &Data, rows: &[Row]) -> Result<Row, NoMemory>
    ensures { IfOk result (IsRowOf rows.now it.now) }
{
    let mut asked = vec![in alloc; false; it.params.len()]?;
    if ask_fields(it.cons.as_slice(), rows, &mut asked) {
        Ok(Row::Asks(asked))
    } else {
        Ok(Row::Never)
    }
}

// The first among the fields of the data type at this place.
fn unknown_part(rows: &[Row], datas: &[Data], at: usize) -> Option<usize>
    requires { at < length datas.now }
    ensures { (it : Data) → slice_get datas.now at ≡ Some it → result ≡ unknown_among rows.now (all_fields it.cons) }
{
    unknown_field(datas[at].cons.as_slice(), rows)
}

// The row of the data type at this place.
fn row_at(alloc: Global, rows: &[Row], datas: &[Data], at: usize) -> Result<Row, NoMemory>
    requires { at < length datas.now }
    ensures { IfOk result (λ r. (it : Data) → slice_get datas.now at ≡ Some it → IsRowOf rows.now it r) }
{
    row_of(alloc, &datas[at], rows)
}

fn set_row(rows: &mut Vec<Row>, at: usize, row: Row)
    requires { at < vec_len rows.old }
    ensures { rows.new.items ≡ slice_set rows.old.items at row }
{
    rows[at] = row;
}

// Puts two more on the stack.
fn push_both(stack: &mut Vec<usize>, first: usize, second: usize) -> Result<(), NoMemory>
    ensures { OnOk result (stack.new.items ≡ stack.old.items ++ first ∷ second ∷ []) }
{
    stack.push(first)?;
    stack.push(second)?;
    Ok(())
}

// Gives this data type its row, and first those that it stands on and that have none.
fn settle_from(
    alloc: Global,
    rows: &mut Vec<Row>,
    datas: &[Data],
    first: usize,
) -> Result<(), NoMemory>
    requires order { HasNoCycle datas.now }
    requires table { IsWholeTable datas.now rows.old.items }
    requires first { is_unknown rows.old.items first ≡ true }
    ensures table { OnOk result (IsWholeTable datas.now rows.new.items) }
    ensures fewer { OnOk result (unknown_rows rows.new.items < unknown_rows rows.old.items) }
{
    // Those whose fields are being looked at: a field of each but the last mentions the next.
    let mut stack = Vec::new(alloc);
    stack.push(first)?;
    set_row(rows, first, Row::Open);
    while let Some(top) = stack.pop() {
        match unknown_part(rows, datas, top) {
            Some(next) => {
                push_both(&mut stack, top, next)?;
                set_row(rows, next, Row::Open);
            }
            None => {
                let row = row_at(alloc, rows, datas, top)?;
                set_row(rows, top, row);
            }
        }
    }
    Ok(())
}

/// Gives a row to each data type that the type stands on.
pub(crate) fn settle(
    alloc: Global,
    rows: &mut Vec<Row>,
    datas: &[Data],
    t: &Ty,
) -> Result<(), NoMemory>
    requires order { HasNoCycle datas.now }
    requires table { IsWholeTable datas.now rows.old.items }
    ensures table { OnOk result (IsWholeTable datas.now rows.new.items) }
    ensures settled { OnOk result (Settled rows.new.items t.now) }
{
    while let Some(first) = unknown_in(t, rows) {
        settle_from(alloc, rows, datas, first)?;
    }
    Ok(())
}

/// A table in which nothing is known yet.
pub(crate) fn no_rows(alloc: Global, datas: &[Data]) -> Result<Vec<Row>, NoMemory>
    ensures { IfOk result (λ rows. IsWholeTable datas.now rows.items) }
{
    let mut rows = Vec::new(alloc);
    for _ in datas {
        rows.push(Row::Unknown)?;
    }
    Ok(rows)
}
