//! Types, terms and data types as text.
use chw_base::{Name, NoMemory};
use chw_bits::Bits;
use chw_prims::name;
use chw_terms::{Arg, Head, Pattern, Scalar, Term};
use chw_types::{Data, Kind, Ty, TyNode};
use itoa::Buffer;
use row_tables::put;

/// Writes a sign and a number.
pub fn put_number(out: &mut Vec<u8>, sign: &str, number: u32) -> Result<(), NoMemory> {
    let mut buffer = Buffer::new();
    put(out, sign)?;
    put(out, buffer.format(number))
}

/// The name of a kind.
pub fn kind_name(kind: Kind) -> &'static str {
    match kind {
        Kind::Nat => "Nat",
        Kind::Dom => "Dom",
        Kind::Val => "Val",
        Kind::Cir => "Cir",
    }
}

// How a type that has parts and no number begins.
fn opening(node: &TyNode) -> &'static str {
    match node {
        TyNode::Sum(_, _) => "(+ ",
        TyNode::Times(_, _) => "(* ",
        TyNode::Fun(_, _) => "(> ",
        TyNode::Vec(_, _) => "(V ",
        TyNode::Signal(_, _) => "(G ",
        TyNode::Unsigned(_) => "(U ",
        TyNode::Signed(_) => "(S ",
        _ => "(B ",
    }
}

/// Writes a type.
pub fn put_type(out: &mut Vec<u8>, ty: &Ty) -> Result<(), NoMemory> {
    match &ty.node {
        TyNode::Var(at) => put_number(out, "t", at.number),
        TyNode::NatLit(n) => put_number(out, "", *n),
        TyNode::DomOf(at) => put_number(out, "d", at.number),
        TyNode::Sum(a, b)
        | TyNode::Times(a, b)
        | TyNode::Fun(a, b)
        | TyNode::Vec(a, b)
        | TyNode::Signal(a, b) => {
            put(out, opening(&ty.node))?;
            put_type(out, a)?;
            put(out, " ")?;
            put_type(out, b)?;
            put(out, ")")
        }
        TyNode::Unsigned(n) | TyNode::Signed(n) | TyNode::BitVector(n) => {
            put(out, opening(&ty.node))?;
            put_type(out, n)?;
            put(out, ")")
        }
        TyNode::DataOf(at, args) => {
            put_number(out, "(data ", at.number)?;
            for arg in args {
                put(out, " ")?;
                put_type(out, arg)?;
            }
            put(out, ")")
        }
        TyNode::Forall(kind, of) => {
            put(out, "(all ")?;
            put(out, kind_name(*kind))?;
            put(out, " ")?;
            put_type(out, of)?;
            put(out, ")")
        }
    }
}

// The bits, which `?` is where they are the zeros that stand for a literal out of its range.
fn put_literal(out: &mut Vec<u8>, sort: Scalar, bits: &Bits) -> Result<(), NoMemory> {
    put(
        out,
        match sort {
            Scalar::U => "u",
            Scalar::S => "s",
            Scalar::B => "b",
        },
    )?;
    let bits = bits.as_slice();
    if bits.len() > 128 {
        let zeros = bits.len() == 129 && !bits.iter().any(|bit| *bit);
        return put(out, if zeros { "?" } else { "!" });
    }
    for bit in bits {
        put(out, if *bit { "1" } else { "0" })?;
    }
    Ok(())
}

fn put_pattern(out: &mut Vec<u8>, pattern: &Pattern) -> Result<(), NoMemory> {
    match pattern {
        Pattern::OfCon(at, fields) => {
            put_number(out, "c", at.number)?;
            put_number(out, "/", *fields)
        }
        Pattern::OfLit(sort, bits) => put_literal(out, *sort, bits),
        Pattern::Default => put(out, "_"),
    }
}

/// Writes a term.
pub fn put_term(out: &mut Vec<u8>, term: &Term) -> Result<(), NoMemory> {
    if !term.args.is_empty() {
        put(out, "(")?;
    }
    match &term.head {
        Head::Var(at) => put_number(out, "v", at.number)?,
        Head::Global(at) => put_number(out, "g", at.number)?,
        Head::Made(at) => put_number(out, "m", at.number)?,
        Head::Con(at) => put_number(out, "c", at.number)?,
        Head::PrimOf(which) => put(out, name(*which))?,
        Head::Lit(sort, bits) => put_literal(out, *sort, bits)?,
        Head::Lam(ty, body) => {
            put(out, "(lam ")?;
            put_type(out, ty)?;
            put(out, " ")?;
            put_term(out, body)?;
            put(out, ")")?;
        }
        Head::TyLam(kind, body) => {
            put(out, "(ty ")?;
            put(out, kind_name(*kind))?;
            put(out, " ")?;
            put_term(out, body)?;
            put(out, ")")?;
        }
        Head::LetRec(bindings, body) => {
            put(out, "(rec ")?;
            for binding in bindings {
                put(out, "(")?;
                put_type(out, &binding.ty)?;
                put(out, " ")?;
                put_term(out, &binding.body)?;
                put(out, ") ")?;
            }
            put_term(out, body)?;
            put(out, ")")?;
        }
        Head::VecLit(ty, elements) => {
            put(out, "(vec ")?;
            put_type(out, ty)?;
            for element in elements {
                put(out, " ")?;
                put_term(out, element)?;
            }
            put(out, ")")?;
        }
        Head::Case(on, alts) => {
            put(out, "(case ")?;
            put_term(out, on)?;
            for alt in alts {
                put(out, " (")?;
                put_pattern(out, &alt.pattern)?;
                put(out, " ")?;
                put_term(out, &alt.body)?;
                put(out, ")")?;
            }
            put(out, ")")?;
        }
    }
    for arg in &term.args {
        match arg {
            Arg::OfTerm(e) => {
                put(out, " ")?;
                put_term(out, e)?;
            }
            Arg::OfType(ty) => {
                put(out, " @")?;
                put_type(out, ty)?;
            }
        }
    }
    if !term.args.is_empty() {
        put(out, ")")?;
    }
    Ok(())
}

/// Writes names, with a space before each.
pub fn put_names(out: &mut Vec<u8>, names: &[Name]) -> Result<(), NoMemory> {
    for name in names {
        put(out, " ")?;
        out.extend_from_slice(name.as_slice())?;
    }
    Ok(())
}

/// Writes a data type but for its kind.
pub fn put_data(out: &mut Vec<u8>, data: &Data) -> Result<(), NoMemory> {
    put(out, "(")?;
    out.extend_from_slice(data.name.as_slice())?;
    for kind in data.params.as_slice() {
        put(out, " ")?;
        put(out, kind_name(*kind))?;
    }
    for con in data.cons.as_slice() {
        put(out, " (")?;
        out.extend_from_slice(con.name.as_slice())?;
        for field in con.fields.as_slice() {
            put(out, " ")?;
            put_type(out, field)?;
        }
        put(out, ")")?;
    }
    put(out, ")")
}
