//! The text of types.
ghost use Rattle.std.specs.Prelude.{◌≡◌, OnOk};
ghost use Rattle.chw_grammar.specs.Text.{closes_arrow, closes_sum, closes_product, closes_named, type_lexemes};
ghost use Rattle.chw_grammar.specs.TypeView.{type_of, types_of};
ghost use Rattle.chw_grammar.specs.declared.stand.Stand.TheVariants.{Alone};
ghost use Rattle.chw_text.specs.Spaced.{Puts, closes_type};

use crate::pieces::{
    put_before, put_binder, put_close, put_kind, put_open, put_sign, put_signs, put_word,
};
use chw_base::NoMemory;
use chw_grammar::{Stand, Terminal, TypeNode, TypeTree};

/// Whether `->` or `forall` needs parentheses there.
fn closes_arrow(stand: Stand) -> bool
    ensures { result ≡ closes_arrow stand }
{
    !matches!(stand, Stand::Alone)
}

/// Whether a sum needs parentheses there.
fn closes_sum(stand: Stand) -> bool
    ensures { result ≡ closes_sum stand }
{
    !matches!(stand, Stand::Alone | Stand::Left)
}

/// Whether a product needs parentheses there.
fn closes_product(stand: Stand) -> bool
    ensures { result ≡ closes_product stand }
{
    matches!(stand, Stand::Factor | Stand::Simple)
}

/// Whether a name with these arguments needs parentheses there.
fn closes_named(stand: Stand, arguments: &[TypeTree]) -> bool
    ensures { result ≡ closes_named stand (types_of arguments.now) }
{
    match arguments {
        [] => false,
        [_, ..] => matches!(stand, Stand::Simple),
    }
}

/// Whether a type needs parentheses there.
fn closes(node: &TypeNode, stand: Stand) -> bool
    ensures { result ≡ closes_type stand (type_of node.now) }
{
    match node {
        TypeNode::Forall(_, _, _) | TypeNode::Arrow(_, _) => closes_arrow(stand),
        TypeNode::Sum(_) => closes_sum(stand),
        TypeNode::Product(_) => closes_product(stand),
        TypeNode::Named(_, arguments) => closes_named(stand, arguments),
        TypeNode::Variable(_) | TypeNode::Numeral(_) => false,
    }
}

/// Writes a type, with a space behind each token.
#[cycle(put_type)]
pub fn put_type(out: &mut Vec<u8>, ty: &TypeTree, stand: Stand) -> Result<(), NoMemory>
    ensures { OnOk result (Puts out.old.items (type_lexemes stand ty.now) out.new.items) }
{
    let closed = closes(&ty.node, stand);
    put_open(out, closed)?;
    put_bare(out, &ty.node)?;
    put_close(out, closed)?;
    Ok(())
}

/// Writes a type that stands by itself.
#[cycle(put_type)]
fn put_bare(out: &mut Vec<u8>, node: &TypeNode) -> Result<(), NoMemory>
    ensures { OnOk result (Puts out.old.items (type_lexemes Alone (type_of node.now)) out.new.items) }
{
    match node {
        TypeNode::Forall(variable, kind, body) => {
            put_binder(out, Terminal::Forall, variable)?;
            put_kind(out, *kind)?;
            put_signs(out, Terminal::Close, Terminal::Dot)?;
            put_type(out, body, Stand::Alone)?;
            Ok(())
        }
        TypeNode::Arrow(from, to) => {
            put_type(out, from, Stand::Left)?;
            put_sign(out, Terminal::Arrow)?;
            put_type(out, to, Stand::Alone)?;
            Ok(())
        }
        TypeNode::Sum(parts) => {
            for (i, part) in parts.iter().enumerate() {
                put_before(out, i, Terminal::Plus)?;
                put_type(out, part, Stand::Summand)?;
            }
            Ok(())
        }
        TypeNode::Product(parts) => {
            for (i, part) in parts.iter().enumerate() {
                put_before(out, i, Terminal::Star)?;
                put_type(out, part, Stand::Factor)?;
            }
            Ok(())
        }
        TypeNode::Named(name, arguments) => {
            put_word(out, name)?;
            for argument in arguments {
                put_type(out, argument, Stand::Simple)?;
            }
            Ok(())
        }
        TypeNode::Variable(name) | TypeNode::Numeral(name) => put_word(out, name),
    }
}
