//! The text of terms.
ghost use Rattle.std.specs.Prelude.{◌≡◌, false, OnOk};
ghost use Rattle.chw_grammar.specs.TermView.{term_of};
ghost use Rattle.chw_grammar.specs.Text.{term_lexemes};
ghost use Rattle.chw_text.specs.Spaced.{Puts, closes_term, binding_lexemes, alternative_lexemes, argument_lexemes};

use crate::heads::{
    put_alternative_head, put_lambda, put_type_argument, put_type_lambda, put_typed_name, put_vec,
};
use crate::pieces::{put_before, put_close, put_open, put_sign, put_signs, put_word};
use chw_base::NoMemory;
use chw_grammar::{Alternative, Argument, Binding, TermNode, TermTree, Terminal};

/// Whether a term needs parentheses there: `inner` as the head or an argument of an application.
fn closes(node: &TermNode, inner: bool) -> bool
    ensures { result ≡ closes_term inner (term_of node.now) }
{
    match node {
        TermNode::Lambda(_, _, _)
        | TermNode::TypeLambda(_, _, _)
        | TermNode::LetRec(_, _)
        | TermNode::Case(_, _)
        | TermNode::Apply(_, _) => inner,
        TermNode::Name(_)
        | TermNode::Constructor(_)
        | TermNode::Literal(_)
        | TermNode::VecLit(_, _) => false,
    }
}

/// Writes a term, with a space behind each token: `inner` as the head or an argument of an application, else by itself.
#[cycle(put_term)]
pub fn put_term(out: &mut Vec<u8>, term: &TermTree, inner: bool) -> Result<(), NoMemory>
    ensures { OnOk result (Puts out.old.items (term_lexemes inner term.now) out.new.items) }
{
    let closed = closes(&term.node, inner);
    put_open(out, closed)?;
    put_bare(out, &term.node)?;
    put_close(out, closed)?;
    Ok(())
}

/// Writes a term that stands by itself.
#[cycle(put_term)]
fn put_bare(out: &mut Vec<u8>, node: &TermNode) -> Result<(), NoMemory>
    ensures { OnOk result (Puts out.old.items (term_lexemes false (term_of node.now)) out.new.items) }
{
    match node {
        TermNode::Lambda(name, ty, body) => {
            put_lambda(out, name, ty)?;
            put_term(out, body, false)?;
            Ok(())
        }
        TermNode::TypeLambda(name, kind, body) => {
            put_type_lambda(out, name, *kind)?;
            put_term(out, body, false)?;
            Ok(())
        }
        TermNode::LetRec(bindings, body) => {
            put_signs(out, Terminal::Letrec, Terminal::OpenBrace)?;
            for binding in bindings {
                put_binding(out, binding)?;
            }
            put_signs(out, Terminal::CloseBrace, Terminal::In)?;
            put_term(out, body, false)?;
            Ok(())
        }
        TermNode::Case(scrutinee, alternatives) => {
            put_sign(out, Terminal::Case)?;
            put_term(out, scrutinee, false)?;
            put_signs(out, Terminal::Of, Terminal::OpenBrace)?;
            for alternative in alternatives {
                put_alternative(out, alternative)?;
            }
            put_sign(out, Terminal::CloseBrace)?;
            Ok(())
        }
        TermNode::Apply(head, arguments) => {
            put_term(out, head, true)?;
            for argument in arguments {
                put_argument(out, argument)?;
            }
            Ok(())
        }
        TermNode::Name(word) | TermNode::Constructor(word) | TermNode::Literal(word) => {
            put_word(out, word)
        }
        TermNode::VecLit(ty, elements) => {
            put_vec(out, ty)?;
            for (i, element) in elements.iter().enumerate() {
                put_before(out, i, Terminal::Comma)?;
                put_term(out, element, false)?;
            }
            put_sign(out, Terminal::CloseBracket)?;
            Ok(())
        }
    }
}

/// Writes `name : ty = term ;`
#[cycle(put_term)]
fn put_binding(out: &mut Vec<u8>, binding: &Binding) -> Result<(), NoMemory>
    ensures { OnOk result (Puts out.old.items (binding_lexemes binding.now) out.new.items) }
{
    put_typed_name(out, &binding.name, &binding.ty)?;
    put_term(out, &binding.term, false)?;
    put_sign(out, Terminal::Semicolon)?;
    Ok(())
}

/// Writes `pattern -> term ;`
#[cycle(put_term)]
fn put_alternative(out: &mut Vec<u8>, alternative: &Alternative) -> Result<(), NoMemory>
    ensures { OnOk result (Puts out.old.items (alternative_lexemes alternative.now) out.new.items) }
{
    put_alternative_head(out, &alternative.pattern)?;
    put_term(out, &alternative.term, false)?;
    put_sign(out, Terminal::Semicolon)?;
    Ok(())
}

/// Writes an argument of an application.
#[cycle(put_term)]
fn put_argument(out: &mut Vec<u8>, argument: &Argument) -> Result<(), NoMemory>
    ensures { OnOk result (Puts out.old.items (argument_lexemes argument.now) out.new.items) }
{
    match argument {
        Argument::OfTerm(term) => put_term(out, term, true),
        Argument::OfType(ty) => put_type_argument(out, ty),
    }
}
