//! The programs of rows.
ghost use Rattle.std.specs.Prelude.{◌<◌, ◌^◌, length, IfOk, IfSome, IsTrue};
ghost use Rattle.chw_lexer.specs.Tokens.{Tokens};
ghost use Rattle.chw_terms.specs.Tidy.{IsTidy};
ghost use Rattle.chw_typing.specs.Programs.{IsSound, setting_of};

use chw_base::Or;
use chw_check::kinds::first_unkinded;
use chw_check::laws::what_fits_is_sound;
use chw_lexer::{Token, lex};
use chw_parser::parse;
use chw_resolve::resolve;
use chw_terms::Program;
use row_tables::{Unread, bytes_of};
use std::alloc::Global;

/// A description of one definition.
pub(crate) const DESCRIPTION: &[u8] = b"domain A; def one : Unsigned 8 = 1u8; top one () (o);";

// The program that a description means, where its names are all right.
fn named(alloc: Global, text: &[u8]) -> Option<Program>
    ensures { IfSome result IsTidy }
{
    if text.len() > 1_048_576 {
        return None;
    }
    let Ok(tokens) = lex(alloc, text) else {
        return None;
    };
    let program = named_by(alloc, text, tokens.as_slice());
    drop(tokens);
    program
}

// The same of the tokens of a text.
fn named_by(alloc: Global, text: &[u8], tokens: &[Token]) -> Option<Program>
    requires short { length text.now < 2 ^ 32 }
    requires split { Tokens text.now tokens.now }
    ensures { IfSome result IsTidy }
{
    let Ok(tree) = parse(alloc, text, tokens) else {
        return None;
    };
    let resolved = resolve(alloc, text, &tree);
    drop(tree);
    resolved.ok()
}

// Whether each type that is written in a program has a kind that it may have there.
fn has_kinds(alloc: Global, program: &Program) -> bool
    requires { IsTidy program.now }
    ensures { IsTrue result → IsSound (setting_of program.now) }
{
    what_fits_is_sound();
    match first_unkinded(alloc, program) {
        Ok(None) => true,
        _ => false,
    }
}

/// The program that a description means, where its written types have kinds. Its top may be any
/// definition. What isn't one is an unread row.
pub(crate) fn program_of(alloc: Global, text: &[u8]) -> Result<Program, Or<Unread>>
    ensures tidy { IfOk result IsTidy }
    ensures sound { IfOk result (λ program. IsSound (setting_of program)) }
{
    let Some(program) = named(alloc, text) else {
        return Err(Or::Fault(Unread));
    };
    if has_kinds(alloc, &program) {
        Ok(program)
    } else {
        drop(program);
        Err(Or::Fault(Unread))
    }
}

/// The same of a description in the notation of rows.
pub(crate) fn program_in(alloc: Global, text: &str) -> Result<Program, Or<Unread>>
    ensures tidy { IfOk result IsTidy }
    ensures sound { IfOk result (λ program. IsSound (setting_of program)) }
{
    let text = bytes_of(alloc, text)?;
    let program = program_of(alloc, &text);
    drop(text);
    program
}
