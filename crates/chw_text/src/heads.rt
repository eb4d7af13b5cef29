//! The parts of terms that hold no term: what stands before the body of a binder, a binding or an alternative, and patterns.
ghost use Rattle.std.specs.Prelude.{[], ◌∷◌, ◌++◌, OnOk};
ghost use Rattle.chw_grammar.specs.declared.stand.Stand.TheVariants.{Alone, Simple};
ghost use Rattle.chw_grammar.specs.declared.terminal.Terminal.TheVariants as the;
ghost use Rattle.chw_grammar.specs.Text.{sign, lower, lowers, kind, type_lexemes, pattern_lexemes};
ghost use Rattle.chw_text.specs.Spaced.{Puts};

use crate::pieces::{put_binder, put_kind, put_sign, put_signs, put_word};
use crate::types::put_type;
use chw_base::NoMemory;
use chw_grammar::{KindTree, Pattern, Stand, Terminal, TypeTree, Word};

/// Writes `\ ( name : ty ) .`
pub fn put_lambda(out: &mut Vec<u8>, name: &Word, ty: &TypeTree) -> Result<(), NoMemory>
    ensures { OnOk result (Puts out.old.items
        (sign the.Lambda ∷ sign the.Open ∷ lower name.now ∷ sign the.Colon ∷ (type_lexemes Alone ty.now ++ sign the.Close ∷ sign the.Dot ∷ [])) out.new.items) }
{
    put_binder(out, Terminal::Lambda, name)?;
    put_type(out, ty, Stand::Alone)?;
    put_signs(out, Terminal::Close, Terminal::Dot)?;
    Ok(())
}

/// Writes `/\ ( name : kind ) .`
pub fn put_type_lambda(out: &mut Vec<u8>, name: &Word, of: KindTree) -> Result<(), NoMemory>
    ensures { OnOk result (Puts out.old.items
        (sign the.TypeLambda ∷ sign the.Open ∷ lower name.now ∷ sign the.Colon ∷ kind of ∷ sign the.Close ∷ sign the.Dot ∷ []) out.new.items) }
{
    put_binder(out, Terminal::TypeLambda, name)?;
    put_kind(out, of)?;
    put_signs(out, Terminal::Close, Terminal::Dot)?;
    Ok(())
}

/// Writes `name : ty =`
pub fn put_typed_name(out: &mut Vec<u8>, name: &Word, ty: &TypeTree) -> Result<(), NoMemory>
    ensures { OnOk result (Puts out.old.items
        (lower name.now ∷ sign the.Colon ∷ (type_lexemes Alone ty.now ++ sign the.Equals ∷ [])) out.new.items) }
{
    put_word(out, name)?;
    put_sign(out, Terminal::Colon)?;
    put_type(out, ty, Stand::Alone)?;
    put_sign(out, Terminal::Equals)?;
    Ok(())
}

/// Writes `@ ty`
pub fn put_type_argument(out: &mut Vec<u8>, ty: &TypeTree) -> Result<(), NoMemory>
    ensures { OnOk result (Puts out.old.items (sign the.At ∷ type_lexemes Simple ty.now) out.new.items) }
{
    put_sign(out, Terminal::At)?;
    put_type(out, ty, Stand::Simple)?;
    Ok(())
}

/// Writes `vec @ ty [`
pub fn put_vec(out: &mut Vec<u8>, ty: &TypeTree) -> Result<(), NoMemory>
    ensures { OnOk result (Puts out.old.items
        (sign the.Vec ∷ sign the.At ∷ (type_lexemes Simple ty.now ++ sign the.OpenBracket ∷ [])) out.new.items) }
{
    put_sign(out, Terminal::Vec)?;
    put_type_argument(out, ty)?;
    put_sign(out, Terminal::OpenBracket)?;
    Ok(())
}

/// Writes `pattern ->`
pub fn put_alternative_head(out: &mut Vec<u8>, pattern: &Pattern) -> Result<(), NoMemory>
    ensures { OnOk result (Puts out.old.items (pattern_lexemes pattern.now ++ sign the.Arrow ∷ []) out.new.items) }
{
    put_pattern(out, pattern)?;
    put_sign(out, Terminal::Arrow)?;
    Ok(())
}

fn put_pattern(out: &mut Vec<u8>, pattern: &Pattern) -> Result<(), NoMemory>
    ensures { OnOk result (Puts out.old.items (pattern_lexemes pattern.now) out.new.items) }
{
    match pattern {
        Pattern::Constructor(name, fields) => {
            put_word(out, name)?;
            put_names(out, fields.as_slice())?;
            Ok(())
        }
        Pattern::Literal(literal) => put_word(out, literal),
        Pattern::Default => put_sign(out, Terminal::Underscore),
    }
}

/// Writes lower names.
fn put_names(out: &mut Vec<u8>, names: &[Word]) -> Result<(), NoMemory>
    ensures { OnOk result (Puts out.old.items (lowers names.now) out.new.items) }
{
    for name in names {
        put_word(out, name)?;
    }
    Ok(())
}
