//! The smallest pieces of a text: words and signs with a space behind each, and parentheses.
ghost use Rattle.std.specs.Prelude.{◌≡◌, ◌∷◌, [], ◌++◌, codes, OnOk};
ghost use Rattle.chw_grammar.specs.declared.terminal.Terminal.TheVariants as the;
ghost use Rattle.chw_grammar.specs.Text.{sign_bytes, sign, lower, kind};
ghost use Rattle.chw_text.specs.Spaced.{Puts, opening, closing, before_item, reset_part};

use chw_base::NoMemory;
use chw_grammar::{KindTree, Terminal, Word};

/// Writes these bytes and a space.
fn put_bytes(out: &mut Vec<u8>, bytes: &[u8]) -> Result<(), NoMemory>
    ensures { OnOk result (out.new.items ≡ out.old.items ++ (bytes.now ++ 32 ∷ [])) }
{
    out.extend_from_slice(bytes)?;
    out.push(b' ')?;
    Ok(())
}

/// Writes a name, a numeral or a literal.
pub fn put_word(out: &mut Vec<u8>, word: &Word) -> Result<(), NoMemory>
    ensures { OnOk result (Puts out.old.items (lower word.now ∷ []) out.new.items) }
{
    put_bytes(out, word.bytes.as_slice())
}

/// Writes a keyword, a symbol or a kind.
pub fn put_sign(out: &mut Vec<u8>, shown: Terminal) -> Result<(), NoMemory>
    ensures { OnOk result (Puts out.old.items (sign shown ∷ []) out.new.items) }
{
    put_bytes(out, bytes_of(shown))
}

/// The bytes of a keyword, a symbol or a kind; none for another terminal.
fn bytes_of(sign: Terminal) -> &'static [u8]
    ensures { result.now ≡ sign_bytes sign }
{
    match sign {
        Terminal::Domain => b"domain",
        Terminal::Data => b"data",
        Terminal::Def => b"def",
        Terminal::Top => b"top",
        Terminal::Letrec => b"letrec",
        Terminal::In => b"in",
        Terminal::Case => b"case",
        Terminal::Of => b"of",
        Terminal::Forall => b"forall",
        Terminal::Vec => b"vec",
        Terminal::Semicolon => b";",
        Terminal::Colon => b":",
        Terminal::Equals => b"=",
        Terminal::Bar => b"|",
        Terminal::Open => b"(",
        Terminal::Close => b")",
        Terminal::OpenBrace => b"{",
        Terminal::CloseBrace => b"}",
        Terminal::OpenBracket => b"[",
        Terminal::CloseBracket => b"]",
        Terminal::Comma => b",",
        Terminal::Dot => b".",
        Terminal::Lambda => b"\\",
        Terminal::TypeLambda => b"/\\",
        Terminal::At => b"@",
        Terminal::Arrow => b"->",
        Terminal::Plus => b"+",
        Terminal::Star => b"*",
        Terminal::Underscore => b"_",
        Terminal::Nat => b"Nat",
        Terminal::Dom => b"Dom",
        Terminal::Val => b"Val",
        Terminal::Cir => b"Cir",
        Terminal::Lower | Terminal::Upper | Terminal::Numeral | Terminal::Literal | Terminal::End =>
            b"",
    }
}

/// Writes a kind.
pub fn put_kind(out: &mut Vec<u8>, written: KindTree) -> Result<(), NoMemory>
    ensures { OnOk result (Puts out.old.items (kind written ∷ []) out.new.items) }
{
    match written {
        KindTree::Nat => put_sign(out, Terminal::Nat),
        KindTree::Dom => put_sign(out, Terminal::Dom),
        KindTree::Val => put_sign(out, Terminal::Val),
        KindTree::Cir => put_sign(out, Terminal::Cir),
    }
}

/// Writes `(`, where there are parentheses.
pub fn put_open(out: &mut Vec<u8>, closed: bool) -> Result<(), NoMemory>
    ensures { OnOk result (Puts out.old.items (opening closed) out.new.items) }
{
    if closed {
        put_sign(out, Terminal::Open)
    } else {
        Ok(())
    }
}

/// Writes `)`, where there are parentheses.
pub fn put_close(out: &mut Vec<u8>, closed: bool) -> Result<(), NoMemory>
    ensures { OnOk result (Puts out.old.items (closing closed) out.new.items) }
{
    if closed {
        put_sign(out, Terminal::Close)
    } else {
        Ok(())
    }
}

/// Writes `reset`, where a domain has a reset.
pub fn put_reset(out: &mut Vec<u8>, has_reset: bool) -> Result<(), NoMemory>
    ensures { OnOk result (Puts out.old.items (reset_part has_reset) out.new.items) }
{
    if has_reset {
        put_bytes(out, b"reset")
    } else {
        Ok(())
    }
}

/// Writes the sign that stands between two items, before the item of this index.
pub fn put_before(out: &mut Vec<u8>, index: usize, between: Terminal) -> Result<(), NoMemory>
    ensures { OnOk result (Puts out.old.items (before_item index between) out.new.items) }
{
    if index > 0 {
        put_sign(out, between)
    } else {
        Ok(())
    }
}

/// Writes the last token of a line, and ends the line.
pub fn put_end(out: &mut Vec<u8>) -> Result<(), NoMemory>
    ensures { OnOk result (out.new.items ≡ out.old.items ++ codes ";\n") }
{
    out.extend_from_slice(b";\n")?;
    Ok(())
}

/// Writes the head of a binder: its sign, `(`, the name and `:`.
pub fn put_binder(out: &mut Vec<u8>, binder: Terminal, name: &Word) -> Result<(), NoMemory>
    ensures { OnOk result (Puts out.old.items (sign binder ∷ sign the.Open ∷ lower name.now ∷ sign the.Colon ∷ []) out.new.items) }
{
    put_sign(out, binder)?;
    put_sign(out, Terminal::Open)?;
    put_word(out, name)?;
    put_sign(out, Terminal::Colon)?;
    Ok(())
}

/// Writes two signs.
pub fn put_signs(out: &mut Vec<u8>, first: Terminal, second: Terminal) -> Result<(), NoMemory>
    ensures { OnOk result (Puts out.old.items (sign first ∷ sign second ∷ []) out.new.items) }
{
    put_sign(out, first)?;
    put_sign(out, second)?;
    Ok(())
}
