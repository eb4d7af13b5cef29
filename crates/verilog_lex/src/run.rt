//! Runs of bytes of one class.
ghost use Rattle.std.specs.Prelude.{◌≡◌, length};
ghost use Rattle.chw_base.specs.Names.{is_digit, is_letter_or_digit};
ghost use Rattle.verilog_text.specs.VForms.{begins_word};
ghost use Rattle.verilog_lex.specs.Scanning.{is_of, IsRun};

/// Which bytes a run is of.
#[derive(Clone, Copy)]
pub enum Class {
    /// Space, tab, line feed and carriage return.
    White,
    /// Every byte but the line feed.
    Line,
    /// `0` to `9`.
    Digit,
    /// `0` to `9`, `a` to `f` and `A` to `F`.
    HexDigit,
    /// Letters, digits and `_`.
    NameByte,
}

/// Whether the byte is of the class.
fn is_of(class: Class, byte: u8) -> bool
    ensures { result ≡ is_of class byte }
{
    match class {
        Class::White => byte == b' ' || byte == b'\t' || byte == b'\n' || byte == b'\r',
        Class::Line => byte != b'\n',
        Class::Digit => is_digit(byte),
        Class::HexDigit => {
            is_digit(byte) || (byte >= b'a' && byte <= b'f') || (byte >= b'A' && byte <= b'F')
        }
        Class::NameByte => is_letter_or_digit(byte) || byte == b'_',
    }
}

/// Whether the byte is `0` to `9`.
pub fn is_digit(byte: u8) -> bool
    ensures { result ≡ is_digit byte }
{
    byte >= b'0' && byte <= b'9'
}

/// Whether the byte is a letter or `_`.
pub fn begins_word(byte: u8) -> bool
    ensures { result ≡ begins_word byte }
{
    (byte >= b'a' && byte <= b'z') || (byte >= b'A' && byte <= b'Z') || byte == b'_'
}

fn is_letter_or_digit(byte: u8) -> bool
    ensures { result ≡ is_letter_or_digit byte }
{
    (byte >= b'a' && byte <= b'z') || (byte >= b'A' && byte <= b'Z') || is_digit(byte)
}

/// How many bytes at the front are of the class.
pub fn run_len(bytes: &[u8], class: Class) -> usize
    ensures { IsRun (is_of class) bytes.now result }
{
    for (n, byte) in bytes.iter().enumerate() {
        if !is_of(class, *byte) {
            return n;
        }
    }
    bytes.len()
}
