//! The forms of names.
ghost use Rattle.std.specs.Prelude.{◌≡◌, drop};
ghost use Rattle.std.specs.List.{list_all};
ghost use Rattle.std.specs.Str.{bytes_eq};
ghost use Rattle.chw_base.specs.Names.{is_capital, is_letter_or_digit, is_name_byte, is_small_letter};
ghost use Rattle.verilog_rules.specs.Declarations.{domain_part, is_clock, name_part};
ghost use Rattle.verilog_rules.specs.Texts.{is_lower_word, is_upper};
ghost use Rattle.verilog_text.specs.Names.{reset_name};

use verilog_checks::cut::{before, behind};

fn is_capital(b: u8) -> bool
    ensures { result ≡ is_capital b }
{
    b.is_ascii_uppercase()
}

fn is_small_letter(b: u8) -> bool
    ensures { result ≡ is_small_letter b }
{
    b.is_ascii_lowercase()
}

fn is_letter_or_digit(b: u8) -> bool
    ensures { result ≡ is_letter_or_digit b }
{
    b.is_ascii_alphanumeric()
}

fn is_name_byte(b: u8) -> bool
    ensures { result ≡ is_name_byte b }
{
    is_letter_or_digit(b) || b == b'_'
}

fn are_letters_or_digits(bytes: &[u8]) -> bool
    ensures { result ≡ list_all is_letter_or_digit bytes.now }
{
    bytes.iter().all(|b| is_letter_or_digit(*b))
}

fn are_name_bytes(bytes: &[u8]) -> bool
    ensures { result ≡ list_all is_name_byte bytes.now }
{
    bytes.iter().all(|b| is_name_byte(*b))
}

/// Whether a name is a capital, and then letters and digits.
pub(crate) fn is_upper(name: &[u8]) -> bool
    ensures { result ≡ is_upper name.now }
{
    match name {
        [first, rest @ ..] => is_capital(*first) && are_letters_or_digits(rest),
        [] => false,
    }
}

/// Whether a name is a small letter, and then letters, digits and `_`.
pub(crate) fn is_lower_word(name: &[u8]) -> bool
    ensures { result ≡ is_lower_word name.now }
{
    match name {
        [first, rest @ ..] => is_small_letter(*first) && are_name_bytes(rest),
        [] => false,
    }
}

/// What stands behind so many bytes.
pub(crate) fn without(name: &[u8], count: usize) -> &[u8]
    ensures { result.now ≡ drop count name.now }
{
    if name.len() < count {
        return &[];
    }
    &name[count..]
}

/// Whether a name begins as that of a clock.
pub(crate) fn is_clock(name: &[u8]) -> bool
    ensures { result ≡ is_clock name.now }
{
    name.starts_with(b"clk_")
}

/// Whether two names are one.
pub(crate) fn are_same(a: &[u8], b: &[u8]) -> bool
    ensures { result ≡ bytes_eq a.now b.now }
{
    a == b
}

/// Whether a name is that of a domain's reset.
pub(crate) fn is_reset_of(name: &[u8], domain: &[u8]) -> bool
    ensures { result ≡ bytes_eq name.now (reset_name domain.now) }
{
    name.starts_with(b"rst_") && are_same(without(name, 4), domain)
}

/// The domain's part of the name of a port, as `D` of `i_D_name`.
pub(crate) fn domain_part(name: &[u8]) -> &[u8]
    ensures { result.now ≡ domain_part name.now }
{
    before(without(name, 2), b'_')
}

/// The port's own name, as `name` of `i_D_name`.
pub(crate) fn name_part(name: &[u8]) -> &[u8]
    ensures { result.now ≡ name_part name.now }
{
    behind(without(name, 2), b'_')
}
