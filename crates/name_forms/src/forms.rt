//! Letters, digits and names.
ghost use Rattle.std.specs.Prelude.{◌≡◌, ◌↔◌, IsTrue};
ghost use Rattle.chw_base.specs.Names.{AllOf, IsLowerWord, IsUpper, is_capital, is_letter_or_digit};
ghost use Rattle.chw_base.specs.Names.{is_name_byte, is_small_letter};

/// Whether it is a capital letter.
pub fn is_capital(byte: u8) -> bool
    ensures { result ≡ is_capital byte }
{
    byte >= b'A' && byte <= b'Z'
}

/// Whether it is a small letter.
pub fn is_small_letter(byte: u8) -> bool
    ensures { result ≡ is_small_letter byte }
{
    byte >= b'a' && byte <= b'z'
}

/// Whether it is a letter or a digit.
pub fn is_letter_or_digit(byte: u8) -> bool
    ensures { result ≡ is_letter_or_digit byte }
{
    (byte >= b'a' && byte <= b'z')
        || (byte >= b'A' && byte <= b'Z')
        || (byte >= b'0' && byte <= b'9')
}

/// Whether it is a letter, a digit or `_`.
pub fn is_name_byte(byte: u8) -> bool
    ensures { result ≡ is_name_byte byte }
{
    is_letter_or_digit(byte) || byte == b'_'
}

/// Whether each byte is a letter or a digit.
pub fn are_letters_or_digits(text: &[u8]) -> bool
    ensures { IsTrue result ↔ AllOf is_letter_or_digit text.now }
{
    for byte in text {
        if !is_letter_or_digit(*byte) {
            return false;
        }
    }
    true
}

/// Whether each byte is a letter, a digit or `_`.
pub fn are_name_bytes(text: &[u8]) -> bool
    ensures { IsTrue result ↔ AllOf is_name_byte text.now }
{
    for byte in text {
        if !is_name_byte(*byte) {
            return false;
        }
    }
    true
}

/// Whether it is a capital letter, and letters or digits after it.
pub fn is_upper(word: &[u8]) -> bool
    ensures { IsTrue result ↔ IsUpper word.now }
{
    match word {
        [] => false,
        [first, rest @ ..] => is_capital(*first) && are_letters_or_digits(rest),
    }
}

/// Whether it is a small letter, and letters, digits or `_` after it.
pub fn is_lower_word(word: &[u8]) -> bool
    ensures { IsTrue result ↔ IsLowerWord word.now }
{
    match word {
        [] => false,
        [first, rest @ ..] => is_small_letter(*first) && are_name_bytes(rest),
    }
}
