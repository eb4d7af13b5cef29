//! Decimal numbers.
ghost use Rattle.std.specs.Prelude.{◌≡◌, ℕ, ◌+◌, ◌*◌, ◌<◌, ◌^◌, ◌∷◌, SomeIff, IfSome, IfNone};
ghost use Rattle.std.specs.Char.{digit_value};
ghost use Rattle.std.specs.Str.Parse.{digits_value, IsNumeral};
ghost use Rattle.wave_text.specs.VcdText.{IsTime, IsWidth};

/// The number of a digit, and ten or more of another byte.
fn digit(byte: u8) -> u64
    ensures { result ≡ digit_value byte }
{
    u64::from(char::from(byte).to_digit(36).unwrap_or(36))
}

/// The number with one more decimal digit.
fn with_digit(number: u64, digit: u64) -> Option<u64>
    ensures { SomeIff result ((digit < 10) × (number * 10 + digit < 2 ^ 64)) (number * 10 + digit) }
{
    if digit >= 10 {
        return None;
    }
    number.checked_mul(10)?.checked_add(digit)
}

/// The number of decimal digits, where it is below two to the 64.
fn number_of(digits: &[u8]) -> Option<u64>
    ensures { SomeIff result (IsNumeral 10 digits.now × (digits_value 10 digits.now < 2 ^ 64))
        (digits_value 10 digits.now) }
{
    if digits.is_empty() {
        return None;
    }
    let mut number = 0;
    for byte in digits {
        number = with_digit(number, digit(*byte))?;
    }
    Some(number)
}

/// The width of these digits, where they are one.
pub fn width_of(digits: &[u8]) -> Option<u32>
    ensures some { IfSome result (IsWidth digits.now) }
    ensures none { IfNone result ((width : ℕ) → IsWidth digits.now width → ⊥) }
{
    let number = number_of(digits)?;
    if number == 0 {
        return None;
    }
    if number >= 4_294_967_296 {
        return None;
    }
    Some(number as u32)
}

/// The time behind the `#` of a word.
fn time_behind(digits: &[u8]) -> Option<u64>
    ensures some { IfSome result (IsTime (35 ∷ digits.now)) }
    ensures none { IfNone result ((time : ℕ) → IsTime (35 ∷ digits.now) time → ⊥) }
{
    number_of(digits)
}

/// The time of a word, where it is one.
pub fn time_of(bytes: &[u8]) -> Option<u64>
    ensures some { IfSome result (IsTime bytes.now) }
    ensures none { IfNone result ((time : ℕ) → IsTime bytes.now time → ⊥) }
{
    let [first, digits @ ..] = bytes else {
        return None;
    };
    if *first != b'#' {
        return None;
    }
    time_behind(digits)
}
