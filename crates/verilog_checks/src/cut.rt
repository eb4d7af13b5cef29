//! Texts cut at a byte.
ghost use Rattle.std.specs.Prelude.{◌≡◌, ◌==◌};
ghost use Rattle.std.specs.List.{after_first, before_first, position};

// The place of the first such byte.
fn place(text: &[u8], sign: u8) -> Option<usize>
    ensures { result ≡ position (λ b. b == sign) text.now }
{
    text.iter().position(|byte| *byte == sign)
}

/// What stands before the first such byte, or all where there is none.
pub fn before(text: &[u8], sign: u8) -> &[u8]
    ensures { result.now ≡ before_first (λ b. b == sign) text.now }
{
    match place(text, sign) {
        Some(place) => &text[..place],
        None => text,
    }
}

/// What stands behind the first such byte, or nothing where there is none.
pub fn behind(text: &[u8], sign: u8) -> &[u8]
    ensures { result.now ≡ after_first (λ b. b == sign) text.now }
{
    match place(text, sign) {
        Some(place) => &text[place + 1..],
        None => &[],
    }
}
