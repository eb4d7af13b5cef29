//! The laws of bits, their numbers and their digits. Each is a function that does nothing, and says its law of all bits.
ghost use Rattle.std.specs.Prelude.{◌≡◌, ℕ, ◌+◌, ◌-◌, ◌*◌, ◌/◌, ◌%◌, ◌^◌, ◌<◌, ◌≤◌, Bool, List, ◌++◌, length, map, ℤ, pos, ◌+ℤ◌, ◌-ℤ◌, ◌*ℤ◌};
ghost use Rattle.std.specs.Char.{to_ascii_lowercase};
ghost use Rattle.std.specs.Str.Parse.{digits_value, AllDigits};
ghost use Rattle.chw_bits.specs.Bits.{number_of, bits_of, cut_of};
ghost use Rattle.chw_bits.specs.Hex.{hex_digits, HasWidth};
ghost use Rattle.chw_bits.specs.Integers.{residue_of, word_of};

/// As many bits are made of a number as the width says.
pub fn length_of_made_bits()
    ensures { (width n : ℕ) → length (bits_of width n) ≡ width }
{}

/// The bits made of a number mean what the width keeps of it.
pub fn number_of_made_bits()
    ensures kept { (width n : ℕ) → number_of (bits_of width n) ≡ n % 2 ^ width }
    ensures whole { (width n : ℕ) → n < 2 ^ width → number_of (bits_of width n) ≡ n }
{}

/// Bits are those made of their number, which is below the power of their length.
pub fn bits_made_of_their_number()
    ensures same { (bits : List Bool) → bits_of (length bits) (number_of bits) ≡ bits }
    ensures below { (bits : List Bool) → number_of bits < 2 ^ length bits }
{}

/// Bits of one length that mean one number are the same.
pub fn same_number_same_bits()
    ensures { (xs ys : List Bool) → length xs ≡ length ys → number_of xs ≡ number_of ys → xs ≡ ys }
{}

/// The number of a join is the high number, moved up by the length of the low bits, with the low number.
pub fn number_of_a_join()
    ensures { (high low : List Bool) →
        number_of (high ++ low) ≡ number_of high * 2 ^ length low + number_of low }
{}

/// The length of a cut, and its number: what stands between its two places.
pub fn number_of_a_cut()
    ensures count { (bits : List Bool) (high low : ℕ) → low ≤ high → high < length bits →
        length (cut_of high low bits) ≡ high + 1 - low }
    ensures number { (bits : List Bool) (high low : ℕ) → low ≤ high → high < length bits →
        number_of (cut_of high low bits) ≡ number_of bits / 2 ^ low % 2 ^ (high + 1 - low) }
{}

/// The two parts of a join are cut out of it again.
pub fn cuts_of_a_join()
    ensures low { (high low : List Bool) → 0 < length low →
        cut_of (length low - 1) 0 (high ++ low) ≡ low }
    ensures high { (high low : List Bool) → 0 < length high →
        cut_of (length high + length low - 1) (length low) (high ++ low) ≡ high }
{}

/// The digits of bits are read back as these bits.
pub fn digits_read_back()
    ensures digits { (bits : List Bool) → AllDigits 16 (hex_digits bits) }
    ensures width { (bits : List Bool) → HasWidth (length bits) (hex_digits bits) }
    ensures same { (bits : List Bool) →
        bits_of (length bits) (digits_value 16 (hex_digits bits)) ≡ bits }
{}

/// The digits of bits that were read are the text's, in lower case.
pub fn digits_written_back()
    ensures { (width : ℕ) (text : List ℕ) → AllDigits 16 text → HasWidth width text →
        hex_digits (bits_of width (digits_value 16 text)) ≡ map to_ascii_lowercase text }
{}

/// The word of a number has its lowest bits.
/// A residue has the word of its integer at each width up to its own.
pub fn words_of_residues()
    ensures number { (width n : ℕ) → word_of width (pos n) ≡ bits_of width n }
    ensures residue { (width whole : ℕ) (z : ℤ) → width ≤ whole →
        bits_of width (residue_of whole z) ≡ word_of width z }
{}

/// The word of a sum, of a difference and of a product of integers is made of their words.
pub fn words_of_results()
    ensures sum { (width : ℕ) (y z : ℤ) →
        word_of width (pos (number_of (word_of width y)) +ℤ pos (number_of (word_of width z)))
        ≡ word_of width (y +ℤ z) }
    ensures difference { (width : ℕ) (y z : ℤ) →
        word_of width (pos (number_of (word_of width y)) -ℤ pos (number_of (word_of width z)))
        ≡ word_of width (y -ℤ z) }
    ensures product { (width : ℕ) (y z : ℤ) →
        word_of width (pos (number_of (word_of width y)) *ℤ pos (number_of (word_of width z)))
        ≡ word_of width (y *ℤ z) }
    ensures multiple { (width : ℕ) (y z : ℤ) →
        word_of width (pos (number_of (word_of width y)) *ℤ z) ≡ word_of width (y *ℤ z) }
{}
