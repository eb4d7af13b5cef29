//! Laws of what Verilog texts denote. Each is a function that does nothing, and says its law of all texts.
ghost use Rattle.std.specs.Prelude.{◌≡◌, ℕ, List};
ghost use Rattle.net_rules.specs.WellFormed.{WellFormed};
ghost use Rattle.netlist.specs.declared.net.Net.{Net};
ghost use Rattle.verilog_text.specs.Grammar.{IsSource};
ghost use Rattle.verilog_text.specs.Source.{Source};
ghost use Rattle.verilog_text.specs.Text.{net_text};
ghost use Rattle.verilog_text.specs.VText.{AreCounted, VText};
ghost use Rattle.verilog_text.specs.VTokens.{NoVToken, Placed, VTokens};

use chw_bits::laws::{
    bits_made_of_their_number, digits_read_back, length_of_made_bits, number_of_made_bits,
    same_number_same_bits,
};

/// A text splits into at most one list of tokens.
pub fn one_splitting()
    ensures { (text : List ℕ) (a b : List Placed) → VTokens text a → VTokens text b → a ≡ b }
{}

/// At most one place of a text is the first at which no token begins.
pub fn one_place_without_a_token()
    ensures { (text : List ℕ) (a b : ℕ) → NoVToken text a → NoVToken text b → a ≡ b }
{}

/// A text that splits into tokens has no place at which none begins.
pub fn split_texts_have_no_such_place()
    ensures { (text : List ℕ) (tokens : List Placed) (at : ℕ) → VTokens text tokens → NoVToken text at → ⊥ }
{}

/// Tokens are those of at most one source.
pub fn one_source()
    ensures { (tokens : List Placed) (a b : Source) → IsSource tokens a → IsSource tokens b → a ≡ b }
{}

/// A text denotes at most one net.
pub fn one_net()
    ensures { (text : List ℕ) (a b : Net) → VText text a → VText text b → a ≡ b }
{
    same_number_same_bits();
}

/// The printed text of a well formed net denotes the net.
pub fn printed_text_denotes_its_net()
    ensures { (net : Net) → WellFormed net → AreCounted net → VText (net_text net) net }
{
    digits_read_back();
    number_of_made_bits();
    length_of_made_bits();
    bits_made_of_their_number();
}

/// Well formed nets that are printed alike are one net.
pub fn one_net_printed()
    ensures { (a b : Net) → WellFormed a → WellFormed b → AreCounted a → AreCounted b → net_text a ≡ net_text b → a ≡ b }
{
    printed_text_denotes_its_net();
    one_net();
}
