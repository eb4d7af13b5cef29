//! What holds of all words. Each law is a function that does nothing.
ghost use Rattle.std.specs.Prelude.{◌≡◌, ℕ, List};
ghost use Rattle.chw_words.specs.Commands.{IsCommand};
ghost use Rattle.chw_words.specs.Flags.{HasFlags};
ghost use Rattle.chw_words.specs.Splitting.{flags_of};
ghost use Rattle.chw_words.specs.declared.command.Command.{Command};

/// Words are at most one command.
pub fn words_are_one_command()
    ensures { (words : List (List ℕ)) (a b : Command) → IsCommand words a → IsCommand words b → a ≡ b }
{}

/// All words behind a command's are taken apart in one way: into its flags, and what is left
/// without them.
pub fn words_have_one_rest()
    ensures some { (command : List ℕ) (words : List (List ℕ))
        → (rest : List (List ℕ)) × (found : List (List ℕ))
        × HasFlags (flags_of command) words rest found }
    ensures one { (command : List ℕ) (words rest others found more : List (List ℕ))
        → HasFlags (flags_of command) words rest found
        → HasFlags (flags_of command) words others more
        → (rest ≡ others) × (found ≡ more) }
{}
