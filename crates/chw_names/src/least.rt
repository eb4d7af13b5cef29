//! The word that stands first in the text.
ghost use Rattle.std.specs.Prelude.{◌≡◌, None};
ghost use Rattle.chw_names.specs.Words.{sooner, word_met};

use chw_grammar::Word;
use std::marker::Model;

/// Of the words that were met, the one that stands first in the text, which contracts see.
#[derive(Drop)]
pub struct Least<'t> {
    word: Option<&'t Word>,
}

impl<'t> Model for Least<'t> {
    ghost use Rattle.std.specs.Prelude.{Option};
    ghost use Rattle.chw_grammar.specs.declared.word.Word.{Word};

    ghost Value = { Option Word };

    ghost use Rattle.chw_names.specs.Words.{word_met};

    ghost view = { λ l. word_met l.word };
}

impl<'t> Least<'t> {
    /// No word was met.
    pub fn new() -> Least<'t>
        ensures { result ≡ None }
    {
        Least { word: None }
    }

    /// Meets a word.
    pub fn meet(&mut self, word: &'t Word)
        ensures { self.new ≡ sooner self.old word.now }
    {
        let is_sooner = match self.word {
            Some(met) => word.at < met.at,
            None => true,
        };
        if is_sooner {
            self.word = Some(word);
        }
    }

    /// The word, where one was met.
    pub fn word(&self) -> Option<&'t Word>
        ensures { word_met result ≡ self.now }
    {
        self.word
    }
}
