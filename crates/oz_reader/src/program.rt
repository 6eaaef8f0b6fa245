//! Programs as they are read.
ghost use Rattle.std.specs.Prelude.{◌≡◌};
ghost use Rattle.oz_syntax.specs.View.{view};

use oz_base::Words;
use oz_syntax::Phrase;
use std::marker::Model;

/// A program: its words, and its phrase, which names them by their numbers.
#[derive(Drop)]
pub struct Program {
    words: Words,
    phrase: Phrase,
}

impl Model for Program {
    ghost use Rattle.oz_language.specs.Refusals as refusals;
    ghost use Rattle.oz_syntax.specs.View as syntax_view;

    ghost Value = { refusals.Program };

    ghost use Rattle.oz_reader.specs.Codes.{program_code};

    ghost coded = { program_code };

    ghost view = { λ p. record { words = p.words; phrase = syntax_view.view p.phrase } };
}

impl Program {
    pub(crate) fn new(words: Words, phrase: Phrase) -> Program
        ensures words { result.words ≡ words }
        ensures phrase { result.phrase ≡ view phrase }
    {
        Program { words, phrase }
    }

    /// The names of variables and atoms, `Script` first.
    pub fn words(&self) -> &Words
        ensures { result.now ≡ self.now.words }
    {
        &self.words
    }

    /// What the text says. A word is its number.
    pub fn phrase(&self) -> &Phrase
        ensures { view result.now ≡ self.now.phrase }
    {
        &self.phrase
    }

    /// The words and the phrase.
    pub fn into_parts(self) -> (Words, Phrase)
        ensures words { result.0 ≡ self.words }
        ensures phrase { view result.1 ≡ self.phrase }
    {
        (self.words, self.phrase)
    }
}
