//! Lists of phrases.
ghost use Rattle.std.specs.Prelude.{◌≡◌, MatchOption};
ghost use Rattle.oz_language.specs.Grammar.{nothing, more, of_list};
ghost use Rattle.oz_syntax.specs.View.{view, views};

use oz_syntax::Phrase;

/// The first of phrases, and the others.
pub fn split(phrases: &[Phrase]) -> Option<(&Phrase, &[Phrase])>
    ensures { MatchOption result (of_list (views phrases.now) ≡ nothing) (λ parts. of_list (views phrases.now) ≡ more (view parts.0.now) (of_list (views parts.1.now))) }
{
    phrases.split_first()
}
