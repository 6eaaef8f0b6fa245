//! Lists of phrases that have so many.
ghost use Rattle.std.specs.Prelude.{◌≡◌};
ghost use Rattle.oz_language.specs.Grammar.{of_list};
ghost use Rattle.oz_syntax.specs.View.{views};
ghost use Rattle.fd_form.specs.Steps.{one_of, one_seen, two_of, two_seen};

use kernel_output::split;
use oz_syntax::Phrase;

/// The phrase of a list of one.
pub fn one_of(phrases: &[Phrase]) -> Option<&Phrase>
    ensures { one_seen result ≡ one_of (of_list (views phrases.now)) }
{
    let (phrase, others) = split(phrases)?;
    match split(others) {
        Some(_) => None,
        None => Some(phrase),
    }
}

/// The phrases of a list of two.
pub fn two_of(phrases: &[Phrase]) -> Option<(&Phrase, &Phrase)>
    ensures { two_seen result ≡ two_of (of_list (views phrases.now)) }
{
    let (first, others) = split(phrases)?;
    let second = one_of(others)?;
    Some((first, second))
}
