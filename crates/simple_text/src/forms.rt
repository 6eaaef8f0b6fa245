//! The form in which a record is written.
ghost use Rattle.std.specs.Prelude.{◌≡◌};
ghost use Rattle.oz_language.specs.SimpleTexts.{count_from, form_of, is_bars, is_chain};

use crate::constants::is_atom;
use crate::keys::is_number;
use oz_base::Words;
use oz_language::{Constant, Form, Literal};

/// Whether the features are 1, 2, ..
fn count_from_one(features: &[Constant]) -> bool
    ensures { result ≡ count_from 1 features.now }
{
    let mut number: u64 = 1;
    for feature in features {
        if !is_number(*feature, number) {
            return false;
        }
        number += 1;
    }
    true
}

/// The form of a record with this label and these features.
pub fn form_of(words: &Words, label: Literal, features: &[Constant]) -> Form
    ensures { result ≡ form_of words.now label features.now }
{
    if is_atom(words, b"|", label) && count_from_one(features) && features.len() == 2 {
        return Form::Bars;
    }
    if is_atom(words, b"#", label) && count_from_one(features) && features.len() >= 2 {
        return Form::Hashes;
    }
    Form::Other
}

/// Whether a text is written with `|`.
pub fn is_bars(form: Form) -> bool
    ensures { result ≡ is_bars form }
{
    match form {
        Form::Bars => true,
        Form::Hashes => false,
        Form::Other => false,
    }
}

/// Whether a text is written with `|` or `#`.
pub fn is_chain(form: Form) -> bool
    ensures { result ≡ is_chain form }
{
    match form {
        Form::Bars => true,
        Form::Hashes => true,
        Form::Other => false,
    }
}
