//! The cost of a script: the variable named `Cost`, whose value a best search makes as small as it can (CTM 12.1).
ghost use Rattle.std.specs.Prelude.{◌≡◌, ℕ, Some, None, IfSome, IfNone, slice_get, position, codes};
ghost use Rattle.oz_base.specs.Lists.{list_eq};
ghost use Rattle.oz_language.specs.Kernels.{word_text};
ghost use Rattle.fd_form.specs.Costs.{cost_place};

use crate::FdScript;
use oz_base::Words;
use oz_language::Constant;
use simple_text::word_text;

/// The cost of a script: its place among the variables, and the feature of the answer's field that shows it.
#[derive(Clone, Copy)]
pub struct Cost {
    pub place: usize,
    pub feature: Constant,
}

/// Whether a text is this name.
fn same_name(left: &[u8], right: &[u8]) -> bool
    ensures { result ≡ list_eq left.now right.now }
{
    left == right
}

/// Whether a variable is named `Cost`.
fn is_cost(words: &Words, variable: u32) -> bool
    ensures { result ≡ list_eq (word_text words.now variable) (codes "Cost") }
{
    same_name(word_text(words, variable), b"Cost")
}

/// The place of the cost among the variables of a script.
fn cost_place(words: &Words, script: &FdScript) -> Option<usize>
    ensures { result ≡ cost_place words.now script.now }
{
    let variables = script.variables.as_slice();
    variables
        .iter()
        .position(|variable| is_cost(words, *variable))
}

/// The cost of a script that has one. Where it has none, no variable is named `Cost`, or that variable has no feature, which no
/// program's script lets happen.
pub fn cost_of(words: &Words, script: &FdScript) -> Option<Cost>
    ensures some { IfSome result (λ c. (cost_place words.now script.now ≡ Some c.place) × (slice_get script.now.features c.place ≡ Some c.feature)) }
    ensures none { IfNone result ((place : ℕ) → cost_place words.now script.now ≡ Some place → slice_get script.now.features place ≡ None) }
{
    let place = cost_place(words, script)?;
    let feature = script.features.as_slice().get(place)?;
    Some(Cost {
        place,
        feature: *feature,
    })
}
