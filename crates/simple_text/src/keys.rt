//! The keys of fields. The features 1, 2, .. are left out as far as they go without a gap.
ghost use Rattle.std.specs.Prelude.{◌≡◌, ◌++◌, pos, OnOk, IfOk};
ghost use Rattle.oz_language.specs.Constants.{constant_eq};
ghost use Rattle.oz_language.specs.declared.kernel.Constant.TheVariants as constants;
ghost use Rattle.simple_text.specs.Keys.{key_text, next_after};

use crate::constants::add_constant;
use oz_base::Words;
use oz_language::Constant;
use std::alloc::{AllocError, Global};

/// Whether a feature is this number.
pub fn is_number(feature: Constant, number: u64) -> bool
    ensures { result ≡ constant_eq feature (constants.Int (pos number)) }
{
    match feature {
        Constant::Int(integer) => integer == i128::from(number),
        Constant::Literal(_) => false,
    }
}

/// Adds the key of a field, where it needs one: `next` is the next feature that is left out. It gives the one after that, and
/// refuses where there is no memory.
pub fn add_key(
    alloc: Global,
    words: &Words,
    feature: Constant,
    next: u64,
    out: &mut Vec<u8>,
) -> Result<u64, AllocError>
    ensures bytes { OnOk result (out.new.items ≡ out.old.items ++ key_text words.now feature next) }
    ensures next { IfOk result (λ after. after ≡ next_after feature next) }
{
    if is_number(feature, next) {
        return next.checked_add(1).ok_or(AllocError);
    }
    add_constant(alloc, words, feature, out)?;
    out.push(b':')?;
    Ok(next)
}
