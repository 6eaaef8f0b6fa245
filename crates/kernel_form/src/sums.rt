//! What a program says of integers: sums that stand in an order to 0, and products.
ghost use Rattle.std.specs.Prelude.{◌≡◌, ◌∷◌, ◌++◌, [], map, codes, OnOk};
ghost use Rattle.oz_language.specs.SimpleTexts.{gapped, integer_text};
ghost use Rattle.oz_language.specs.KernelTexts.{name_texts, sign_text, linear_text, spaced};

use crate::names::{add_name, add_names};
use oz_base::Words;
use oz_language::{Identifier, LinearTerm, Sign};
use simple_text::add_integer;
use std::alloc::{AllocError, Global};

// How a sum stands to 0.
fn text_of(sign: Sign) -> &'static [u8]
    ensures { result.now ≡ sign_text sign }
{
    match sign {
        Sign::Zero => b"eq",
        Sign::NotZero => b"ne",
        Sign::Negative => b"lt",
        Sign::NotPositive => b"le",
    }
}

// `A*X`
fn add_term(
    alloc: Global,
    words: &Words,
    term: LinearTerm,
    out: &mut Vec<u8>,
) -> Result<(), AllocError>
    ensures { OnOk result (out.new.items ≡ out.old.items ++ linear_text words.now term) }
{
    add_integer(alloc, i128::from(term.coefficient), out)?;
    out.extend_from_slice(b"*")?;
    add_name(alloc, words, term.variable, out)
}

// Terms with a blank before each.
fn add_further_terms(
    alloc: Global,
    words: &Words,
    terms: &[LinearTerm],
    out: &mut Vec<u8>,
) -> Result<(), AllocError>
    ensures { OnOk result (out.new.items ≡ out.old.items ++ gapped (codes " ") (map (linear_text words.now) terms.now)) }
{
    'terms: for term in terms {
        out.push(b' ')?;
        add_term(alloc, words, *term, out)?;
    }
    Ok(())
}

// `S C`
fn add_order(alloc: Global, sign: Sign, constant: i64, out: &mut Vec<u8>) -> Result<(), AllocError>
    ensures { OnOk result (out.new.items ≡ out.old.items ++ (sign_text sign ++ codes " " ++ integer_text constant)) }
{
    out.extend_from_slice(text_of(sign))?;
    out.extend_from_slice(b" ")?;
    add_integer(alloc, i128::from(constant), out)
}

/// Adds `post(S C A*X ..)`.
pub fn add_sum(
    alloc: Global,
    words: &Words,
    sign: Sign,
    constant: i64,
    terms: &[LinearTerm],
    out: &mut Vec<u8>,
) -> Result<(), AllocError>
    ensures { OnOk result (out.new.items ≡ out.old.items ++ (codes "post(" ++ spaced (sign_text sign ∷ integer_text constant ∷ map (linear_text words.now) terms.now) ++ codes ")")) }
{
    out.extend_from_slice(b"post(")?;
    add_order(alloc, sign, constant, out)?;
    add_further_terms(alloc, words, terms, out)?;
    out.extend_from_slice(b")")
}

/// Adds `post(times X Y Z)`.
pub fn add_product(
    alloc: Global,
    words: &Words,
    left: Identifier,
    right: Identifier,
    product: Identifier,
    out: &mut Vec<u8>,
) -> Result<(), AllocError>
    ensures { OnOk result (out.new.items ≡ out.old.items ++ (codes "post(times " ++ spaced (name_texts words.now (left ∷ right ∷ product ∷ [])) ++ codes ")")) }
{
    out.extend_from_slice(b"post(times ")?;
    add_names(alloc, words, &[left, right, product], out)?;
    out.extend_from_slice(b")")
}
