//! Identifiers as they are written.
ghost use Rattle.std.specs.Prelude.{◌≡◌, ◌++◌, codes, OnOk};
ghost use Rattle.oz_language.specs.SimpleTexts.{gapped};
ghost use Rattle.oz_language.specs.KernelTexts.{name_text, name_texts, spaced};

use oz_base::Words;
use oz_language::Identifier;
use simple_text::{add_decimal, word_text};
use std::alloc::{AllocError, Global};

/// Adds an identifier. One that the translation made is `_` and its number.
pub fn add_name(
    alloc: Global,
    words: &Words,
    name: Identifier,
    out: &mut Vec<u8>,
) -> Result<(), AllocError>
    ensures { OnOk result (out.new.items ≡ out.old.items ++ name_text words.now name) }
{
    match name {
        Identifier::Word(number) => out.extend_from_slice(word_text(words, number)),
        Identifier::Fresh(number) => {
            out.push(b'_')?;
            add_decimal(alloc, u128::from(number), out)
        }
    }
}

/// Adds identifiers with a blank before each.
pub fn add_further_names(
    alloc: Global,
    words: &Words,
    names: &[Identifier],
    out: &mut Vec<u8>,
) -> Result<(), AllocError>
    ensures { OnOk result (out.new.items ≡ out.old.items ++ gapped (codes " ") (name_texts words.now names.now)) }
{
    'names: for name in names {
        out.push(b' ')?;
        add_name(alloc, words, *name, out)?;
    }
    Ok(())
}

/// Adds identifiers with a blank between them.
pub fn add_names(
    alloc: Global,
    words: &Words,
    names: &[Identifier],
    out: &mut Vec<u8>,
) -> Result<(), AllocError>
    ensures { OnOk result (out.new.items ≡ out.old.items ++ spaced (name_texts words.now names.now)) }
{
    match names {
        [] => Ok(()),
        [first, further @ ..] => {
            add_name(alloc, words, *first, out)?;
            add_further_names(alloc, words, further, out)
        }
    }
}
