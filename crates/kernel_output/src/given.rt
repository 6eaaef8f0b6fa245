//! The procedures that the translation calls, which need no declaration.
ghost use Rattle.std.specs.Prelude.{◌≡◌};
ghost use Rattle.oz_language.specs.Wording.{access_word, assign_word, by_need_word};
ghost use Rattle.oz_language.specs.declared.kernel.Identifier.TheVariants.{Word};

use oz_language::Identifier;

/// `Access`, which gives what is in a cell.
pub fn access() -> Identifier
    ensures { result ≡ Word access_word }
{
    Identifier::Word(9)
}

/// `Assign`, which changes it.
pub fn assign() -> Identifier
    ensures { result ≡ Word assign_word }
{
    Identifier::Word(10)
}

/// `ByNeed`, which calls a procedure when its value is needed.
pub fn by_need() -> Identifier
    ensures { result ≡ Word by_need_word }
{
    Identifier::Word(14)
}
