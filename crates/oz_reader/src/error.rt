//! Why a text is not read.
ghost use Rattle.std.specs.Prelude.{◌≡◌};

use oz_language::{Fault, RefusalKind};
use oz_lex::LexError;
use std::alloc::AllocError;

/// Why a text is not read.
#[derive(Clone, Copy, Debug, PartialEq, Eq)]
pub enum ReadError {
    /// The text is not accepted: what is wrong with it, and at which byte, from 0.
    Refused(Fault),
    /// Memory ran out.
    Memory,
}

impl From<AllocError> for ReadError {
    ghost use Rattle.oz_reader.specs.declared.error.ReadError.TheVariants.{Memory};

    ghost from_gives = { λ _ e. e ≡ Memory };

    fn from(_e: AllocError) -> ReadError {
        ReadError::Memory
    }
}

impl From<LexError> for ReadError {
    ghost use Rattle.oz_reader.specs.Reading.{error_of};

    ghost from_gives = { λ lexed e. e ≡ error_of lexed };

    fn from(e: LexError) -> ReadError {
        match e {
            LexError::BadByte { at } => ReadError::Refused(Fault {
                kind: RefusalKind::Byte,
                at,
            }),
            LexError::Memory => ReadError::Memory,
        }
    }
}
