//! What a program calls by an operator, as it is written.
ghost use Rattle.std.specs.Prelude.{◌≡◌, ◌++◌, OnOk};
ghost use Rattle.oz_language.specs.KernelTexts.{operation_text};

use oz_language::Operation;
use std::alloc::AllocError;

fn text_of(operation: Operation) -> &'static [u8]
    ensures { result.now ≡ operation_text operation }
{
    match operation {
        Operation::Same => b"'=='",
        Operation::Differs => b"'\\='",
        Operation::Less => b"'<'",
        Operation::AtMost => b"'=<'",
        Operation::Greater => b"'>'",
        Operation::AtLeast => b"'>='",
        Operation::Plus => b"'+'",
        Operation::Minus => b"'-'",
        Operation::Times => b"'*'",
        Operation::Div => b"'div'",
        Operation::Mod => b"'mod'",
        Operation::Select => b"'.'",
        Operation::Bound => b"'::'",
        Operation::BoundEach => b"':::'",
    }
}

/// Adds an operation, in quotes.
pub fn add_operation(operation: Operation, out: &mut Vec<u8>) -> Result<(), AllocError>
    ensures { OnOk result (out.new.items ≡ out.old.items ++ operation_text operation) }
{
    out.extend_from_slice(text_of(operation))
}
