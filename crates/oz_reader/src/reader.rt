//! Reads the program of a text.
ghost use Rattle.std.specs.Prelude.{◌≡◌, IfOk, IfErr};
ghost use Rattle.oz_language.specs.Refusals.{Program, Accepts, IsRefused};
ghost use Rattle.oz_language.specs.Tokens.{Lexes, Whole};
ghost use Rattle.oz_language.specs.declared.fault.Fault.{Fault};
ghost use Rattle.oz_syntax.specs.View.{view};
ghost use Rattle.reader_law.specs.Machine.{step, finish};
ghost use Rattle.oz_reader.specs.Reading.{Faults, Refuses, IsRead, StepsAt, GivesAt, refusal};
ghost use Rattle.open_constructs.specs.View.{stack_of};

use crate::error::ReadError;
use crate::program::Program;
use crate::steps;
use open_constructs::{Frame, StepError};
use open_depth::Depth;
use oz_language::{Fault, Lexeme, RefusalKind, Token};
use oz_lex::{first_words, lexemes, one_reading, token_of};
use oz_scope::first_fault;
use oz_syntax::Phrase;
use reader_law::{begins_law, parses_law};
use std::alloc::Global;

/// Reads the program of a text.
///
/// A text has one program at most. Where it has none it is refused with one fault, and with nothing else: the first byte at which
/// no token begins; else the first token that lies at a depth of more than 200, or with which the tokens begin no program,
/// whichever comes first, where one that is both counts as too deep; else, at its length, a text that ends before its program does;
/// else the fault of its names, or of what stands in it twice, at the first place. It takes the time of going over the text once.
pub fn read_program(alloc: Global, text: &[u8]) -> Result<Program, ReadError>
    ensures accepted { IfOk result (Accepts text.now) }
    ensures only { IfOk result (λ p. (q : Program) → Accepts text.now q → q ≡ p) }
    ensures unrefused { IfOk result (λ p. (fault : Fault) → IsRefused text.now fault → ⊥) }
    ensures refused { IfErr result (Refuses text.now) }
{
    one_reading();
    parses_law();
    read_text(alloc, text)
}

fn read_text(alloc: Global, text: &[u8]) -> Result<Program, ReadError>
    ensures accepted { IfOk result (Accepts text.now) }
    ensures refused { IfErr result (Faults (IsRefused text.now)) }
{
    let lexemes = lexemes(alloc, text)?;
    let program = read_lexemes(alloc, text, lexemes.as_slice())?;
    match first_fault(alloc, program.phrase())? {
        Some(fault) => Err(ReadError::Refused(fault)),
        None => Ok(program),
    }
}

/// Reads all tokens of a text.
fn read_lexemes(alloc: Global, text: &[u8], lexemes: &[Lexeme]) -> Result<Program, ReadError>
    requires { Lexes text.now 0 lexemes.now Whole }
    ensures read { IfOk result (IsRead text.now lexemes.now) }
    ensures refused { IfErr result (Faults (IsRefused text.now)) }
{
    begins_law();
    parses_law();
    let mut words = first_words(alloc)?;
    let mut stack = steps::start(alloc)?;
    let mut depth = Depth::new(alloc)?;
    for lexeme in lexemes {
        let token = token_of(&mut words, text, *lexeme)?;
        depth.take(token)?;
        if depth.is_too_deep() {
            return Err(refusal(RefusalKind::Deep, lexeme.at));
        }
        take_at(alloc, &mut stack, token, lexeme.at)?;
    }
    let phrase = finish_at(alloc, stack, text.len())?;
    Ok(Program::new(words, phrase))
}

fn refusal(kind: RefusalKind, at: usize) -> ReadError
    ensures { result ≡ refusal kind at }
{
    ReadError::Refused(Fault { kind, at })
}

/// Takes the token that stands at this place.
fn take_at(alloc: Global, stack: &mut Vec<Frame>, token: Token, at: usize) -> Result<(), ReadError>
    ensures { StepsAt at result stack.new.items (step token (stack_of stack.old.items)) }
{
    match steps::take(alloc, stack, Some(token)) {
        Ok(()) => Ok(()),
        Err(StepError::Memory) => Err(ReadError::Memory),
        Err(StepError::Refused) => Err(refusal(RefusalKind::Syntax, at)),
    }
}

/// The program, if the text may end, at this place.
fn finish_at(alloc: Global, stack: Vec<Frame>, at: usize) -> Result<Phrase, ReadError>
    ensures { GivesAt view at result (finish (stack_of stack.items)) }
{
    match steps::finish(alloc, stack) {
        Ok(program) => Ok(program),
        Err(StepError::Memory) => Err(ReadError::Memory),
        Err(StepError::Refused) => Err(refusal(RefusalKind::Syntax, at)),
    }
}
