//! What a match comes to.
ghost use Rattle.std.specs.Prelude.{◌≡◌, ◌∷◌, [], IfOk, OnOk};
ghost use Rattle.environments.specs.Environments.{Environment};
ghost use Rattle.oz_semantics.specs.Matching.{with_piece, matched};
ghost use Rattle.matching.specs.Verdicts.{match_of, waits_in};

use crate::left::Left;
use crate::nodes::{Step, node_step};
use environments::Environment;
use oz_base::{Copies, Ident};
use oz_language::Piece;
use std::alloc::{AllocError, Global};
use term_store::Store;

/// What a match comes to.
#[derive(Drop)]
pub enum Verdict {
    /// In this environment.
    Matches(Environment),
    Differs,
    /// Until this variable is determined.
    Waits(Ident),
}

/// Binds a variable of the pattern to what is in its place.
fn bind(
    alloc: Global,
    piece: &Piece,
    subject: &Ident,
    environment: &mut Environment,
) -> Result<(), AllocError>
    ensures { OnOk result (environment.new ≡ with_piece piece.now subject.now environment.old) }
{
    if let Piece::Variable(name) = piece {
        environment.bind(alloc, *name, subject.copied(alloc)?)?;
    }
    Ok(())
}

/// What a match of a pattern against a variable comes to, in an environment. It refuses where there is no memory.
pub fn decide(
    alloc: Global,
    store: &Store,
    pattern: &[Piece],
    subject: &Ident,
    environment: &Environment,
) -> Result<Verdict, AllocError>
    ensures { IfOk result (λ verdict. match_of verdict ≡ matched store.now pattern.now (subject.now ∷ []) environment.now) }
{
    let mut left = Left::new(alloc, pattern, subject);
    let mut extended = environment.copied(alloc)?;
    'nodes: while let Some((piece, place)) = left.take() {
        match node_step(store, piece, place) {
            Step::Differs => return Ok(Verdict::Differs),
            Step::Waits => return Ok(Verdict::Waits(place.copied(alloc)?)),
            Step::Fields(fields) => {
                bind(alloc, piece, place, &mut extended)?;
                left.enter(fields)?;
            }
        }
    }
    Ok(Verdict::Matches(extended))
}

/// The variable that a match of a pattern against a variable waits for, if it waits: the same in every environment. It refuses
/// where there is no memory.
pub fn waits(
    alloc: Global,
    store: &Store,
    pattern: &[Piece],
    subject: &Ident,
) -> Result<Option<Ident>, AllocError>
    ensures { (environment : Environment) → IfOk result (λ waits. waits ≡ waits_in (matched store.now pattern.now (subject.now ∷ []) environment)) }
{
    let mut left = Left::new(alloc, pattern, subject);
    'nodes: while let Some((piece, place)) = left.take() {
        match node_step(store, piece, place) {
            Step::Differs => return Ok(None),
            Step::Waits => return Ok(Some(place.copied(alloc)?)),
            Step::Fields(fields) => left.enter(fields)?,
        }
    }
    Ok(None)
}
