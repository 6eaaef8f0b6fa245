//! What a history of the best search of a finite-domain script tells is a right answer.
//!
//! The function does nothing: its contract is a law.
#![tactic(auto)]

ghost use Rattle.best_laws.specs.Laws.{BestAnswerLaw};

/// What a history of the best search of a script with a cost tells is a right answer to its program. Nothing: it holds a law.
pub fn best_answer_law()
    ensures { BestAnswerLaw }
{}
