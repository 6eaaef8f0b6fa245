//! What a plain search reports of a leaf.
ghost use Rattle.std.specs.Prelude.{◌≡◌};
ghost use Rattle.oz_search.specs.Plain.{is_failed};

use oz_base::Sequence;

/// How a leaf ended. Where it shows a term, the bytes are the term's text.
#[derive(Drop)]
pub enum Outcome {
    /// What the node was told is inconsistent.
    Failed,
    /// It is stable, and nothing is left to do: the text of its solution.
    Solved(Sequence<u8>),
    /// It is stable and offers no choice, and a thread still waits: the text of the solution as far as it is known.
    Stuck(Sequence<u8>),
    /// It has raised: the text of what it raised.
    Raised(Sequence<u8>),
    /// Nothing in it can step, and it is not stable.
    Suspended,
}

impl Outcome {
    /// Whether the node failed. A failed one is no leaf of the answer.
    pub fn is_failed(&self) -> bool
        ensures { result ≡ is_failed self.now }
    {
        match self {
            Outcome::Failed => true,
            Outcome::Solved(_) => false,
            Outcome::Stuck(_) => false,
            Outcome::Raised(_) => false,
            Outcome::Suspended => false,
        }
    }
}
