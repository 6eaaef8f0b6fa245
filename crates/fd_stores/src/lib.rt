//! Laws of stores of finite domains: runs of propagators in any order, the notes that tell what is due, and the splits of a
//! distribution.
//!
//! Each function does nothing: its contract is a law. `specs/Stores` has the definitions, `specs/Laws` most of the laws.
#![tactic(auto)]

ghost use Rattle.fd_stores.specs.Notes.{NotesStand, ToldStays};
ghost use Rattle.fd_stores.specs.Laws.{TellsLaw, KeepsLaw, ShrinksLaw, DecidesLaw, RunsLaw, FailsLaw, ChangesLaw, SettledLaw, SplitLaw, NaiveLaw};

/// One run. What it tells leaves each variable what all its positions have (`tells`). It loses no tuple that meets its constraint
/// (`keeps`), and adds none (`shrinks`). Where its variables are determined, it fails exactly where their values do not meet the
/// constraint (`decides`).
pub fn run_law()
    ensures tells { TellsLaw }
    ensures keeps { KeepsLaw }
    ensures shrinks { ShrinksLaw }
    ensures decides { DecidesLaw }
{}

/// Runs in any order. They keep exactly the solutions (`keep`), and where one fails there is none (`fail`). No more of them change
/// something than there are values (`change`), so they end (`settle`).
pub fn runs_law()
    ensures keep { RunsLaw }
    ensures fail { FailsLaw }
    ensures change { ChangesLaw }
    ensures settle { SettledLaw }
{}

/// The note of a propagator, the domains of its variables when its last run began, tells whether a further run would change
/// something (`notes`). A variable that is told a set needs no further run (`told`).
pub fn note_law()
    ensures notes { NotesStand }
    ensures told { ToldStays }
{}

/// A split gives each solution to exactly one of two stores with fewer values (`parts`). For `naive` the tuples of the first are left
/// of those of the second (`order`).
pub fn split_law()
    ensures parts { SplitLaw }
    ensures order { NaiveLaw }
{}
