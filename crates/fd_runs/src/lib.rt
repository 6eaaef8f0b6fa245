//! Laws of what is told in a search over finite domains: what propagators and distributors tell a space is what runs and splits do to the
//! store that its view stands for.
//!
//! Each function does nothing: its contract is a law. `fd_views` says when a view stands for a store.
#![tactic(auto)]

ghost use Rattle.fd_runs.specs.Laws.{ConfineLaw, PostsLaw, RunLaw, NotesLaw, OfferLaw, PartsLaw};

/// Domains that are told are runs of the store (`confined`), what is posted leaves it as it is (`posted`), and a run of a propagator is
/// a run of the store (`run`), which it notes (`note`).
pub fn run_law()
    ensures confined { ConfineLaw }
    ensures posted { PostsLaw }
    ensures run { RunLaw }
    ensures note { NotesLaw }
{}

/// A distributor offers the parts of the split that its rule takes (`offer`), which are the two stores of the split (`parts`).
pub fn offer_law()
    ensures offer { OfferLaw }
    ensures parts { PartsLaw }
{}
