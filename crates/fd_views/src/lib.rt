//! Laws of what a space sees of a search over finite domains: its view stands for a store, whatever else it was told.
//!
//! Each function does nothing: its contract is a law. `specs/Views` says when a view stands for a store.
#![tactic(auto)]

ghost use Rattle.fd_views.specs.Laws.{ConsistentLaw, FreeLaw, GoesOnLaw, DeterminedLaw, ValueLaw, BoundsLaw, VectorLaw, RuleLaw};

/// A view that stands for domains is consistent (`consistent`). Free variables stay free (`free`), and a view goes on standing for its
/// store (`stays`), whatever else is told. A variable is determined where its domain is (`determined`).
pub fn view_law()
    ensures consistent { ConsistentLaw }
    ensures free { FreeLaw }
    ensures stays { GoesOnLaw }
    ensures determined { DeterminedLaw }
{}

/// What a variable has as its value (`value`), and what a description of a domain (`bounds`), a vector (`vector`) and a rule (`rule`)
/// are.
pub fn input_law()
    ensures value { ValueLaw }
    ensures bounds { BoundsLaw }
    ensures vector { VectorLaw }
    ensures rule { RuleLaw }
{}
