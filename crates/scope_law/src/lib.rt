//! The law of scope: the kernel of an accepted program has no identifier that is not bound.
//!
//! The function does nothing: its contract is the law.
#![tactic(auto)]

ghost use Rattle.scope_law.specs.Closed.{ClosedLaw};

/// What runs uses no identifier that nothing binds (CTM 2.3): every identifier of an accepted program's kernel is bound round it
/// where it stands, or is one of the names that every text has.
pub fn closed_law()
    ensures { ClosedLaw }
{}
