//! The fault that decides.
ghost use Rattle.std.specs.Prelude.{◌≡◌, Option, None};
ghost use Rattle.oz_language.specs.Refusals.{comes_before, is_unbound};
ghost use Rattle.oz_language.specs.declared.fault.Fault.{Fault};
ghost use Rattle.oz_scope.specs.Keeps.{keep};

use oz_language::{Fault, RefusalKind};
use std::marker::Model;

fn is_unbound(fault: &Fault) -> bool
    ensures { result ≡ is_unbound fault.now }
{
    match fault.kind {
        RefusalKind::Unbound => true,
        _ => false,
    }
}

fn comes_before(fault: &Fault, other: &Fault) -> bool
    ensures { result ≡ comes_before fault.now other.now }
{
    fault.at < other.at || (fault.at == other.at && is_unbound(fault))
}

/// Of the fault that was kept and one more, the one that decides.
fn keep(fault: Fault, found: Option<Fault>) -> Fault
    ensures { Some result ≡ keep fault found }
{
    let Some(other) = found else {
        return fault;
    };
    if comes_before(&fault, &other) {
        return fault;
    }
    other
}

/// Of the faults that were met so far, the one that decides.
#[derive(Drop)]
pub struct Found {
    fault: Option<Fault>,
}

impl Model for Found {
    ghost Value = { Option Fault };

    ghost view = { λ f. f.fault };
}

impl Found {
    /// No fault yet.
    pub fn new() -> Found
        ensures { result ≡ None }
    {
        Found { fault: None }
    }

    pub fn meet(&mut self, fault: Fault)
        ensures { self.new ≡ keep fault self.old }
    {
        self.fault = Some(keep(fault, self.fault));
    }

    pub fn fault(&self) -> Option<Fault>
        ensures { result ≡ self.now }
    {
        self.fault
    }
}
