//! Passes of sums.
use fd_domain::Domain;
use oz_base::{Linear, Relation, Sequence, copies_of};
use propagators::{fits, narrow};
use std::alloc::{AllocError, Global};

/// So many domains from 0 to 1000.
fn domains_of(alloc: Global, count: usize) -> Result<Vec<Domain>, AllocError> {
    let mut domains = Vec::new(alloc);
    for _ in 0..count {
        if let Some(domain) = Domain::range(alloc, 0, 1000)? {
            domains.push(domain)?;
        }
    }
    Ok(domains)
}

/// Makes a pass over copies of the domains. Whether the relation is one over so many.
fn make_pass(alloc: Global, relation: &Relation, domains: &[Domain]) -> Result<bool, AllocError> {
    if !fits(relation, domains.len()) {
        return Ok(false);
    }
    let mut copies = copies_of(alloc, domains)?;
    narrow(alloc, relation, copies.as_mut_slice())?;
    Ok(true)
}

/// Makes so many passes of a sum with these coefficients that is at most 0. Whether all were made.
pub fn make_passes(alloc: Global, coefficients: &[i64], count: u32) -> Result<bool, AllocError> {
    let relation = Relation::Le(Linear {
        constant: 0,
        coefficients: Sequence::from_vec(coefficients.to_vec(alloc)?),
    });
    let domains = domains_of(alloc, coefficients.len())?;
    for _ in 0..count {
        if !make_pass(alloc, &relation, domains.as_slice())? {
            return Ok(false);
        }
    }
    Ok(true)
}
