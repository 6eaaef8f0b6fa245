//! Variables, tells and stores that the tests use.
use oz_base::{Ident, Sequence, Shared, SpaceName};
use oz_language::{Constant, Literal};
use oz_semantics::{Record, Tell, Value};
use std::alloc::{AllocError, Global};
use term_store::Store;

/// A variable of the top.
pub fn variable(number: u64) -> Ident {
    Ident {
        space: SpaceName::top(),
        number,
    }
}

/// `x=v`
pub fn is(x: u64, value: Value) -> Tell {
    Tell::Is {
        variable: variable(x),
        value,
    }
}

/// `x=i`
pub fn integer(x: u64, i: i128) -> Tell {
    is(x, Value::Constant(Constant::Int(i)))
}

/// `x=y`
pub fn equation(x: u64, y: u64) -> Tell {
    Tell::Equal {
        left: variable(x),
        right: variable(y),
    }
}

/// `x=l(k:y ..)`
pub fn record(
    alloc: Global,
    x: u64,
    label: Literal,
    fields: &[(Constant, u64)],
) -> Result<Tell, AllocError> {
    let mut features = Sequence::new(alloc);
    let mut variables = Sequence::new(alloc);
    for (feature, field) in fields {
        features.push(*feature)?;
        variables.push(variable(*field))?;
    }
    let record = Record {
        label,
        features,
        fields: variables,
    };
    Ok(is(x, Value::Record(Shared::new(alloc, record)?)))
}

/// `x=l(y ..)`
pub fn tuple(alloc: Global, x: u64, label: Literal, fields: &[u64]) -> Result<Tell, AllocError> {
    let mut keyed = Vec::new(alloc);
    for (feature, field) in (1..i128::MAX).zip(fields) {
        keyed.push((Constant::Int(feature), *field))?;
    }
    record(alloc, x, label, keyed.as_slice())
}

/// A store that was told this, if that is consistent.
pub fn told(alloc: Global, tells: &[Tell]) -> Result<Store, AllocError> {
    let mut store = Store::new(alloc);
    store.tell(alloc, tells, &mut Vec::new(alloc))?;
    Ok(store)
}
