//! Texts of deep terms.
use oz_base::{Ident, Sequence, Shared, SpaceName, Words};
use oz_language::{Constant, Literal};
use oz_semantics::{Record, Tell, Value};
use std::alloc::{AllocError, Global};
use term_store::Store;
use term_text::term_text;

fn variable(number: u64) -> Ident {
    Ident {
        space: SpaceName::top(),
        number,
    }
}

/// A variable's value is a record of two fields: the first variable of all, and the next one.
fn link(alloc: Global, number: u64, next: u64) -> Result<Tell, AllocError> {
    let features = vec![in alloc; Constant::Int(1), Constant::Int(2)]?;
    let fields = vec![in alloc; variable(0), variable(next)]?;
    let record = Record {
        label: Literal::Unit,
        features: Sequence::from_vec(features),
        fields: Sequence::from_vec(fields),
    };
    Ok(Tell::Is {
        variable: variable(number),
        value: Value::Record(Shared::new(alloc, record)?),
    })
}

/// So many records, each but the first inside the one before.
fn chain(alloc: Global, count: u32) -> Result<Store, AllocError> {
    let mut store = Store::new(alloc);
    let mut touched = Vec::new(alloc);
    for number in 0..u64::from(count) {
        let tells = vec![in alloc; link(alloc, number, number + 1)?]?;
        store.tell(alloc, tells.as_slice(), &mut touched)?;
    }
    Ok(store)
}

/// Prints the term of so many records inside one another, each with a way up to the first: `unit(^1 unit(^2 unit(^3 ..)))`.
/// Whether it was printed within its nodes.
pub fn print_chain(alloc: Global, count: u32) -> Result<bool, AllocError> {
    let store = chain(alloc, count)?;
    let fuel = 2 * u64::from(count) + 1;
    let text = term_text(alloc, &Words::new(alloc), &store, &variable(0), fuel)?;
    Ok(text.is_some())
}
