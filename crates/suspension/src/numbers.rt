//! Numbers of threads.
ghost use Rattle.std.specs.Prelude.{◌≡◌, ◌++◌, ℕ, true, Contains, OnOk};
ghost use Rattle.std.specs.List.Sorted.{IsStrictlyIncreasing};
ghost use Rattle.suspension.specs.Changes.{Gains};

use oz_base::Sequence;
use shared_list::SharedList;
use std::alloc::{AllocError, Global};

fn stands_last(list: &SharedList<u64>, number: u64) -> bool
    ensures { result ≡ true → Contains list.now number }
{
    if list.len() == 0 {
        return false;
    }
    match list.get(list.len() - 1) {
        None => false,
        Some(last) => *last == number,
    }
}

/// Adds a number, unless it stands last already.
pub fn add(alloc: Global, list: &mut SharedList<u64>, number: u64) -> Result<(), AllocError>
    ensures { OnOk result (Gains number list.old list.new) }
{
    if stands_last(list, number) {
        return Ok(());
    }
    list.push(alloc, number)
}

/// Adds all numbers of a list.
pub fn add_all(numbers: &mut Vec<u64>, list: &SharedList<u64>) -> Result<(), AllocError>
    ensures { OnOk result (numbers.new.items ≡ numbers.old.items ++ list.now) }
{
    'items: for place in 0..list.len() {
        let Some(number) = list.get(place) else {
            return Err(AllocError);
        };
        numbers.push(*number)?;
    }
    Ok(())
}

/// In ascending order, each once.
pub fn ascending(mut numbers: Vec<u64>) -> Sequence<u64>
    ensures ascends { IsStrictlyIncreasing result }
    ensures kept { (n : ℕ) → Contains numbers.items n → Contains result n }
    ensures only { (n : ℕ) → Contains result n → Contains numbers.items n }
{
    numbers.sort_unstable();
    numbers.dedup();
    Sequence::from_vec(numbers)
}
