//! The texts of variables that are not determined.
ghost use Rattle.std.specs.Prelude.{◌≡◌, ◌++◌, OnOk, codes, map, option_copied};
ghost use Rattle.oz_language.specs.SimpleTexts.{joined};
ghost use Rattle.oz_semantics.specs.Texts.{interval_text, domain_text, undetermined_text};

use fd_domain::Domain;
use oz_base::Interval;
use simple_text::add_integer;
use std::alloc::{AllocError, Global};

/// Adds the integer of an interval, or its least and its greatest one with `#` between them.
fn add_interval(alloc: Global, interval: Interval, out: &mut Vec<u8>) -> Result<(), AllocError>
    ensures { OnOk result (out.new.items ≡ out.old.items ++ interval_text interval) }
{
    add_integer(alloc, i128::from(interval.low), out)?;
    if interval.low == interval.high {
        return Ok(());
    }
    out.push(b'#')?;
    add_integer(alloc, i128::from(interval.high), out)
}

/// Adds intervals, with a blank between two of them.
fn add_intervals(alloc: Global, intervals: &[Interval], out: &mut Vec<u8>) -> Result<(), AllocError>
    ensures { OnOk result (out.new.items ≡ out.old.items ++ joined (codes " ") (map interval_text intervals.now)) }
{
    let Some((first, others)) = intervals.split_first() else {
        return Ok(());
    };
    add_interval(alloc, *first, out)?;
    for interval in others {
        out.push(b' ')?;
        add_interval(alloc, *interval, out)?;
    }
    Ok(())
}

/// Adds the text of a domain, by its intervals.
fn add_domain(alloc: Global, intervals: &[Interval], out: &mut Vec<u8>) -> Result<(), AllocError>
    ensures { OnOk result (out.new.items ≡ out.old.items ++ domain_text intervals.now) }
{
    out.extend_from_slice(b"_{")?;
    add_intervals(alloc, intervals, out)?;
    out.extend_from_slice(b"}")
}

/// Adds the text of a variable that is not determined: that of its domain, if it has one. It refuses where there is no memory.
pub fn add_undetermined(
    alloc: Global,
    domain: Option<&Domain>,
    out: &mut Vec<u8>,
) -> Result<(), AllocError>
    ensures { OnOk result (out.new.items ≡ out.old.items ++ undetermined_text (option_copied domain.entry)) }
{
    match domain {
        None => out.extend_from_slice(b"_"),
        Some(domain) => add_domain(alloc, domain.intervals(), out),
    }
}
