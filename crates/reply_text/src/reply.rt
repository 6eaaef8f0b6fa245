//! What is written of the texts that were shown, and of the leaves of a search.
ghost use Rattle.std.specs.Prelude.{◌≡◌, ◌<◌, ◌++◌, IfOk, OnOk, codes, count_by, length, slice_index_or};
ghost use Rattle.std.specs.List.{flat_map};
ghost use Rattle.std.specs.Fmt.{decimal};
ghost use Rattle.oz_replies.specs.Replies.{line, leaf_line, leaf_lines, is_solved, is_stuck, is_raised, is_suspended, total_line, leaves_reply};

use oz_base::Sequence;
use oz_search::Outcome;
use shared_list::SharedList;
use std::alloc::{AllocError, Global};

/// One of the texts.
fn text_at(texts: &SharedList<Sequence<u8>>, place: u64) -> &[u8]
    requires { place < length texts.now }
    ensures { result.now ≡ slice_index_or texts.now place result.now }
{
    match texts.get(place) {
        Some(text) => text.as_slice(),
        None => unreachable!(),
    }
}

/// A line for each text.
pub fn lines(alloc: Global, texts: &SharedList<Sequence<u8>>) -> Result<Vec<u8>, AllocError>
    ensures { IfOk result (λ lines. lines.items ≡ flat_map line texts.now) }
{
    let mut lines = Vec::new(alloc);
    'texts: for place in 0..texts.len() {
        lines.extend_from_slice(text_at(texts, place))?;
        lines.extend_from_slice(b"\n")?;
    }
    Ok(lines)
}

/// Adds a number in decimal digits.
pub fn add_decimal(alloc: Global, number: u64, out: &mut Vec<u8>) -> Result<(), AllocError>
    ensures { OnOk result (out.new.items ≡ out.old.items ++ decimal number) }
{
    let digits = number.to_string(alloc)?;
    out.extend_from_slice(digits.as_bytes())
}

/// Adds a word, the number of a leaf, and its text.
fn add_shown(
    alloc: Global,
    word: &[u8],
    number: u64,
    text: &[u8],
    out: &mut Vec<u8>,
) -> Result<(), AllocError>
    ensures { OnOk result (out.new.items ≡ out.old.items ++ word.now ++ decimal number ++ codes " " ++ text.now ++ codes "\n") }
{
    out.extend_from_slice(word)?;
    add_decimal(alloc, number, out)?;
    out.extend_from_slice(b" ")?;
    out.extend_from_slice(text)?;
    out.extend_from_slice(b"\n")
}

fn add_suspended(alloc: Global, number: u64, out: &mut Vec<u8>) -> Result<(), AllocError>
    ensures { OnOk result (out.new.items ≡ out.old.items ++ codes "suspended " ++ decimal number ++ codes "\n") }
{
    out.extend_from_slice(b"suspended ")?;
    add_decimal(alloc, number, out)?;
    out.extend_from_slice(b"\n")
}

/// Adds the line of a leaf. Of a failed node there is none.
fn add_leaf_line(
    alloc: Global,
    number: u64,
    leaf: &Outcome,
    out: &mut Vec<u8>,
) -> Result<(), AllocError>
    ensures { OnOk result (out.new.items ≡ out.old.items ++ leaf_line number leaf.now) }
{
    match leaf {
        Outcome::Solved(text) => add_shown(alloc, b"solved ", number, text.as_slice(), out),
        Outcome::Stuck(text) => add_shown(alloc, b"stuck ", number, text.as_slice(), out),
        Outcome::Raised(text) => add_shown(alloc, b"raised ", number, text.as_slice(), out),
        Outcome::Suspended => add_suspended(alloc, number, out),
        Outcome::Failed => Ok(()),
    }
}

/// Adds a line for each leaf, numbered from 1.
fn add_leaf_lines(alloc: Global, leaves: &[Outcome], out: &mut Vec<u8>) -> Result<(), AllocError>
    ensures { OnOk result (out.new.items ≡ out.old.items ++ leaf_lines 1 leaves.now) }
{
    let mut number: u64 = 1;
    for leaf in leaves {
        add_leaf_line(alloc, number, leaf, out)?;
        number += 1;
    }
    Ok(())
}

fn is_solved(leaf: &Outcome) -> bool
    ensures { result ≡ is_solved leaf.now }
{
    matches!(leaf, Outcome::Solved(_))
}

fn is_stuck(leaf: &Outcome) -> bool
    ensures { result ≡ is_stuck leaf.now }
{
    matches!(leaf, Outcome::Stuck(_))
}

fn is_raised(leaf: &Outcome) -> bool
    ensures { result ≡ is_raised leaf.now }
{
    matches!(leaf, Outcome::Raised(_))
}

fn is_suspended(leaf: &Outcome) -> bool
    ensures { result ≡ is_suspended leaf.now }
{
    matches!(leaf, Outcome::Suspended)
}

fn count_solved(leaves: &[Outcome]) -> usize
    ensures { result ≡ count_by is_solved leaves.now }
{
    leaves.iter().filter(|leaf| is_solved(leaf)).count()
}

fn count_stuck(leaves: &[Outcome]) -> usize
    ensures { result ≡ count_by is_stuck leaves.now }
{
    leaves.iter().filter(|leaf| is_stuck(leaf)).count()
}

fn count_raised(leaves: &[Outcome]) -> usize
    ensures { result ≡ count_by is_raised leaves.now }
{
    leaves.iter().filter(|leaf| is_raised(leaf)).count()
}

fn count_suspended(leaves: &[Outcome]) -> usize
    ensures { result ≡ count_by is_suspended leaves.now }
{
    leaves.iter().filter(|leaf| is_suspended(leaf)).count()
}

/// The line of the totals.
fn total_line(alloc: Global, leaves: &[Outcome]) -> Result<Vec<u8>, AllocError>
    ensures { IfOk result (λ line. line.items ≡ total_line leaves.now) }
{
    let mut line = Vec::new(alloc);
    line.extend_from_slice(b"total solved=")?;
    add_decimal(alloc, count_solved(leaves) as u64, &mut line)?;
    line.extend_from_slice(b" stuck=")?;
    add_decimal(alloc, count_stuck(leaves) as u64, &mut line)?;
    line.extend_from_slice(b" raised=")?;
    add_decimal(alloc, count_raised(leaves) as u64, &mut line)?;
    line.extend_from_slice(b" suspended=")?;
    add_decimal(alloc, count_suspended(leaves) as u64, &mut line)?;
    line.extend_from_slice(b"\n")?;
    Ok(line)
}

/// Adds what a search that found these leaves writes.
#[tactic(auto, unfolding(oz_replies::specs::Replies::leaves_reply))]
pub fn add_leaves_reply(
    alloc: Global,
    leaves: &[Outcome],
    out: &mut Vec<u8>,
) -> Result<(), AllocError>
    ensures { OnOk result (out.new.items ≡ out.old.items ++ leaves_reply leaves.now) }
{
    add_leaf_lines(alloc, leaves, out)?;
    let line = total_line(alloc, leaves)?;
    out.extend_from_slice(line.as_slice())
}
