//! Searches by several workers.
use oz_outside::{Gate, HoldGate, MemSink, MemSource, OpenGate};
use oz_top::oz_call;
use std::alloc::Global;
use std::process::Abort;
use std::sync::Wait;
use std::test::Fail;
use std::thread::Threads;

const TWO: &[u8] = b"proc {Script R} choice R=a [] R=b end end";

const TWO_LEAVES: &str = "solved 1 a\nsolved 2 b\ntotal solved=2 stuck=0 raised=0 suspended=0\n";

/// Eight alternatives, each with a choice of two.
const WIDE: &[u8] =
    b"proc {Script R} A B in choice A=1 [] A=2 [] A=3 [] A=4 [] A=5 [] A=6 [] A=7 [] A=8 end choice B=a [] B=b end R=A#B end";

const WIDE_LEAVES: &str =
    "solved 1 1#a\nsolved 2 1#b\nsolved 3 2#a\nsolved 4 2#b\nsolved 5 3#a\nsolved 6 3#b\nsolved 7 4#a\nsolved 8 4#b\nsolved 9 5#a\nsolved 10 5#b\nsolved 11 6#a\nsolved 12 6#b\nsolved 13 7#a\nsolved 14 7#b\nsolved 15 8#a\nsolved 16 8#b\ntotal solved=16 stuck=0 raised=0 suspended=0\n";

/// A tree without an end.
const ENDLESS: &[u8] = b"proc {Script R} choice R=a [] {Script R} [] {Script R} end end";

/// Turns of a loop for which a worker is held up where no other comes: far more than another one needs to come.
const HOLD: u64 = 100_000_000;

/// A problem with a cost: of the pairs of digits with the sum 7, the first at least 3, the one with the least `2*X+Y`.
const PRICED: &[u8] =
    b"proc {Script R} X Y Cost in R=sol(X Y Cost) X::0#9 Y::0#9 X+Y=:7 X>=:3 Cost=:2*X+Y {FD.distribute naive R} end";

const CHEAPEST: &str = "best sol(3 4 10)\ncost 10\n";

/// A command, a number of workers, a budget and a text, what is written for them, and the status.
#[derive(Clone, Copy)]
struct Row<'a> {
    command: &'a str,
    workers: &'a str,
    budget: &'a str,
    text: &'a [u8],
    reply: &'a str,
    status: u8,
}

fn check<R: Abort + Threads + Wait + Sync, G: Gate>(
    rt: &R,
    alloc: Global,
    row: &Row<'_>,
    gate: &G,
) -> Result<(), Fail> {
    let mut words = Vec::new(alloc);
    for word in [
        row.command,
        "--workers",
        row.workers,
        "--budget",
        row.budget,
    ] {
        words.push(word.to_string(alloc)?)?;
    }
    let mut source = MemSource::new(alloc, row.text, 1000, &[])?;
    let mut sink = MemSink::new(alloc, 1000, 1000, &[])?;
    let outcome = oz_call(rt, alloc, words.as_slice(), &mut source, &mut sink, gate);
    assert_eq!(rt; sink.written(), row.reply.as_bytes());
    assert_eq!(rt; outcome.status, row.status);
    Ok(())
}

#[test]
fn many_workers_answer_as_one(rt: HostRuntime) -> Result<(), Fail> {
    for workers in ["1", "2", "64"] {
        let rows = [
            Row {
                command: "all",
                workers,
                budget: "9",
                text: TWO,
                reply: TWO_LEAVES,
                status: 0,
            },
            Row {
                command: "all",
                workers,
                budget: "8",
                text: TWO,
                reply: "spent 8\n",
                status: 6,
            },
            Row {
                command: "all",
                workers,
                budget: "2000",
                text: ENDLESS,
                reply: "spent 2000\n",
                status: 6,
            },
        ];
        for row in &rows {
            check(&rt, rt.alloc(), row, &OpenGate)?;
        }
    }
    Ok(())
}

#[test]
fn many_workers_find_what_is_best(rt: HostRuntime) -> Result<(), Fail> {
    for workers in ["1", "2", "64"] {
        let rows = [
            Row {
                command: "best",
                workers,
                budget: "1000",
                text: PRICED,
                reply: CHEAPEST,
                status: 0,
            },
            Row {
                command: "best",
                workers,
                budget: "1",
                text: PRICED,
                reply: "spent 1\n",
                status: 6,
            },
            Row {
                command: "best",
                workers,
                budget: "1000",
                text: TWO,
                reply: "not fd\n",
                status: 10,
            },
        ];
        for row in &rows {
            check(&rt, rt.alloc(), row, &OpenGate)?;
        }
    }
    Ok(())
}

/// One worker is held up with a node that it has claimed, until another has claimed one too.
#[test]
fn two_workers_meet(rt: HostRuntime) -> Result<(), Fail> {
    let gate = HoldGate::new(HOLD);
    let row = Row {
        command: "all",
        workers: "2",
        budget: "1000",
        text: WIDE,
        reply: WIDE_LEAVES,
        status: 0,
    };
    check(&rt, rt.alloc(), &row, &gate)?;
    assert!(rt; gate.met());
    Ok(())
}

/// The same in a search for what is best.
#[test]
fn two_workers_meet_in_best(rt: HostRuntime) -> Result<(), Fail> {
    let gate = HoldGate::new(HOLD);
    let row = Row {
        command: "best",
        workers: "2",
        budget: "1000",
        text: PRICED,
        reply: CHEAPEST,
        status: 0,
    };
    check(&rt, rt.alloc(), &row, &gate)?;
    assert!(rt; gate.met());
    Ok(())
}
