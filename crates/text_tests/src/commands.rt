//! Tests of command_line.
use command_line::read_command;
use oz_commands::Command;
use std::alloc::Global;
use std::test::Fail;

fn command(alloc: Global, words: &[&str]) -> Result<Option<Command>, Fail> {
    let mut list = Vec::new(alloc);
    for word in words {
        list.push(String::from_str(alloc, word)?)?;
    }
    Ok(read_command(alloc, list.as_slice())?)
}

#[test]
fn words_that_spell_a_command(rt: HostRuntime) -> Result<(), Fail> {
    let cases: [(&[&str], u64); 4] = [
        (&["all"], 1_000_000),
        (&["all", "--budget=5", "--workers", "1"], 5),
        (&["all", "--budget", "0000000000000000000000005"], 5),
        (&["all", "--budget", "281474976710656"], 281_474_976_710_656),
    ];
    for (words, budget) in cases {
        let expected = Some(Command::All { workers: 1, budget });
        assert_eq!(rt; command(rt.alloc(), words)?, expected);
    }
    let run = command(rt.alloc(), &["run", "--budget", "5"])?;
    assert_eq!(rt; run, Some(Command::Run { budget: 5 }));
    let best = command(rt.alloc(), &["best", "--budget", "5", "--workers=64"])?;
    let expected = Some(Command::Best {
        workers: 64,
        budget: 5,
    });
    assert_eq!(rt; best, expected);
    assert_eq!(rt; command(rt.alloc(), &["kernel"])?, Some(Command::Kernel));
    Ok(())
}

#[test]
fn words_that_spell_none(rt: HostRuntime) -> Result<(), Fail> {
    let cases: [&[&str]; 18] = [
        &[],
        &[""],
        &["All"],
        &["all", "all"],
        &["all", "--budget"],
        &["all", "--budget", "0"],
        &["all", "--budget", "+5"],
        &["all", "--budget", "5", "--budget", "5"],
        &["all", "--budget", "281474976710657"],
        &["all", "--workers", "65"],
        &["all", "--help"],
        &["--version"],
        &["--budget", "5", "all"],
        &["run", "--workers", "1"],
        &["best", "--workers", "0"],
        &["best", "--budget", "5", "--budget", "5"],
        &["kernel", "--budget", "5"],
        &["kernel", "x"],
    ];
    for words in cases {
        assert_eq!(rt; command(rt.alloc(), words)?, None);
    }
    Ok(())
}
