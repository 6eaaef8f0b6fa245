//! Tests of distributors.
use distributors::{Rule, Split, Test, pick};
use fd_domain::{Cut, Domain};
use std::test::Fail;

#[test]
fn rules_choose(rt: HostRuntime) -> Result<(), Fail> {
    let alloc = rt.alloc();
    let mut domains = Vec::new(alloc);
    for (low, high) in [(4, 4), (3, 9), (5, 8), (2, 6), (1, 4)] {
        domains.push(Domain::range(alloc, low, high)?.ok_or("an empty range")?)?;
    }
    assert!(rt; domains.len() == 5);
    assert_eq!(rt; domains[3].remove(4)?, Cut::Changed);
    let naive = pick(Rule::Naive, domains.as_slice());
    assert_eq!(rt;
        naive,
        Some(Split {
            var: 1,
            test: Test::Is(3)
        })
    );
    let first_fail = pick(Rule::FirstFail, domains.as_slice());
    assert_eq!(rt;
        first_fail,
        Some(Split {
            var: 2,
            test: Test::Is(5)
        })
    );
    let split = pick(Rule::Split, domains.as_slice());
    assert_eq!(rt;
        split,
        Some(Split {
            var: 2,
            test: Test::AtMost(6)
        })
    );
    domains.truncate(1);
    for rule in [Rule::Naive, Rule::FirstFail, Rule::Split] {
        assert_eq!(rt; pick(rule, domains.as_slice()), None);
    }
    Ok(())
}
