//! Tests of fd_form.
use fd_form::{FdScript, fd_form};
use fd_problems::{Item, Term};
use oz_base::Rule;
use oz_language::Sign;
use oz_reader::read_program;
use std::alloc::Global;
use std::test::Fail;

/// The finite-domain script that a text is.
fn script_of(alloc: Global, text: &[u8]) -> Result<Option<FdScript>, Fail> {
    let program = read_program(alloc, text).ok().ok_or("a program")?;
    Ok(fd_form(alloc, program.words(), program.phrase())?)
}

#[test]
fn a_script_states_its_problem(rt: HostRuntime) -> Result<(), Fail> {
    let text =
        b"proc {Script R} Y X in R=f(b:Y X) X::3 R:::0#9 X>:Y+1 {FD.distinct [Y X]} {FD.distribute split R} end";
    let script = script_of(rt.alloc(), text)?.ok_or("a script")?;
    let [
        Item::Within(0, 3, 3),
        Item::Compares(Sign::NotPositive, -9, none),
        Item::Within(0, 0, 9),
        Item::Within(1, 0, 9),
        Item::Compares(Sign::Negative, 1, terms),
        Item::Different(places),
    ] = script.problem.items.as_slice()
    else {
        return Err("other items".into());
    };
    assert!(rt; none.len() == 0);
    assert_eq!(rt;
        terms.as_slice(),
        [Term::Multiple(1, 1), Term::Multiple(-1, 0)].as_slice()
    );
    assert_eq!(rt; places.as_slice(), [1, 0].as_slice());
    assert!(rt; script.problem.count == 2);
    assert!(rt; script.problem.distribution.rule == Rule::Split);
    assert_eq!(rt;
        script.problem.distribution.over.as_slice(),
        [0, 1].as_slice()
    );
    Ok(())
}

#[test]
fn products_are_terms(rt: HostRuntime) -> Result<(), Fail> {
    let text =
        b"proc {Script R} X Y Z in R=f(X Y Z) X*Y+2*X=:Z*~3-5 {FD.distribute ff [Z Y X]} end";
    let script = script_of(rt.alloc(), text)?.ok_or("a script")?;
    let [Item::Compares(Sign::Zero, 5, terms)] = script.problem.items.as_slice() else {
        return Err("other items".into());
    };
    let expected = [
        Term::Product(1, 0, 1),
        Term::Multiple(2, 0),
        Term::Multiple(3, 2),
    ];
    assert_eq!(rt; terms.as_slice(), expected.as_slice());
    assert_eq!(rt;
        script.problem.distribution.over.as_slice(),
        [2, 1, 0].as_slice()
    );
    Ok(())
}

#[test]
fn other_programs_state_no_problem(rt: HostRuntime) -> Result<(), Fail> {
    let texts: [&[u8]; 10] = [
        b"proc {Script R} X Y in R=f(X Y) {FD.distribute ff [X]} end",
        b"proc {Script R} X Y in R=f(X Y) {FD.distribute ff [X X]} end",
        b"proc {Script R} X Y in R=f(X) {FD.distribute ff R} end",
        b"proc {Script R} X Y in R=X|Y {FD.distribute ff R} end",
        b"proc {Script R} X in R=f(X) X::0#134217727 {FD.distribute ff R} end",
        b"proc {Script R} X in R=f(X) R.1::1 {FD.distribute ff R} end",
        b"proc {Script R} X in R=f(X) {FD.distribute ff R} skip end",
        b"proc {Script R} X in R=f(X) {FD.distribute first R} end",
        b"proc {Script FD} X in FD=f(X) {FD.distribute ff [X]} end",
        b"proc {Script R} X in R=f(X) {FD.distribute ff R} end skip",
    ];
    for text in texts {
        assert!(rt; script_of(rt.alloc(), text)?.is_none());
    }
    Ok(())
}
