//! Tests of oz_reader.
use oz_language::RefusalKind;
use oz_reader::{ReadError, read_program};
use std::alloc::{AllocError, Global};
use std::test::Fail;

/// What is wrong with a text, and at which byte.
pub fn fault_of(alloc: Global, text: &[u8]) -> Option<(RefusalKind, usize)> {
    match read_program(alloc, text) {
        Err(ReadError::Refused(fault)) => Some((fault.kind, fault.at)),
        _ => None,
    }
}

fn is_accepted(alloc: Global, text: &[u8]) -> bool {
    read_program(alloc, text).is_ok()
}

/// So many times the text.
pub fn repeat(bytes: &mut Vec<u8>, text: &[u8], count: u32) -> Result<(), AllocError> {
    for _ in 0..count {
        for byte in text {
            bytes.push(*byte)?;
        }
    }
    Ok(())
}

#[test]
fn refuses_the_first_token_out_of_place(rt: HostRuntime) {
    let cases: [(&[u8], usize); 14] = [
        (b"proc {Script R} skip", 20),
        (b"Script=", 7),
        (b"skip in skip", 5),
        (b"proc {} skip end", 6),
        (b"Script=170141183460469231731687303715884105728", 7),
        (b"Script==1|2", 11),
        (b"Script=:2*3", 10),
        (b"Script=2147483649 Script=:2147483649", 26),
        (b"case Script of X+1 then skip end", 16),
        (b"try skip end", 9),
        (b"proc {$ X} skip end", 19),
        (b"Script=if Script then 1 end", 24),
        (b"Script=f(a:1:2)", 12),
        (b"case Script of end", 15),
    ];
    for (text, at) in cases {
        assert_eq!(rt;
            fault_of(rt.alloc(), text),
            Some((RefusalKind::Syntax, at)),
            "at {at}"
        );
    }
}

#[test]
fn accepts_programs(rt: HostRuntime) {
    let cases: [&[u8]; 10] = [
        b"local X in X=f(a 1 ~2 g()) end",
        b"proc {Script R} choice R=a [] R=true [] X in X=R end end",
        b"1+2*3|4=Script",
        b"Script+1=:Script.b-2",
        b"Script=f(a#b|c [1 2] \"x\" @Script Script.a.1 {Script 1})",
        b"case Script of [X _]|Y#f(a:Z) then {Script X Y Z} end",
        b"try skip catch X then {Script X} [] _ then skip end",
        b"fun lazy {Script X} X end",
        b"if Script then skip elseif 1 then skip else skip end",
        b"@Script=1",
    ];
    for (at, text) in cases.iter().enumerate() {
        assert!(rt; is_accepted(rt.alloc(), text), "text {at}");
    }
}

#[test]
fn constructs_may_be_200_deep(rt: HostRuntime) -> Result<(), Fail> {
    let mut text = Vec::new(rt.alloc());
    repeat(&mut text, b"Script=", 1)?;
    repeat(&mut text, b"f(", 200)?;
    assert_eq!(rt;
        fault_of(rt.alloc(), &text),
        Some((RefusalKind::Syntax, 407))
    );
    repeat(&mut text, b"(", 1)?;
    assert_eq!(rt; fault_of(rt.alloc(), &text), Some((RefusalKind::Deep, 407)));
    let mut text = Vec::new(rt.alloc());
    repeat(&mut text, b"Script=1", 1)?;
    repeat(&mut text, b"+1", 200)?;
    assert!(rt; is_accepted(rt.alloc(), &text));
    Ok(())
}
