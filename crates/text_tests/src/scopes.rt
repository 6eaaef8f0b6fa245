//! Tests of oz_scope, by what the reader refuses.
use crate::programs::{fault_of, repeat};
use oz_language::RefusalKind;
use std::test::Fail;

#[test]
fn bytes_and_names_are_refused(rt: HostRuntime) {
    let cases: [(&[u8], RefusalKind, usize); 14] = [
        (b"Script=1.5", RefusalKind::Byte, 8),
        (b"X X ? end", RefusalKind::Byte, 4),
        (b"end end /* ", RefusalKind::Byte, 8),
        (b"X=1", RefusalKind::Unbound, 0),
        (b"X in X=Y", RefusalKind::Unbound, 7),
        (b"P in proc {P X} X=1 end X=1", RefusalKind::Unbound, 24),
        (
            b"X=Y Y=1 proc {P X} {P Q} end in {P X}",
            RefusalKind::Unbound,
            22,
        ),
        (
            b"case Script of X|Y then X=Y else X=1 end",
            RefusalKind::Unbound,
            33,
        ),
        (b"Script=f(Q 1:1)", RefusalKind::Unbound, 9),
        (b"proc {Script X X} skip end", RefusalKind::Linear, 15),
        (b"proc {Script X X} Y=1 end", RefusalKind::Linear, 15),
        (b"Script=f(a:1 a:2)", RefusalKind::Linear, 13),
        (b"Script=f(1:1 1+2)", RefusalKind::Linear, 13),
        (
            b"case Script of f(X X) then skip end",
            RefusalKind::Linear,
            19,
        ),
    ];
    for (text, kind, at) in cases {
        assert_eq!(rt;
            fault_of(rt.alloc(), text),
            Some((kind, at)),
            "of {kind:?} at {at}"
        );
    }
}

#[test]
fn ten_thousand_fields(rt: HostRuntime) -> Result<(), Fail> {
    let mut text = Vec::new(rt.alloc());
    repeat(&mut text, b"Script=f(", 1)?;
    repeat(&mut text, b"_ ", 10_000)?;
    repeat(&mut text, b"10000:_)", 1)?;
    let fault = fault_of(rt.alloc(), &text);
    assert_eq!(rt; fault, Some((RefusalKind::Linear, 20_009)));
    Ok(())
}
