//! Tests of kernel_trans, kernel_form and simple_text.
use kernel_form::kernel_text;
use kernel_trans::translate;
use oz_base::{Sequence, Words};
use oz_language::{Identifier, Kernel, Statement};
use oz_reader::read_program;
use std::alloc::{AllocError, Global};
use std::test::Fail;

/// The text of the kernel of a text.
fn kernel_of(alloc: Global, text: &[u8]) -> Result<Sequence<u8>, Fail> {
    let program = read_program(alloc, text).ok().ok_or("a program")?;
    let (words, phrase) = program.into_parts();
    let kernel = translate(alloc, words, &phrase)?;
    Ok(kernel_text(alloc, &kernel)?)
}

#[test]
fn each_text_has_its_kernel(rt: HostRuntime) -> Result<(), Fail> {
    let rows: [(&[u8], &[u8]); 12] = [
        (b"", b"skip\n"),
        (
            b"X in X='A b'('it\\'s':X 'if':X 'fail':X) X='fail'",
            b"local X in X='A b'('fail':X 'if':X 'it\\'s':X) X='fail' end\n",
        ),
        (b"{Show a} fail", b"local _1 in _1=a {Show _1} end\nfail\n"),
        (
            b"X Y in X=[Y 1 Y]",
            b"local X Y in local _1 in X=Y|_1 local _2 _3 in _1=_2|_3 _2=1 local _4 in _3=Y|_4 _4=nil end end end end\n",
        ),
        (
            b"X in X=f(b:1 a:2 7:X)",
            b"local X in local _1 _2 in X=f(7:X a:_2 b:_1) _1=1 _2=2 end end\n",
        ),
        (
            b"X A B in X=A orelse B andthen A",
            b"local X A B in if A then X=true else if B then X=A else X=false end end end\n",
        ),
        (
            b"F in fun lazy {F X} X end",
            b"local F in F=proc {$ X _1} local _2 in _2=proc {$ _3} _3=X end {ByNeed _2 _1} end end end\n",
        ),
        (
            b"X in case X of (A|B)|C then skip [] _ then fail end",
            b"local X in case X of (A|B)|C then skip else case X of _ then fail else nomatch end end end\n",
        ),
        (
            b"try skip catch f(X) then X=1 end",
            b"try skip catch _1 then case _1 of f(X) then X=1 else raise _1 end end end\n",
        ),
        (
            b"X in X=choice 1 [] f(X) end",
            b"local X in choice X=1 [] X=f(X) end end\n",
        ),
        (
            b"X Y in X=Y\\=Y thread X:=@Y end",
            b"local X Y in {'\\=' Y Y X} thread local _1 in {Access Y _1} {Assign X _1} end end end\n",
        ),
        (
            b"X Y in 2*X+Y*3=<:~4*X-~5",
            b"local X Y in post(le ~5 2*X 3*Y 4*X) end\n",
        ),
    ];
    for (text, expected) in rows {
        let found = kernel_of(rt.alloc(), text)?;
        assert_eq!(rt; found.as_slice(), expected);
    }
    Ok(())
}

/// The text of a program of one word with these statements, and with one in its body.
fn text(alloc: Global, statements: Vec<Statement>, body: u32) -> Result<Sequence<u8>, AllocError> {
    let mut words = Words::new(alloc);
    words.number(b"X")?;
    let kernel = Kernel {
        words,
        statements: Sequence::from_vec(statements),
        body: one(alloc, body)?,
    };
    kernel_text(alloc, &kernel)
}

fn one<T: Drop>(alloc: Global, item: T) -> Result<Sequence<T>, AllocError> {
    let mut items = Sequence::new(alloc);
    items.push(item)?;
    Ok(items)
}

fn local(alloc: Global, body: u32) -> Result<Statement, AllocError> {
    Ok(Statement::Local {
        names: one(alloc, Identifier::Word(0))?,
        body: one(alloc, body)?,
    })
}

#[test]
fn locals_of_a_great_depth(rt: HostRuntime) -> Result<(), Fail> {
    let alloc = rt.alloc();
    let mut statements = vec![in alloc; Statement::Skip]?;
    for inner in 0..10_000 {
        statements.push(local(alloc, inner)?)?;
    }
    assert!(rt; text(alloc, statements, 10_000)?.len() == 150_005);
    Ok(())
}
