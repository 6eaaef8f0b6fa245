//! Tests of oz_outside.
use oz_outside::{
    Failed, Gate, HoldGate, MemSink, MemSource, OpenGate, ReadError, Sink, Source, StdSink,
    StdSource, read_all, write_all,
};
use std::test::Fail;
use std::thread::{Threads, join};

#[test]
fn a_source_gives_its_bytes_in_chunks(rt: HostRuntime) -> Result<(), Fail> {
    let mut source = MemSource::new(rt.alloc(), b"abcdefg", 3, &[2, 5])?;
    let mut buf = [0; 8];
    for (want, next) in [
        (Ok(3), b'a'),
        (Err(Failed), b'a'),
        (Ok(3), b'd'),
        (Ok(1), b'g'),
        (Err(Failed), b'g'),
        (Ok(0), b'g'),
    ] {
        assert_eq!(rt; source.read(&mut buf), want);
        assert_eq!(rt; buf[0], next);
    }
    Ok(())
}

#[test]
fn reads_all_or_tells_why_not(rt: HostRuntime) -> Result<(), Fail> {
    for (chunk, call, want) in [
        (1, 9, Ok(())),
        (1, 8, Err(ReadError::Fault)),
        (3, 1, Err(ReadError::Fault)),
        (3, 2, Err(ReadError::Fault)),
        (3, 4, Err(ReadError::Fault)),
        (3, 5, Ok(())),
    ] {
        let mut source = MemSource::new(rt.alloc(), b"abcdefg", chunk, &[call])?;
        match read_all(rt.alloc(), &mut source) {
            Ok(bytes) => {
                assert_eq!(rt; bytes.as_slice(), b"abcdefg".as_slice());
                assert_eq!(rt; want, Ok(()), "chunk {chunk}, call {call}");
            }
            Err(error) => assert_eq!(rt; Err(error), want, "chunk {chunk}, call {call}"),
        }
    }
    Ok(())
}

#[test]
fn writes_all_or_a_part(rt: HostRuntime) -> Result<(), Fail> {
    for (room, chunk, call, want, written) in [
        (5, 1, 6, Ok(()), "hello"),
        (9, 2, 4, Ok(()), "hello"),
        (9, 2, 3, Err(Failed), "hell"),
        (9, 2, 1, Err(Failed), ""),
        (3, 2, 9, Err(Failed), "hel"),
    ] {
        let mut sink = MemSink::new(rt.alloc(), room, chunk, &[call])?;
        assert_eq!(rt;
            write_all(&mut sink, b"hello"),
            want,
            "room {room}, call {call}"
        );
        assert_eq!(rt; sink.written(), written.as_bytes());
    }
    Ok(())
}

#[test]
fn passes_on_a_reader_of_std(rt: HostRuntime) -> Result<(), Fail> {
    let bytes = read_all(rt.alloc(), &mut StdSource::new(b"abc".as_slice())).map_err(|_| "read")?;
    assert_eq!(rt; bytes.as_slice(), b"abc".as_slice());
    Ok(())
}

#[test]
fn passes_on_a_writer_of_std(rt: HostRuntime) {
    let mut place = [b'.'; 3];
    let mut sink = StdSink::new(place.as_mut_slice());
    assert_eq!(rt; sink.write(b"hello"), Ok(3));
    assert_eq!(rt; sink.write(b""), Ok(0));
    assert_eq!(rt; sink.write(b"lo"), Err(Failed));
}

/// A worker that solves two nodes.
fn work<G: Gate>(gate: &G, worker: u32) {
    for nth in [1, 2] {
        gate.before(worker, nth);
        gate.after(worker, nth);
    }
}

/// Two workers, in threads where there are any.
fn work_both<R: Threads, G: Gate>(rt: &R, gate: &G) {
    join(rt, || work(gate, 1), || work(gate, 2));
}

#[test]
fn two_workers_meet(rt: HostRuntime) {
    let gate = HoldGate::new(1_000_000_000);
    work_both(&rt, &gate);
    assert!(rt; gate.met());
    work_both(&rt, &OpenGate);
}

#[test]
fn nobody_comes(rt: HostRuntime) {
    let gate = HoldGate::new(3);
    gate.before(2, 1);
    work(&gate, 1);
    gate.before(2, 2);
    assert!(rt; !gate.met());
}
