use crate::rows::Rows;
use std::alloc::Global;
use ule_io::{
    Bytes, Failed, MemSink, MemSource, Memory, ReadAllFault, Sink, Source, StdSink, StdSource,
    WriteFault, read_all, write_all,
};

#[test]
fn sources_play_back(rt: HostRuntime) -> Result<(), Memory> {
    let mut src = MemSource::start(rt.alloc(), b"abcde", 2, &[2])?;
    let mut buf = [b'.'; 4];
    let mut rows = Rows::none();
    rows.row(src.read(&mut buf), Ok(2));
    rows.row(buf.as_slice(), b"ab..".as_slice());
    rows.row(src.read(&mut buf), Err(Failed));
    rows.row(src.read(&mut buf), Ok(2));
    rows.row(src.left(), b"e".as_slice());
    rows.row(src.read(&mut []), Ok(0));
    rows.row(src.read(&mut buf), Ok(1));
    rows.row(src.read(&mut buf), Ok(0));
    rows.end(&rt);
    Ok(())
}

#[test]
fn sinks_keep_what_they_take(rt: HostRuntime) -> Result<(), Memory> {
    let mut out = MemSink::start(rt.alloc(), 5, 2, &[3, 7])?;
    let mut rows = Rows::none();
    rows.row(out.write(b"abcdef"), Ok(2));
    rows.row(out.write(b"cdef"), Ok(2));
    rows.row(out.write(b"ef"), Err(Failed));
    rows.row(out.write(b"ef"), Ok(1));
    // The room is full.
    rows.row(out.write(b"f"), Err(Failed));
    rows.row(out.write(b""), Ok(0));
    rows.row(out.flush(), Err(Failed));
    rows.row(out.is_flushed(), false);
    rows.row(out.flush(), Ok(()));
    // Nothing is taken since.
    rows.row(out.write(b""), Ok(0));
    rows.row(out.is_flushed(), true);
    rows.row(out.bytes(), b"abcde".as_slice());
    rows.end(&rt);
    Ok(())
}

/// The bytes that were read, or the fault.
fn read_of(got: &Result<Bytes, ReadAllFault>) -> Result<&[u8], ReadAllFault> {
    match got {
        Ok(bytes) => Ok(bytes.as_slice()),
        Err(fault) => Err(*fault),
    }
}

/// A text, the most bytes of a read, the limit, the reads that fail, what is read in all, and how many
/// bytes are left.
type Case<'a> = (
    &'a [u8],
    usize,
    usize,
    &'a [u64],
    Result<&'a [u8], ReadAllFault>,
    usize,
);

/// The two rows of a case: what is read, and how many bytes are left. `most` is at least 1.
fn read_row(rows: &mut Rows, alloc: Global, case: &Case<'_>) -> Result<(), Memory> {
    let &(text, most, limit, fails, want, left) = case;
    let mut src = MemSource::start(alloc, text, most.max(1), fails)?;
    let got = read_all(alloc, &mut src, limit);
    rows.row(read_of(&got), want);
    rows.row(src.left().len(), left);
    Ok(())
}

#[test]
fn all_is_read_up_to_the_limit(rt: HostRuntime) -> Result<(), Memory> {
    let long = [b'x'; 20_000];
    let cases: [Case<'_>; 8] = [
        (b"hello", 1, 5, &[], Ok(b"hello"), 0),
        (b"hello", 9, 5, &[], Ok(b"hello"), 0),
        (b"hello", 2, 9, &[], Ok(b"hello"), 0),
        (b"hello", 1, 4, &[], Err(ReadAllFault::TooLong), 0),
        (b"hello", 9, 2, &[], Err(ReadAllFault::TooLong), 2),
        (b"hello", 2, 9, &[2], Err(ReadAllFault::ReadFault), 3),
        (b"hello", 9, 5, &[2], Err(ReadAllFault::ReadFault), 0),
        (&long, usize::MAX, usize::MAX, &[], Ok(&long), 0),
    ];
    let mut rows = Rows::none();
    for case in &cases {
        read_row(&mut rows, rt.alloc(), case)?;
    }
    rows.end(&rt);
    Ok(())
}

#[test]
fn a_fault_leaves_a_front(rt: HostRuntime) -> Result<(), Memory> {
    let cases: [(usize, usize, &[u64], Result<(), WriteFault>, &[u8]); 5] = [
        (8, 3, &[], Ok(()), b"abcdefgh"),
        (8, 9, &[2], Ok(()), b"abcdefgh"),
        (9, 3, &[3], Err(WriteFault::Failed), b"abcdef"),
        (7, 3, &[], Err(WriteFault::Failed), b"abcdefg"),
        (9, 0, &[], Err(WriteFault::TookNothing), b""),
    ];
    let mut rows = Rows::none();
    for &(room, most, fails, want, front) in &cases {
        let mut out = MemSink::start(rt.alloc(), room, most, fails)?;
        rows.row(write_all(&mut out, b"abcdefgh"), want);
        rows.row(out.is_flushed(), front.is_empty());
        rows.row(out.bytes(), front);
    }
    rows.end(&rt);
    Ok(())
}

#[test]
fn standard_streams(rt: HostRuntime) {
    let mut rows = Rows::none();
    // A test is given no input.
    let mut src = StdSource::over(rt.stdin());
    let got = read_all(rt.alloc(), &mut src, 1 << 20);
    rows.row(read_of(&got), Ok(b"".as_slice()));
    let mut out = StdSink::over(rt.stdout());
    rows.row(write_all(&mut out, b"a line\n"), Ok(()));
    rows.row(out.flush(), Ok(()));
    rows.end(&rt);
}
