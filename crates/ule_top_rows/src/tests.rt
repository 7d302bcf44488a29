use std::test::Fail;
use ule_io::{MemSink, MemSource};
use ule_top::top;

/// One CPU and no thread, with a worker that yields twice.
const TWO_YIELDS: &[u8] = b"ule-scenario 1\njitter 1\ncpus 1\nscript 0\nyield\nyield\nend\n";

/// The trace of the two yields.
const NOTHING_RAN: &[u8] =
    b"ule-trace 1\n1 w0 20000 switch 0 yield -> nothing\n2 w0 20000 switch 0 yield -> nothing\nc 0 0 0 0 0 0 0 64\nnow 20000\ndone 2\n";

#[test]
fn a_text_is_flushed_where_no_write_fails(rt: HostRuntime) -> Result<(), Fail> {
    // The trace has 122 bytes: with 50 a write the third write is the last, and then comes the flush.
    let cases: [(&[u8], usize, &[u64], u8, &[u8]); 4] = [
        (TWO_YIELDS, 0, &[], 4, b""),
        (TWO_YIELDS, 50, &[4], 4, NOTHING_RAN),
        (TWO_YIELDS, 50, &[], 0, NOTHING_RAN),
        (b"", 50, &[], 3, b"refused 1 1 0\n"),
    ];
    let words = [String::from_str(rt.alloc(), "run")?];
    for (input, most, fails, want, text) in cases {
        let mut src = MemSource::start(rt.alloc(), input, 7, &[])?;
        let mut out = MemSink::start(rt.alloc(), 200, most, fails)?;
        assert_eq!(rt; top(rt.alloc(), &words, &mut src, &mut out), want);
        assert_eq!(rt; out.bytes(), text);
        assert!(rt; out.is_flushed() || want == 4);
    }
    Ok(())
}

/// A header and a line that is refused, of 25 bytes.
const BAD_JITTER: &[u8] = b"ule-scenario 1\njitter 01\n";

#[test]
fn a_read_that_fails_comes_before_a_refusal(rt: HostRuntime) -> Result<(), Fail> {
    // With 25 bytes a read the second read is the one behind the bad line; with one byte it is the 26th.
    let cases: [(usize, &[u64], u8, &[u8]); 4] = [
        (25, &[2], 2, b""),
        (25, &[], 3, b"refused 2 3 0\n"),
        (1, &[26], 2, b""),
        (1, &[], 3, b"refused 2 3 0\n"),
    ];
    let words = [String::from_str(rt.alloc(), "run")?];
    for (most, fails, want, text) in cases {
        let mut src = MemSource::start(rt.alloc(), BAD_JITTER, most, fails)?;
        let mut out = MemSink::start(rt.alloc(), 200, 50, &[])?;
        assert_eq!(rt; top(rt.alloc(), &words, &mut src, &mut out), want);
        assert_eq!(rt; out.bytes(), text);
    }
    Ok(())
}
