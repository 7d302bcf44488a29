use crate::rows::Rows;
use std::alloc::Global;
use std::test::Fail;
use ule_io::{MemSink, MemSource, ReadAllFault};
use ule_plain::write_setup;
use ule_scenario::{Reader, feed_all};
use ule_types::{ScenarioFault, Setup};

/// The scenario of `examples/interactive.ule`.
const SCENARIO: &[u8] =
    b"ule-scenario 1\njitter 1\ncpus 2\nthread 0 ts 0 0 bound\nthread 1 ts 0 0 bound\nscript 0\nyield\nsleep 3\ntick\ntick\ntick\ntick\nresched\nscript 1\ntime 1\ntime 1\ntime 1\ntime 1000\nwake 0\nend\n";

/// The same with the settings that it leaves out.
const PLAIN: &[u8] =
    b"ule-scenario 1\nset interact 30\nset slice 12\nset preempt 80\nset steal 2\njitter 1\ncpus 2\nthread 0 ts 0 0 bound\nthread 1 ts 0 0 bound\nscript 0\nyield\nsleep 3\ntick\ntick\ntick\ntick\nresched\nscript 1\ntime 1\ntime 1\ntime 1\ntime 1000\nwake 0\nend\n";

/// A header and a line that is refused, of 25 bytes.
const BAD_JITTER: &[u8] = b"ule-scenario 1\njitter 01\n";

/// The most bytes of a scenario.
const MOST: usize = 1_048_576;

/// The row of a setup that was read: its plain text.
fn plain_row(
    rows: &mut Rows,
    alloc: Global,
    told: &Result<Setup, ScenarioFault>,
) -> Result<(), Fail> {
    let mut out = MemSink::start(alloc, 400, 400, &[])?;
    if let Ok(s) = told {
        rows.row(write_setup(s, &mut out), Ok(()));
    }
    rows.row(out.bytes(), PLAIN);
    Ok(())
}

/// Why there is no setup.
fn fault_of(told: &Result<Setup, ScenarioFault>) -> Option<ScenarioFault> {
    match told {
        Ok(_) => None,
        Err(fault) => Some(*fault),
    }
}

#[test]
fn a_scenario_may_be_cut_anywhere(rt: HostRuntime) -> Result<(), Fail> {
    let mut rows = Rows::none();
    for at in 0..SCENARIO.len() {
        let (front, back) = SCENARIO.split_at(at);
        let mut r = Reader::start(rt.alloc())?;
        r.feed(front)?;
        r.feed(back)?;
        plain_row(&mut rows, rt.alloc(), &r.finish())?;
    }
    rows.end(&rt);
    Ok(())
}

#[test]
fn a_source_may_give_little(rt: HostRuntime) -> Result<(), Fail> {
    let mut rows = Rows::none();
    for most in 1..40 {
        let mut src = MemSource::start(rt.alloc(), SCENARIO, most, &[])?;
        let mut r = Reader::start(rt.alloc())?;
        rows.row(feed_all(&mut src, MOST, &mut r), Ok(()));
        plain_row(&mut rows, rt.alloc(), &r.finish())?;
    }
    rows.end(&rt);
    Ok(())
}

#[test]
fn a_fault_is_told_behind_a_bad_line(rt: HostRuntime) -> Result<(), Fail> {
    let mut rows = Rows::none();
    let mut src = MemSource::start(rt.alloc(), BAD_JITTER, 25, &[2])?;
    let mut r = Reader::start(rt.alloc())?;
    rows.row(
        feed_all(&mut src, MOST, &mut r),
        Err(ReadAllFault::ReadFault),
    );
    let refused = ScenarioFault::Refused {
        line: 2,
        reason: 3,
        detail: 0,
    };
    rows.row(fault_of(&r.finish()), Some(refused));
    rows.end(&rt);
    Ok(())
}

/// What is told of the bad line, 1,044,480 newlines and some more bytes.
fn told_behind(alloc: Global, rest: &[u8]) -> Result<Option<ScenarioFault>, Fail> {
    let blank = [b'\n'; 4096];
    let mut r = Reader::start(alloc)?;
    r.feed(BAD_JITTER)?;
    for _ in 0..255 {
        r.feed(&blank)?;
    }
    r.feed(rest)?;
    Ok(fault_of(&r.finish()))
}

#[test]
fn too_long_comes_before_a_bad_line(rt: HostRuntime) -> Result<(), Fail> {
    let mut rows = Rows::none();
    // Of 1,048,576 bytes in all, and of one more.
    let bad = ScenarioFault::Refused {
        line: 2,
        reason: 3,
        detail: 0,
    };
    rows.row(told_behind(rt.alloc(), &[b'\n'; 4071])?, Some(bad));
    let long = ScenarioFault::Refused {
        line: 0,
        reason: 5,
        detail: 0,
    };
    rows.row(told_behind(rt.alloc(), &[b'\n'; 4072])?, Some(long));
    rows.end(&rt);
    Ok(())
}
