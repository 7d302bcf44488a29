// The standard streams as a source and a sink: the edge where contracts tell no bytes.
ghost use Rattle.std.specs.Prelude.{◌≡◌, None, true};

use crate::reading::count_end;
use crate::{Failed, Sink, Source};
use std::io::{Read, Stdin, Stdout, Write};
use std::marker::Model;

/// Standard input as a source. It doesn't tell which bytes are left, and counts the reads that fail
/// and those that meet the end.
#[derive(Drop)]
pub struct StdSource {
    input: Stdin,
    faults: u64,
    ends: u64,
}

impl Model for StdSource {
    ghost use Rattle.std.specs.Prelude.{None};
    ghost use Rattle.ule_io.specs.Source.{SourceState};

    ghost Value = { SourceState };

    ghost view = { λ s. record { left = None; faults = s.faults; ends = s.ends } };
}

impl StdSource {
    /// The standard input that `main` has, as in `StdSource::over(rt.stdin())`, with nothing counted.
    pub fn over(input: Stdin) -> StdSource
        ensures { result ≡ record { left = None; faults = 0; ends = 0 } }
    {
        StdSource {
            input,
            faults: 0,
            ends: 0,
        }
    }
}

impl Source for StdSource {
    ghost state = { λ s. s };

    fn read(&mut self, buf: &mut [u8]) -> Result<usize, Failed> {
        match self.input.read(buf) {
            Ok(n) => {
                self.ends = count_end(self.ends, buf.len(), n);
                Ok(n)
            }
            Err(_) => {
                self.faults = self.faults.saturating_add(1);
                Err(Failed)
            }
        }
    }
}

/// Standard output as a sink. It doesn't tell which bytes it took. It counts its faults, its
/// empty takes and its flushes, and marks whether it was flushed since it last took a byte.
#[derive(Drop)]
pub struct StdSink {
    output: Stdout,
    faults: u64,
    empty_takes: u64,
    flushed: bool,
    flushes: u64,
}

impl Model for StdSink {
    ghost use Rattle.std.specs.Prelude.{None};
    ghost use Rattle.ule_io.specs.Sink.{SinkState};

    ghost Value = { SinkState };

    ghost view = { λ s. record { taken = None; faults = s.faults; empty_takes = s.empty_takes; flushed = s.flushed; flushes = s.flushes } };
}

impl StdSink {
    /// The standard output that `main` has, as in `StdSink::over(rt.stdout())`, with nothing taken yet.
    pub fn over(output: Stdout) -> StdSink
        ensures { result ≡ record { taken = None; faults = 0; empty_takes = 0; flushed = true; flushes = 0 } }
    {
        StdSink {
            output,
            faults: 0,
            empty_takes: 0,
            flushed: true,
            flushes: 0,
        }
    }
}

impl Sink for StdSink {
    ghost state = { λ s. s };

    fn write(&mut self, piece: &[u8]) -> Result<usize, Failed> {
        match self.output.write(piece) {
            Ok(n) => {
                if n > 0 {
                    self.flushed = false;
                } else if !piece.is_empty() {
                    self.empty_takes = self.empty_takes.saturating_add(1);
                }
                Ok(n)
            }
            Err(_) => {
                self.faults = self.faults.saturating_add(1);
                Err(Failed)
            }
        }
    }

    fn flush(&mut self) -> Result<(), Failed> {
        self.flushes = self.flushes.saturating_add(1);
        match self.output.flush() {
            Ok(()) => {
                self.flushed = true;
                Ok(())
            }
            Err(_) => {
                self.faults = self.faults.saturating_add(1);
                Err(Failed)
            }
        }
    }
}
