//! Files and sinks of the host, of which contracts know nothing: `HostFiles` and `HostSink`.

ghost use Rattle.std.specs.Prelude.{◌≡◌, ◌<◌, ◌≤◌, [], length, take, IfOk, None, OnErr};
ghost use Rattle.std.specs.Io.KnownBytes.{Appends, Keeps};
ghost use Rattle.ste_io.specs.Outside.{WriteFailed, took};

use crate::files::{FetchFault, Files};
use crate::sink::{Sink, SinkFailed};
use crate::steps::{read_opened, write_some};
use std::alloc::Global;
use std::fs;
use std::io::Write;

/// The host's files, of which contracts know nothing.
#[derive(Drop)]
pub struct HostFiles<'a, R> {
    rt: &'a R,
    faults: u64,
}

impl<'a, R: std::rt::Files> HostFiles<'a, R> {
    /// The files that this runtime opens, of which none has failed yet.
    pub fn new(rt: &'a R) -> Self
        ensures { (⟦<HostFiles<'a, R> as Files>⟧.state result).faults ≡ 0 }
    {
        HostFiles { rt, faults: 0 }
    }
}

impl<'a, R: std::rt::Files> Files for HostFiles<'a, R> {
    ghost state = { λ f. record { holds = None; asked = None; faults = f.faults } };

    fn fetch(&mut self, alloc: Global, name: &str, max: u64) -> Result<Vec<u8>, FetchFault> {
        match read_opened(alloc, fs::open(self.rt, name), max) {
            Err(FetchFault::Failed) => {
                self.faults = self.faults.saturating_add(1);
                Err(FetchFault::Failed)
            }
            answer => answer,
        }
    }
}

/// A writer of the host, as standard output, of which contracts know nothing. Of a writer that says
/// what it has, a write says that it has the bytes of the piece that count as taken behind what it
/// had, and after a failure no more.
#[derive(Drop)]
pub struct HostSink<W> {
    writer: W,
    faults: u64,
}

impl<W: Write + Drop> HostSink<W> {
    /// The sink over a writer, where no write has failed yet.
    pub fn over(writer: W) -> Self
        ensures { (⟦<HostSink<W> as Sink>⟧.state result).faults ≡ 0 }
    {
        HostSink { writer, faults: 0 }
    }
}

impl<W: Write + Drop> Sink for HostSink<W> {
    ghost state = { λ s. record { taken = None; faults = s.faults } };

    fn write(&mut self, piece: &[u8]) -> Result<usize, SinkFailed>
        requires { 0 < length piece.now }
        ensures ok { IfOk result (λ n. (0 < n) × (n ≤ length piece.now)
            × (⟦<HostSink<W> as Sink>⟧.state self.new
            ≡ took (⟦<HostSink<W> as Sink>⟧.state self.old) (take n piece.now))) }
        ensures failed { OnErr result (WriteFailed (⟦<HostSink<W> as Sink>⟧.state self.old)
            (⟦<HostSink<W> as Sink>⟧.state self.new) []) }
        ensures written { IfOk result (λ n. Appends (W.contents self.old.writer)
            (W.contents self.new.writer) (take n piece.now)) }
        ensures kept { OnErr result (Keeps (W.contents self.old.writer)
            (W.contents self.new.writer)) }
    {
        match write_some(&mut self.writer, piece) {
            Ok(count) => Ok(count),
            Err(failed) => {
                self.faults = self.faults.saturating_add(1);
                Err(failed)
            }
        }
    }
}
