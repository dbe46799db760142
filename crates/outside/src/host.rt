// The files and the writers of the host. Each call passes one call on and counts its errors;
// nothing is told of content.
ghost use Rattle.std.specs.Prelude.{◌≡◌};

use crate::fault_count::FaultCount;
use crate::sink::Sink;
use crate::source::{Failed, Source};
use std::fs;
use std::io::{Read, Write};
use std::rt::Files;

/// Files of the host, by their paths.
#[derive(Drop)]
pub struct HostSource<R: Files> {
    rt: R,
    file: Option<R::File>,
    faults: FaultCount,
}

impl<R: Files> HostSource<R> {
    /// A source that was not started, with no fault.
    pub fn new(rt: R) -> HostSource<R>
        ensures { ⟦<HostSource<R> as Source>⟧.faults result ≡ 0 }
    {
        HostSource {
            rt,
            file: None,
            faults: FaultCount::none(),
        }
    }
}

impl<R: Files> Source for HostSource<R> {
    ghost faults = { λ s. s.faults.count };

    fn start(&mut self, name: &str) -> Result<(), Failed> {
        match fs::open(&self.rt, name) {
            Ok(file) => {
                self.file = Some(file);
                Ok(())
            }
            Err(_) => Err(self.faults.rise()),
        }
    }

    fn read(&mut self, buf: &mut [u8]) -> Result<usize, Failed> {
        match &mut self.file {
            None => Ok(0),
            Some(file) => match file.read(buf) {
                Ok(n) => Ok(n),
                Err(_) => Err(self.faults.rise()),
            },
        }
    }
}

/// A writer of the host, as standard output.
#[derive(Drop)]
pub struct HostSink<W: Write> {
    writer: W,
    faults: FaultCount,
}

impl<W: Write> HostSink<W> {
    /// A sink over the writer, with no fault.
    pub fn new(writer: W) -> HostSink<W>
        ensures { ⟦<HostSink<W> as Sink>⟧.faults result ≡ 0 }
    {
        HostSink {
            writer,
            faults: FaultCount::none(),
        }
    }
}

impl<W: Write> Sink for HostSink<W> {
    ghost faults = { λ s. s.faults.count };

    fn write(&mut self, piece: &[u8]) -> Result<usize, Failed> {
        if piece.is_empty() {
            return Ok(0);
        }
        match self.writer.write(piece) {
            Ok(0) | Err(_) => Err(self.faults.rise()),
            Ok(n) => Ok(n),
        }
    }
}
