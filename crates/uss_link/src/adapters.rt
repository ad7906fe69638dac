ghost use Rattle.std.specs.Prelude.{◌≡◌, ◌≤◌, ◌<◌, length, None, Ok, IfOk};
ghost use Rattle.uss_cause.specs.Cause.{Counts};

use crate::dial::{Dial, DialFault};
use crate::sink::{Sink, WriteFault};
use crate::source::{ReadFault, Source};
use std::io::{self, Read, Write};
use std::net::{Net, OpenStream, TcpStream};
use uss_cause::raised;

/// A source over a real reader, as standard input. It tells nothing of the bytes: no contract can say what a
/// real stream holds.
#[derive(Drop)]
pub struct ReaderSource<R: Read> {
    reader: R,
    faults: u64,
}

impl<R: Read> ReaderSource<R> {
    /// A source over this reader, with no fault counted yet.
    pub fn new(reader: R) -> ReaderSource<R>
        ensures { result ≡ record { reader = reader; faults = 0 } }
    {
        ReaderSource { reader, faults: 0 }
    }
}

impl<R: Read> Source for ReaderSource<R> {
    ghost use Rattle.std.specs.Prelude.{None};

    ghost faults = { λ s. s.faults };

    ghost left = { λ _. None };

    fn read(&mut self, buffer: &mut [u8]) -> Result<usize, ReadFault> {
        match self.reader.read(buffer) {
            Ok(count) => Ok(count),
            Err(_) => {
                self.faults = raised(self.faults);
                Err(ReadFault)
            }
        }
    }
}

/// A sink over a real writer, as standard output. It tells nothing of the bytes: no contract can say what a
/// real stream took.
#[derive(Drop)]
pub struct WriterSink<W: Write> {
    writer: W,
    faults: u64,
}

impl<W: Write> WriterSink<W> {
    /// A sink over this writer, with no fault counted yet.
    pub fn new(writer: W) -> WriterSink<W>
        ensures { result ≡ record { writer = writer; faults = 0 } }
    {
        WriterSink { writer, faults: 0 }
    }
}

impl<W: Write> Sink for WriterSink<W> {
    ghost use Rattle.std.specs.Prelude.{None};

    ghost faults = { λ s. s.faults };

    ghost taken = { λ _. None };

    fn write(&mut self, bytes: &[u8]) -> Result<usize, WriteFault> {
        match self.writer.write(bytes) {
            Ok(count) if count > 0 || bytes.is_empty() => Ok(count),
            _ => {
                self.faults = raised(self.faults);
                Err(WriteFault)
            }
        }
    }
}

/// A dial over TCP. It tells nothing of the bytes, nor of what was reached, nor whether a stream is open: no contract can
/// say what a real stream holds.
#[derive(Drop)]
pub struct TcpDial<'a, N: Net> {
    net: &'a N,
    stream: Option<N::Stream>,
    faults: u64,
}

impl<'a, N: Net> TcpDial<'a, N> {
    /// A dial with no stream open and no fault counted yet.
    pub fn new(net: &'a N) -> TcpDial<'a, N>
        ensures faults { result.faults ≡ 0 }
        ensures stream { result.stream ≡ None }
    {
        TcpDial {
            net,
            stream: None,
            faults: 0,
        }
    }
}

/// The host without the square brackets round an IPv6 address.
fn bare(host: &str) -> &str {
    match host.strip_prefix('[') {
        Some(rest) => rest.strip_suffix(']').unwrap_or(rest),
        None => host,
    }
}

/// The answer, with a refusal counted as a fault.
fn counted<T>(faults: &mut u64, answer: io::Result<T>) -> Result<T, DialFault>
    ensures counts { Counts faults.old faults.new result }
    ensures kept { IfOk result (λ value. answer ≡ Ok value) }
{
    match answer {
        Ok(value) => Ok(value),
        Err(_) => {
            *faults = raised(*faults);
            Err(DialFault)
        }
    }
}

/// Opens a stream, and asks it to send each piece at once: a request goes in two, and the second must not wait until the first is
/// acknowledged. A stream that refuses this isn't used.
fn opened<N: Net>(net: &N, host: &str, port: u16) -> io::Result<N::Stream> {
    let stream = TcpStream::connect(net, (bare(host), port))?;
    stream.set_nodelay(true)?;
    Ok(stream)
}

/// Writes bytes from the start to an open stream.
fn send_over<W: Write>(stream: &mut Option<W>, bytes: &[u8]) -> io::Result<usize>
    ensures within { IfOk result (λ n. n ≤ length bytes.now) }
    ensures some { IfOk result (λ n. 0 < length bytes.now → 0 < n) }
{
    match stream {
        Some(open) => match open.write(bytes)? {
            0 if !bytes.is_empty() => Err(io::ErrorKind::WriteZero.into()),
            count => Ok(count),
        },
        None => Err(io::ErrorKind::NotConnected.into()),
    }
}

/// Reads bytes into the start of the buffer from an open stream.
fn receive_over<R: Read>(stream: &mut Option<R>, buffer: &mut [u8]) -> io::Result<usize>
    ensures { IfOk result (λ n. n ≤ length buffer.old) }
{
    match stream {
        Some(open) => open.read(buffer),
        None => Err(io::ErrorKind::NotConnected.into()),
    }
}

impl<'a, N: Net> Dial for TcpDial<'a, N> {
    ghost use Rattle.std.specs.Prelude.{None};

    ghost faults = { λ s. s.faults };

    ghost talks = { λ _. None };

    ghost is_open = { λ _. None };

    fn reach(&mut self, host: &str, port: u16) -> Result<(), DialFault> {
        let answer = opened(self.net, host, port);
        let stream = counted(&mut self.faults, answer)?;
        self.stream = Some(stream);
        Ok(())
    }

    fn send(&mut self, bytes: &[u8]) -> Result<usize, DialFault> {
        let answer = send_over(&mut self.stream, bytes);
        counted(&mut self.faults, answer)
    }

    fn receive(&mut self, buffer: &mut [u8]) -> Result<usize, DialFault> {
        let answer = receive_over(&mut self.stream, buffer);
        counted(&mut self.faults, answer)
    }

    fn close(&mut self) {
        self.stream = None;
    }
}
