//! The progress of a command, for a terminal. One second after the command began, its line appears on standard error.
//! It is overwritten in place, and erased before anything else is printed.

use cmd_status::print_rest;
use disk_io::Watched;
use std::alloc::AllocError;
use std::cell::Cell;
use std::io;
use std::io::{IsTerminal, Write};
use std::time::Instant;

/// When the line appears, and how long it is left unchanged, in milliseconds.
const FIRST: u128 = 1_000;

const EACH: u128 = 200;

/// When it appears if there is no terminal.
const NEVER: u128 = u128::MAX;

/// The progress of a command. If standard error is no terminal, nothing is printed.
#[derive(Drop)]
pub struct Progress<'r> {
    rt: &'r HostRuntime,
    begun: Option<Instant>,
    // When it is printed next, in milliseconds after the command began.
    next: Cell<u128>,
    // The number of bytes of the present line.
    shown: Cell<usize>,
}

impl<'r> Progress<'r> {
    /// For a command that begins now. Without a clock nothing is printed.
    pub fn new(rt: &'r HostRuntime) -> Progress<'r> {
        Progress {
            rt,
            begun: Instant::now(rt).ok(),
            next: Cell::new(FIRST),
            shown: Cell::new(0),
        }
    }

    /// Whether it is time to print the progress. Only the first call after a second looks for a terminal.
    pub fn is_due(&self) -> bool {
        if self.next.get() == NEVER {
            return false;
        }
        let Some(now) = self.milliseconds() else {
            return false;
        };
        if now < self.next.get() {
            return false;
        }
        let is_terminal = self.rt.stderr().is_terminal();
        self.next.set(if is_terminal {
            now.saturating_add(EACH)
        } else {
            NEVER
        });
        is_terminal
    }

    fn milliseconds(&self) -> Option<u128> {
        match self.begun?.elapsed(self.rt) {
            Ok(since) => Some(since.as_millis()),
            Err(_) => None,
        }
    }

    /// Prints what percentage of a packet was read. Packets are counted from 1.
    pub fn tell_packet(&self, packet: usize, packets: usize, share: u128) {
        self.tell_line(format!(in self.rt.alloc();
            "echonet: packet {packet} of {packets}, {share}%"
        ));
    }

    /// Prints which packet of a scan is written.
    pub fn tell_written(&self, packet: usize, packets: usize) {
        self.tell_line(format!(in self.rt.alloc(); "echonet: packet {packet} of {packets}"));
    }

    /// Prints which message of a base was read. Messages are counted from 1.
    pub fn tell_message(&self, message: u64, messages: u64) {
        self.tell_line(format!(in self.rt.alloc(); "echonet: message {message} of {messages}"));
    }

    /// Prints how many events of a replay happened.
    pub fn tell_event(&self, happened: usize, events: usize) {
        self.tell_line(format!(in self.rt.alloc(); "echonet: event {happened} of {events}"));
    }

    fn tell_line(&self, line: Result<String, AllocError>) {
        if let Ok(line) = line {
            self.write_over(line.as_str());
        }
    }

    /// Erases the line.
    pub fn clear(&self) {
        if self.shown.get() > 0 {
            self.write_over("");
        }
    }

    // Writes a line over the present one, and goes back to its beginning.
    fn write_over(&self, line: &str) {
        let mut bytes = Vec::new(self.rt.alloc());
        if push_over(&mut bytes, line, self.shown.get()).is_ok() {
            self.shown.set(line.len());
            let _ = print_rest(&mut bytes, &mut Watched::new(self.rt.stderr()));
        }
    }
}

fn push_over(bytes: &mut Vec<u8>, line: &str, shown: usize) -> Result<(), AllocError> {
    bytes.push(b'\r')?;
    bytes.extend_from_slice(line.as_bytes())?;
    let width = bytes.len().max(shown.saturating_add(1));
    bytes.resize(width, b' ')?;
    bytes.push(b'\r')?;
    Ok(())
}

/// Standard output or standard error, on which the progress line is erased before anything is written.
#[derive(Drop)]
pub struct ErasingOutput<'p, 'r, W> {
    progress: &'p Progress<'r>,
    to: W,
}

impl<'p, 'r, W> ErasingOutput<'p, 'r, W> {
    pub fn new(progress: &'p Progress<'r>, to: W) -> ErasingOutput<'p, 'r, W> {
        ErasingOutput { progress, to }
    }
}

impl<W: Write> Write for ErasingOutput<'_, '_, W> {
    ghost contents = { λ output. W.contents output.to };

    fn write(&mut self, buf: &[u8]) -> io::Result<usize> {
        self.progress.clear();
        self.to.write(buf)
    }

    fn flush(&mut self) -> io::Result<()> {
        self.to.flush()
    }
}
