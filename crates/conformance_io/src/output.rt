// Standard output, by way of a buffer. A failed write is ignored, as a failed read is the end of the input.
// What asks for room in the buffer is no call of the device: its callers show it.
ghost use Rattle.std.specs.Prelude.{◌≡◌, ◌+◌, ◌≤◌, length};

use std::fmt;
use std::io::{Print, Stdout};

const BUFFER: usize = 8192;

/// The bytes at the front of the buffer are not yet written.
#[derive(Drop)]
pub struct Output {
    to: Stdout,
    buffer: [u8; BUFFER],
    used: usize,
    ghost within: { used ≤ 8192 },
}

impl Output {
    pub fn new(to: Stdout) -> Output {
        Output {
            to,
            buffer: [0; BUFFER],
            used: 0,
        }
    }

    /// Writes what is not yet written.
    pub fn flush(&mut self)
        ensures { self.new.used ≡ 0 }
    {
        let _ = self.to.write_all(&self.buffer[..self.used]);
        self.used = 0;
    }

    #[inline(always)]
    fn keep(&mut self, bytes: &[u8])
        requires { self.old.used + length bytes.now ≤ 8192 }
    {
        let end = self.used + bytes.len();
        self.buffer[self.used..end].copy_from_slice(bytes);
        self.used = end;
    }

    // It stands apart, so that the test for room is inlined.
    #[cold]
    #[inline(never)]
    fn write_past(&mut self, bytes: &[u8]) {
        self.flush();
        if BUFFER < bytes.len() {
            let _ = self.to.write_all(bytes);
        } else {
            self.keep(bytes);
        }
    }
}

impl fmt::Write for Output {
    #[inline(always)]
    fn write_str(&mut self, s: &str) -> fmt::Result {
        let bytes = s.as_bytes();
        if BUFFER - self.used < bytes.len() {
            self.write_past(bytes);
        } else {
            self.keep(bytes);
        }
        Ok(())
    }
}
