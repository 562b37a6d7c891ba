//! A sink that fails, and looks at what it takes.

ghost use Rattle.std.specs.Prelude.{None};

use byte_streams::{Failed, Sink};

/// Takes so many bytes at a time at most, one at least, fails after some writes, and tells no bytes. It looks whether what it
/// takes is the prefix of a text.
#[derive(Drop)]
pub struct PieceSink<'a> {
    rest: &'a [u8],
    most: usize,
    writes: usize,
    is_text: bool,
    failures: u64,
}

impl<'a> PieceSink<'a> {
    /// Is to take this text, and fails from the write on that comes after so many.
    pub fn failing(text: &'a [u8], most: usize, writes: usize) -> Self {
        PieceSink {
            rest: text,
            most,
            writes,
            is_text: true,
            failures: 0,
        }
    }

    /// Whether all of the text came and no write failed.
    pub fn is_full(&self) -> bool {
        self.is_text && self.rest.is_empty() && self.failures == 0
    }

    /// Whether a prefix of the text came, and not all of it, and then one write failed.
    pub fn is_cut(&self) -> bool {
        self.is_text && !self.rest.is_empty() && self.failures == 1
    }
}

impl Sink for PieceSink<'_> {
    ghost state = { λ sink. record { taken = None; failures = sink.failures } };

    fn write(&mut self, bytes: &[u8]) -> Result<usize, Failed> {
        if bytes.is_empty() {
            return Ok(0);
        }
        if self.writes == 0 {
            self.failures = self.failures.saturating_add(1);
            return Err(Failed);
        }
        self.writes -= 1;
        let count = self.most.max(1).min(bytes.len());
        match self.rest.strip_prefix(&bytes[..count]) {
            Some(rest) => self.rest = rest,
            None => self.is_text = false,
        }
        Ok(count)
    }
}
