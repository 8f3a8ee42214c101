//! Readers that keep whether a read of theirs has failed.
ghost use Rattle.std.specs.Prelude.{◌≡◌, ◌||◌, Bool, false, is_err};
ghost use Rattle.std.specs.Io.{ReadsAtMost};
ghost use Rattle.std.specs.Io.KnownBytes.{ReadConsumes};

use std::io::{Read, Result};

/// A reader of which a contract can say whether a read of it has failed: a slice of bytes, which never does, or any
/// reader in a `Watched`.
pub trait Source: Read {
    // whether a fetch has failed
    ghost has_failed: { Self → Bool };

    /// Reads as `read` does, and counts as failed exactly if it returns an error.
    fn fetch(&mut self, buf: &mut [u8]) -> Result<usize>
        ensures bound { ReadsAtMost result buf.new }
        ensures bytes { ReadConsumes (Self.remaining self.old) (Self.remaining self.new) result buf.new }
        ensures failed { has_failed self.new ≡ (is_err result || has_failed self.old) };
}

impl Source for &[u8] {
    ghost has_failed = { λ _. false };

    fn fetch(&mut self, buf: &mut [u8]) -> Result<usize> {
        self.read(buf)
    }
}

/// A reader with what its reads came to. One that was just made has not failed.
#[derive(Drop)]
pub struct Watched<R> {
    reader: R,
    has_failed: bool,
}

impl<R> Watched<R> {
    /// Watches a reader from here on.
    pub fn new(reader: R) -> Watched<R>
        ensures reader { result.reader ≡ reader }
        ensures whole { result.has_failed ≡ false }
    {
        Watched {
            reader,
            has_failed: false,
        }
    }
}

impl<R: Read> Read for Watched<R> {
    ghost remaining = { λ s. R.remaining s.reader };

    fn read(&mut self, buf: &mut [u8]) -> Result<usize>
        ensures bound { ReadsAtMost result buf.new }
        ensures bytes { ReadConsumes (R.remaining self.old.reader) (R.remaining self.new.reader) result buf.new }
        ensures failed { self.new.has_failed ≡ (is_err result || self.old.has_failed) }
    {
        let outcome = self.reader.read(buf);
        self.has_failed = outcome.is_err() || self.has_failed;
        outcome
    }
}

impl<R: Read> Source for Watched<R> {
    ghost has_failed = { λ s. s.has_failed };

    fn fetch(&mut self, buf: &mut [u8]) -> Result<usize> {
        self.read(buf)
    }
}
