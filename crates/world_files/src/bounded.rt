//! Reading up to a bound.
//!
//! A schema is read to 1,048,580 bytes, which is what it may have and the longest character, and so enough to
//! refuse it. The reader of a longer table fails behind the bound: one that ended there would have the front
//! taken for the whole file. That a longer table is refused no clause says.

ghost use Rattle.std.specs.Prelude.{◌≡◌, ◌==◌, ◌+◌};

use std::io::{self, ErrorKind, Read};

/// Returns what is said of a file that is longer than it may be.
pub fn too_long() -> io::Error {
    io::Error::new(ErrorKind::FileTooLarge, "the file is too long")
}

/// Gives what a reader has. Behind the first byte more than a bound it fails, so that nothing of a longer file is taken for all of
/// it. It keeps the last fault that it met.
#[derive(Drop)]
pub struct BoundedReader<R> {
    inner: R,
    // Number of further bytes that it gives: none where more than the bound were there.
    left: u64,
    fault: Option<io::Error>,
}

impl<R> BoundedReader<R> {
    /// Gives at most `most` bytes, and one more.
    pub fn new(inner: R, most: u32) -> Self
        ensures inner { result.inner ≡ inner }
        ensures left { result.left ≡ most + 1 }
    {
        BoundedReader {
            inner,
            left: most as u64 + 1,
            fault: None,
        }
    }

    /// Tells whether more bytes than the bound were read.
    pub fn is_exceeded(&self) -> bool
        ensures { result ≡ (self.now.left == 0) }
    {
        self.left == 0
    }

    /// The last fault that it met.
    pub fn fault(&self) -> Option<io::Error>
        ensures { result ≡ self.now.fault }
    {
        self.fault
    }
}

impl<R: Read> Read for BoundedReader<R> {
    ghost remaining = { λ bounded. R.remaining bounded.inner };

    fn read(&mut self, buf: &mut [u8]) -> io::Result<usize> {
        if self.left == 0 {
            return Err(too_long());
        }
        let most = self.left.min(buf.len() as u64) as usize;
        match self.inner.read(&mut buf[..most]) {
            Ok(count) => {
                self.left -= count as u64;
                Ok(count)
            }
            Err(error) => {
                self.fault = Some(error);
                Err(error)
            }
        }
    }
}
