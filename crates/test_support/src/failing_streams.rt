//! A reader and a writer for tests: they give and take as much at a time as they are told to, and fail where they are told to.

use std::alloc::Global;
use std::io;
use std::io::{ErrorKind, Read, Write};

/// Gives so many bytes a call at most, and after so many in all it fails.
#[derive(Drop)]
pub struct Pieces<'a> {
    /// What is still to be given.
    pub rest: &'a [u8],
    /// How many bytes a call gives at most.
    pub piece: usize,
    /// How many bytes are given before it fails.
    pub left: usize,
    /// How it fails.
    pub fault: ErrorKind,
}

impl Read for Pieces<'_> {
    fn read(&mut self, buf: &mut [u8]) -> io::Result<usize> {
        if self.left == 0 {
            return Err(io::Error::from(self.fault));
        }
        let rest = self.rest;
        let count = self.piece.min(self.left).min(rest.len()).min(buf.len());
        buf[..count].copy_from_slice(&rest[..count]);
        self.rest = &rest[count..];
        self.left -= count;
        Ok(count)
    }
}

/// Takes so many bytes a call at most, and after so many in all it fails, or takes none.
#[derive(Drop)]
pub struct Page {
    /// What was taken.
    pub taken: Vec<u8>,
    /// How many bytes a call takes at most.
    pub piece: usize,
    /// How many bytes are taken before it fails.
    pub left: usize,
    /// How it fails; with none, a call then takes no byte.
    pub fault: Option<ErrorKind>,
    /// Whether a flush succeeds.
    pub flushes: bool,
    /// Whether a call came that failed, or took none.
    pub failed: bool,
    /// Whether a call came behind that one.
    pub called_late: bool,
}

impl Write for Page {
    fn write(&mut self, bytes: &[u8]) -> io::Result<usize> {
        self.called_late = self.called_late || self.failed;
        if self.left == 0 {
            self.failed = true;
            return match self.fault {
                Some(kind) => Err(io::Error::from(kind)),
                None => Ok(0),
            };
        }
        let count = self.piece.min(self.left).min(bytes.len());
        self.taken.extend_from_slice(&bytes[..count])?;
        self.left -= count;
        Ok(count)
    }

    fn flush(&mut self) -> io::Result<()> {
        self.called_late = self.called_late || self.failed;
        if self.flushes {
            Ok(())
        } else {
            Err(io::Error::from(ErrorKind::Other))
        }
    }
}

/// A page that takes all that comes.
pub fn blank_page(alloc: Global) -> Page {
    Page {
        taken: Vec::new(alloc),
        piece: usize::MAX,
        left: usize::MAX,
        fault: None,
        flushes: true,
        failed: false,
        called_late: false,
    }
}

/// A page that takes so many bytes a call at most, and after so many in all it fails.
pub fn page_of(alloc: Global, piece: usize, left: usize) -> Page {
    let mut page = blank_page(alloc);
    page.piece = piece;
    page.left = left;
    page.fault = Some(ErrorKind::Other);
    page
}
