//! A file that is written, and that has told all that it will tell once it is flushed.

use std::fs::{File, OpenFile};
use std::io::{ErrorKind, Result, Write};

/// A file that is written. Some file systems tell only later that a disk is full, as one over a network does, so a flush waits until what was written is
/// stored (`fdatasync`). A pipe or a device, which can't be asked for that, holds nothing back.
#[derive(Debug, Drop)]
pub struct StoredFile(pub File);

impl Write for StoredFile {
    fn write(&mut self, octets: &[u8]) -> Result<usize> {
        self.0.write(octets)
    }

    fn flush(&mut self) -> Result<()> {
        match self.0.sync_data() {
            Err(error) if error.kind() == ErrorKind::InvalidInput => Ok(()),
            outcome => outcome,
        }
    }
}
