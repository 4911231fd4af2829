// Bytes at a place of a file.
use std::io;
use std::io::{Read, Seek, SeekFrom, Write};

// Writes the bytes from a place of the file on.
pub(crate) fn write_from<F: Write + Seek>(file: &mut F, at: u64, bytes: &[u8]) -> io::Result<()> {
    file.seek(SeekFrom::Start(at))?;
    file.write_all(bytes)
}

// Fills the bytes from a place of the file on.
pub(crate) fn read_from<F: Read + Seek>(file: &mut F, at: u64, bytes: &mut [u8]) -> io::Result<()> {
    file.seek(SeekFrom::Start(at))?;
    file.read_exact(bytes)
}
