// The system's files and streams: over what every Linux system has, and over readers and writers in memory.
use super::*;
use apx_device::{Failed, Folder, Out, ReadRefusal, Spool, Spools};
use apx_disk::{Disk, Records};
use std::alloc::Global;
use std::fs;
use std::io::{self, ErrorKind, Read, Write};
use std::test::Fail;

#[test]
fn a_file_is_read_to_its_end_or_past_its_limit(rt: HostRuntime) -> Result<(), Fail> {
    let mut files = RealFolder::new(&rt);
    assert_eq!(rt; files.read(rt.alloc(), "/dev/null", 0)?.len(), 0);
    assert_eq!(rt;
        files.read(rt.alloc(), "/dev/zero", 100_000).err(),
        Some(ReadRefusal::TooLong)
    );
    assert_eq!(rt; files.faults(), 0);
    Ok(())
}

#[test]
fn a_missing_file_is_no_fault_and_a_folder_is_one(rt: HostRuntime) {
    let mut files = RealFolder::new(&rt);
    for (name, refusal, faults) in [
        ("/dev/no such file", ReadRefusal::Absent, 0),
        ("/dev", ReadRefusal::Failed, 1),
        ("/dev/null/file", ReadRefusal::Failed, 2),
        ("a\0b", ReadRefusal::Failed, 3),
    ] {
        assert_eq!(rt;
            files.read(rt.alloc(), name, 9).err(),
            Some(refusal),
            "at {name:?}"
        );
        assert_eq!(rt; files.faults(), faults, "at {name:?}");
    }
    assert_eq!(rt; unopened(ErrorKind::PermissionDenied), ReadRefusal::Failed);
}

/// A reader whose reads give one byte each, but for two by number: one is interrupted, and one fails.
#[derive(Drop)]
struct Flaky {
    bytes: u8,
    reads: u8,
    interrupted: u8,
    failing: u8,
}

impl Read for Flaky {
    fn read(&mut self, buf: &mut [u8]) -> io::Result<usize> {
        self.reads = self.reads.saturating_add(1);
        if self.reads == self.interrupted {
            return Err(ErrorKind::Interrupted.into());
        }
        if self.reads == self.failing {
            return Err(ErrorKind::Other.into());
        }
        match buf.first_mut() {
            Some(first) if self.bytes > 0 => {
                *first = self.bytes;
                self.bytes -= 1;
                Ok(1)
            }
            _ => Ok(0),
        }
    }
}

#[test]
fn an_interrupted_read_is_tried_again_and_a_failing_one_is_not(
    rt: HostRuntime,
) -> Result<(), Fail> {
    let flaky = |interrupted, failing| Flaky {
        bytes: 3,
        reads: 0,
        interrupted,
        failing,
    };
    assert_eq!(rt;
        read_opened(rt.alloc(), Ok(flaky(2, 0)), 3)?.as_slice(),
        [3, 2, 1].as_slice()
    );
    assert_eq!(rt;
        read_opened(rt.alloc(), Ok(flaky(2, 0)), 2).err(),
        Some(ReadRefusal::TooLong)
    );
    assert_eq!(rt;
        read_opened(rt.alloc(), Ok(flaky(0, 3)), 3).err(),
        Some(ReadRefusal::Failed)
    );
    Ok(())
}

/// A writer whose first write fails, and which then takes what it is given.
#[derive(Drop)]
struct Stubborn {
    writes: u8,
    got: [u8; 4],
}

impl Write for Stubborn {
    fn write(&mut self, buf: &[u8]) -> io::Result<usize> {
        self.writes = self.writes.saturating_add(1);
        if self.writes == 1 {
            return Err(ErrorKind::Other.into());
        }
        let taken = buf.len().min(4);
        for (place, byte) in self.got.iter_mut().zip(buf) {
            *place = *byte;
        }
        Ok(taken)
    }

    fn flush(&mut self) -> io::Result<()> {
        Ok(())
    }
}

/// What an output over the writer answers to three writes and its end, and how many faults it then has.
fn answers<W: Write + Drop>(
    alloc: Global,
    writer: W,
) -> ([Result<usize, Failed>; 3], Result<(), Failed>, u64) {
    let mut out = RealOut::new(alloc, writer, 2);
    let writes = [out.write(b"a"), out.write(b"bc"), out.write(b"d")];
    let finished = out.finish();
    (writes, finished, out.faults())
}

#[test]
fn after_a_failed_write_nothing_more_is_written(rt: HostRuntime) {
    let mut writer = Stubborn {
        writes: 0,
        got: [0; 4],
    };
    let (writes, finished, faults) = answers(rt.alloc(), &mut writer);
    assert_eq!(rt; writes, [Ok(1), Err(Failed), Err(Failed)]);
    assert_eq!(rt; finished, Err(Failed));
    assert_eq!(rt; faults, 3);
    assert_eq!(rt; writer.got, [0; 4]);
}

#[test]
fn bytes_held_back_are_handed_on_or_a_fault(rt: HostRuntime) -> Result<(), Fail> {
    for (room, finished, faults) in [(2, Ok(()), 0), (1, Err(Failed), 1)] {
        let mut room = vec![in rt.alloc(); 0u8; room]?;
        let mut out = RealOut::new(rt.alloc(), room.as_mut_slice(), 8);
        assert_eq!(rt; out.write(b"ab"), Ok(2));
        assert_eq!(rt; out.finish(), finished);
        assert_eq!(rt; out.faults(), faults);
    }
    Ok(())
}

#[test]
fn a_file_keeps_what_a_disk_is_given(rt: HostRuntime) -> Result<(), Fail> {
    let alloc = rt.alloc();
    let path = "/tmp/apx_files_disk.log";
    let _ = fs::remove_file(&rt, path);
    let mut disk = FileDisk::new(&rt, String::from_str(alloc, path)?);
    assert_eq!(rt; disk.len(), Ok(0));
    disk.write_at(0, b"abcd")?;
    disk.write_at(2, b"xyz")?;
    disk.cut(4)?;
    disk.sync()?;
    assert_eq!(rt; disk.read(alloc, 1, 3)?.as_slice(), b"bxy".as_slice());
    assert!(rt; disk.read(alloc, 4, 1).is_err());
    assert!(rt; disk.write_at(u64::MAX, b"a").is_err());
    assert_eq!(rt; disk.faults(), 2);
    assert_eq!(rt; fs::read(&rt, path)?.as_slice(), b"abxy".as_slice());
    fs::remove_file(&rt, path)?;
    Ok(())
}

#[test]
fn records_on_a_file_are_read_again(rt: HostRuntime) -> Result<(), Fail> {
    let alloc = rt.alloc();
    let path = "/tmp/apx_files_records.log";
    let _ = fs::remove_file(&rt, path);
    for (added, before) in [("ab", 0), ("", 1), ("c", 2)] {
        let disk = FileDisk::new(&rt, String::from_str(alloc, path)?);
        let (mut records, read) = Records::open(alloc, disk).map_err(|stop| stop.1)?;
        assert_eq!(rt; read.len(), before);
        records.add(added.as_bytes())?;
        assert_eq!(rt; records.faults(), 0);
    }
    assert_eq!(rt;
        fs::read(&rt, path)?.as_slice(),
        [1, 0, 0, 0, 2, 97, 98, 1, 0, 0, 0, 0, 1, 0, 0, 0, 1, 99, 0].as_slice()
    );
    fs::remove_file(&rt, path)?;
    Ok(())
}

#[test]
fn a_spool_gives_back_each_piece_and_leaves_no_file(rt: HostRuntime) -> Result<(), Fail> {
    let alloc = rt.alloc();
    let mut spools = FileSpools::new(&rt, alloc, String::from_str(alloc, "/tmp")?);
    let mut spool = spools.fresh()?;
    spool.put(7, b"seven")?;
    spool.put(8, b"")?;
    spool.put(9, b"nine")?;
    spool.forget(7);
    assert_eq!(rt; spool.fetch(alloc, 9)?.as_slice(), b"nine".as_slice());
    assert_eq!(rt; spool.fetch(alloc, 8)?.len(), 0);
    spool.forget(8);
    spool.forget(9);
    spool.put(1, b"one")?;
    assert_eq!(rt; spool.fetch(alloc, 1)?.as_slice(), b"one".as_slice());
    assert!(rt; fs::metadata(&rt, "/tmp/1.spool").is_err());
    let mut nowhere = FileSpools::new(&rt, alloc, String::from_str(alloc, "/dev/null")?);
    assert!(rt; nowhere.fresh().is_err());
    assert_eq!(rt; nowhere.faults(), 1);
    Ok(())
}
