// The program over folders, words and streams in memory.
use crate::{exit_status, no_words, program, words};
use apx_device::{Failed, MemoryFolder};
use std::alloc::{AllocError, Global};
use std::io::ErrorKind;
use std::test::Fail;

/// Counts the lines of in.txt, two to a window.
const COUNTED: &str =
    r#"{"operators":[{"name":"read","class":"lines","properties":{"file":"in.txt","perWindow":2}},{"name":"out","class":"store"}],"streams":[{"name":"s1","source":{"operatorName":"read","portName":"output"},"sinks":[{"operatorName":"out","portName":"input"}]}]}"#;

/// What a run of it over the lines b, a prints.
const PRINTED: &str = "window 1 4294967296000000000 2\na\t1\nb\t1\n";

/// The report of that run.
const REPORT: &str =
    "windows 1\nrows 2\nstarts 2\nwrites 1\nsaves 0\nkills 0\nrepartitions 0\ncommitted 0\n";

fn folder(alloc: Global) -> Result<MemoryFolder, AllocError> {
    let mut files = MemoryFolder::new(alloc);
    files.add(
        alloc,
        "app.json",
        Vec::from_slice(alloc, COUNTED.as_bytes())?,
    )?;
    files.add(alloc, "in.txt", Vec::from_slice(alloc, b"b\na")?)?;
    Ok(files)
}

fn given(alloc: Global, words: &[&str]) -> Result<Vec<String>, AllocError> {
    let mut texts = Vec::new(alloc);
    for word in words {
        texts.push(String::from_str(alloc, word)?)?;
    }
    Ok(texts)
}

/// The bytes that were written to the front of a room of zeros.
fn front(room: &[u8]) -> &[u8] {
    let end = room.iter().position(|byte| *byte == 0);
    &room[..end.unwrap_or(room.len()).min(room.len())]
}

#[test]
fn each_end_has_its_status_and_its_streams(rt: HostRuntime) -> Result<(), Fail> {
    let alloc = rt.alloc();
    for (words, out_room, status, out, err) in [
        (&["sim", "app.json"][..], 80, 0, PRINTED, REPORT),
        (&["run", "app.json"][..], 80, 0, PRINTED, REPORT),
        (&["check", "app.json"][..], 80, 0, "ok\n", ""),
        (
            &["sim", "app.json", "more"][..],
            80,
            1,
            "",
            "apex: not a command\n",
        ),
        (
            &["sim", "no.json"][..],
            80,
            3,
            "",
            "apex: no file no.json\n",
        ),
        (&["sim", "app.json"][..], 10, 12, "window 1 4", ""),
    ] {
        let mut rooms = ([0u8; 80], [0u8; 120]);
        let found = program(
            &rt,
            alloc,
            Ok(given(alloc, words)?),
            &mut folder(alloc)?,
            &mut rooms.0[..out_room],
            rooms.1.as_mut_slice(),
        );
        assert_eq!(rt; found, status, "at {status}");
        assert_eq!(rt; front(&rooms.0), out.as_bytes(), "at {status}");
        assert_eq!(rt; front(&rooms.1), err.as_bytes(), "at {status}");
    }
    Ok(())
}

#[test]
fn words_that_the_system_can_not_give(rt: HostRuntime) -> Result<(), Fail> {
    let alloc = rt.alloc();
    assert_eq!(rt; no_words(alloc, ErrorKind::InvalidData)?.len(), 0);
    assert!(rt; no_words(alloc, ErrorKind::OutOfMemory).is_err());
    let mut rooms = ([0u8; 30], [0u8; 30]);
    let status = program(
        &rt,
        alloc,
        Err(AllocError),
        &mut folder(alloc)?,
        rooms.0.as_mut_slice(),
        rooms.1.as_mut_slice(),
    );
    assert_eq!(rt; status, 13);
    assert_eq!(rt; front(&rooms.0).len(), 0);
    assert_eq!(rt; front(&rooms.1), b"apex: out of memory\n".as_slice());
    let three = given(alloc, &["apex", "sim", "app.json"])?;
    assert_eq!(rt; words(alloc, Ok(three.into_iter()))?.len(), 2);
    Ok(())
}

#[test]
fn an_unfinished_output_spoils_a_good_end_alone(rt: HostRuntime) {
    for (ended, finished, status) in [
        (0, Ok(()), 0),
        (0, Err(Failed), 12),
        (6, Ok(()), 6),
        (6, Err(Failed), 6),
    ] {
        assert_eq!(rt; exit_status(ended, finished), status, "at {ended}");
    }
}
