//! Applications, inputs and scripts that are accepted, and those that are refused.

use super::*;
use apx_dag::Dag;
use apx_device::{FailingFolder, Folder, MemoryFolder};
use apx_json::Name;
use apx_script::Settings;
use std::alloc::{AllocError, Global};
use std::test::Fail;

/// Two inputs that are joined and stored; the second one of the file reads a.txt.
const JOINED: &str = r#"{"operators":[
{"name":"out","class":"store"},
{"name":"join","class":"match"},
{"name":"side","class":"pairs","properties":{"file":"b.txt","perWindow":1}},
{"name":"read","class":"lines","properties":{"file":"a.txt","perWindow":2}}],
"streams":[
{"name":"s1","source":{"operatorName":"read","portName":"output"},"sinks":[{"operatorName":"join","portName":"left"}]},
{"name":"s2","source":{"operatorName":"side","portName":"output"},"sinks":[{"operatorName":"join","portName":"right"}]},
{"name":"s3","source":{"operatorName":"join","portName":"output"},"sinks":[{"operatorName":"out","portName":"input"}]}]}"#;

fn folder(alloc: Global, files: &[(&str, &str)]) -> Result<MemoryFolder, AllocError> {
    let mut folder = MemoryFolder::new(alloc);
    for (name, text) in files {
        folder.add(alloc, name, Vec::from_slice(alloc, text.as_bytes())?)?;
    }
    Ok(folder)
}

/// A text with blanks behind it, up to a length.
fn padded(alloc: Global, text: &str, len: usize) -> Result<String, AllocError> {
    let mut padded = String::from_str(alloc, text)?;
    for _ in text.len()..len {
        padded.push_str(" ")?;
    }
    Ok(padded)
}

/// What stopped reading an application with this text.
fn stop_of(alloc: Global, text: &str) -> Result<Option<Stop>, Fail> {
    let mut files = folder(alloc, &[("app", text)])?;
    Ok(application(alloc, &mut files, "app").err())
}

/// What stopped reading the inputs of the joined application from these files.
fn inputs_stop(alloc: Global, files: &[(&str, &str)]) -> Result<Option<Stop>, Fail> {
    let mut apps = folder(alloc, &[("app", JOINED)])?;
    let dag = application(alloc, &mut apps, "app").map_err(|_| "refused")?;
    let mut files = folder(alloc, files)?;
    Ok(inputs(alloc, &mut files, &dag).err())
}

#[test]
fn a_run_is_read_from_its_files(rt: HostRuntime) -> Result<(), Fail> {
    let alloc = rt.alloc();
    let rows = [
        ("app", JOINED),
        ("a.txt", "x\ny\nx\n"),
        ("b.txt", "x\t1\ny\t-2\nx\t3"),
    ];
    let mut files = folder(alloc, &rows)?;
    let dag = application(alloc, &mut files, "app").map_err(|_| "refused")?;
    assert_eq!(rt; dag.len(), 4);
    let inputs = inputs(alloc, &mut files, &dag).map_err(|_| "refused")?;
    let mut counts = Vec::new(alloc);
    for input in inputs.iter() {
        counts.push(input.count())?;
    }
    assert_eq!(rt; counts.as_slice(), [3, 2].as_slice());
    let (dag, inputs) = run(alloc, &mut files, "app").map_err(|_| "refused")?;
    assert_eq!(rt; (dag.len(), inputs.len()), (4, 2));
    Ok(())
}

#[test]
fn an_application_is_refused(rt: HostRuntime) -> Result<(), Fail> {
    let alloc = rt.alloc();
    assert!(rt; matches!(stop_of(alloc, "{")?, Some(Stop::Refused(Refusal::NoJson))));
    assert!(rt;
        matches!(
            stop_of(alloc, "{}")?,
            Some(Stop::Refused(Refusal::WrongShape { .. }))
        )
    );
    let empty = stop_of(alloc, r#"{"operators":[],"streams":[]}"#)?;
    assert!(rt;
        matches!(
            empty,
            Some(Stop::Refused(Refusal::BrokenRule { code: 9, .. }))
        )
    );
    let longest = padded(alloc, JOINED, 1_048_576)?;
    assert!(rt; stop_of(alloc, longest.as_str())?.is_none());
    let longer = padded(alloc, JOINED, 1_048_577)?;
    assert!(rt;
        matches!(
            stop_of(alloc, longer.as_str())?,
            Some(Stop::Refused(Refusal::FileTooLong { .. }))
        )
    );
    Ok(())
}

/// So many lines of 1,024 bytes, with their LF.
fn wide_lines(alloc: Global, count: u32) -> Result<String, AllocError> {
    let line = padded(alloc, "", 1023)?;
    let mut text = String::new(alloc);
    for _ in 0..count {
        text.push_str(line.as_str())?;
        text.push_str("\n")?;
    }
    Ok(text)
}

#[test]
fn an_input_has_at_most_16_mebibytes(rt: HostRuntime) -> Result<(), Fail> {
    let alloc = rt.alloc();
    let mut text = wide_lines(alloc, 16_384)?;
    assert_eq!(rt; text.len(), 16_777_216);
    let longest = inputs_stop(alloc, &[("a.txt", text.as_str()), ("b.txt", "")])?;
    assert!(rt; longest.is_none());
    text.push_str("x")?;
    let longer = inputs_stop(alloc, &[("a.txt", text.as_str()), ("b.txt", "")])?;
    let Some(Stop::Refused(Refusal::FileTooLong { name })) = longer else {
        return Err("no refusal")?;
    };
    assert_eq!(rt; name.text(), "a.txt");
    Ok(())
}

#[test]
fn the_first_input_of_the_file_is_refused(rt: HostRuntime) -> Result<(), Fail> {
    let alloc = rt.alloc();
    let Some(Stop::Refused(Refusal::NoFile { name })) = inputs_stop(alloc, &[])? else {
        return Err("no refusal")?;
    };
    assert_eq!(rt; name.text(), "b.txt");
    let pairs = inputs_stop(alloc, &[("b.txt", "x\t1\ny\n")])?;
    let want = matches!(
        pairs,
        Some(Stop::Refused(Refusal::RefusedLine {
            line: 2,
            cause: LineCause::BadPair,
            ..
        }))
    );
    assert!(rt; want);
    Ok(())
}

#[test]
fn a_failed_read_is_no_refusal(rt: HostRuntime) -> Result<(), Fail> {
    let alloc = rt.alloc();
    let files = folder(alloc, &[("app", JOINED), ("b.txt", "")])?;
    let mut files = FailingFolder::new(files, [3].to_vec(alloc)?);
    let dag = application(alloc, &mut files, "app").map_err(|_| "refused")?;
    let Err(Stop::CannotRead { name }) = inputs(alloc, &mut files, &dag) else {
        return Err("no failure")?;
    };
    assert_eq!(rt; name.text(), "a.txt");
    assert_eq!(rt; files.faults(), 1);
    Ok(())
}

/// Lines that two partitions split into words, which are counted and stored.
const WORD_COUNT: &str =
    r#"{"operators":[{"name":"in","class":"lines","properties":{"file":"in.txt","perWindow":1}},{"name":"split","class":"words","attributes":{"PARTITIONS":2}},{"name":"tally","class":"count"},{"name":"out","class":"store"}],"streams":[{"name":"a","source":{"operatorName":"in","portName":"output"},"sinks":[{"operatorName":"split","portName":"input"}]},{"name":"b","source":{"operatorName":"split","portName":"output"},"sinks":[{"operatorName":"tally","portName":"input"}]},{"name":"c","source":{"operatorName":"tally","portName":"output"},"sinks":[{"operatorName":"out","portName":"input"}]}]}"#;

/// How many commands the job of six windows and a script has, with a checkpoint each second window; or the
/// refused line and its reason.
fn judged(alloc: Global, script: &str) -> Result<Result<usize, (u64, u8)>, Fail> {
    let rows = [
        ("app", WORD_COUNT),
        ("in.txt", "a\nb\nc\nd\ne\nf\n"),
        ("script", script),
    ];
    let mut files = folder(alloc, &rows)?;
    let name = Name::of(alloc, "script")?;
    let mut settings = Settings::default();
    settings.every = 2;
    match job(alloc, &mut files, "app", Some(&name), settings) {
        Ok(job) => Ok(Ok(job.lines().len())),
        Err(Stop::Refused(Refusal::RefusedCommand { line, why })) => Ok(Err((line, why))),
        Err(_) => Err("another stop")?,
    }
}

#[test]
fn each_reason_has_an_accepted_script_beside_it(rt: HostRuntime) -> Result<(), Fail> {
    for (accepted, refused, line, why) in [
        ("kill done 1 0 tally\n", "kill now 1 0 tally\n", 1, 1),
        (
            "# a\n\nkill done 1 0 tally\n",
            "# a\n\nkill done 1  0 tally\n",
            3,
            1,
        ),
        ("kill done 1 0 tally\n", "kill done 1 0 tallies\n", 1, 3),
        ("kill done 6 0 tally\n", "kill done 7 0 tally\n", 1, 4),
        ("kill done 1 0 tally\n", "kill done 0 0 tally\n", 1, 4),
        ("repartition 4 3 tally\n", "repartition 3 3 tally\n", 1, 5),
        ("repartition 4 8 tally\n", "repartition 4 9 tally\n", 1, 6),
        ("repartition 4 1 tally\n", "repartition 4 0 tally\n", 1, 6),
        ("repartition 4 3 tally\n", "repartition 4 3 in\n", 1, 7),
        (
            "repartition 2 3 tally\nrepartition 4 3 tally\n",
            "repartition 4 3 tally\nrepartition 4 3 tally\n",
            2,
            8,
        ),
        ("kill written 2 0 out\n", "kill written 2 0 tally\n", 1, 10),
        ("kill done 1 1 split\n", "kill done 1 2 split\n", 1, 9),
        (
            "kill done 1 1 split\nkill written 2 0 out\n",
            "kill done 1 2 split\nkill written 2 0 tally\n",
            2,
            10,
        ),
    ] {
        assert!(rt; judged(rt.alloc(), accepted)?.is_ok(), "at {accepted}");
        assert_eq!(rt;
            judged(rt.alloc(), refused)?,
            Err((line, why)),
            "at {refused}"
        );
    }
    Ok(())
}

#[test]
fn a_script_has_at_most_1000_commands(rt: HostRuntime) -> Result<(), Fail> {
    let mut script = String::new(rt.alloc());
    for _ in 0..1000 {
        script.push_str("kill done 1 0 tally\n")?;
    }
    assert_eq!(rt; judged(rt.alloc(), script.as_str())?, Ok(1000));
    script.push_str("kill done 1 0 tally\n")?;
    assert_eq!(rt; judged(rt.alloc(), script.as_str())?, Err((1001, 2)));
    Ok(())
}

#[test]
fn a_script_is_read_behind_the_inputs(rt: HostRuntime) -> Result<(), Fail> {
    let alloc = rt.alloc();
    let name = Name::of(alloc, "script")?;
    let settings = Settings::default();
    let mut files = folder(alloc, &[("app", WORD_COUNT)])?;
    let stop = job(alloc, &mut files, "app", Some(&name), settings).err();
    let Some(Stop::Refused(Refusal::NoFile { name: absent })) = stop else {
        return Err("no refusal")?;
    };
    assert_eq!(rt; absent.text(), "in.txt");
    let mut files = folder(alloc, &[("app", WORD_COUNT), ("in.txt", "a\n")])?;
    let stop = job(alloc, &mut files, "app", Some(&name), settings).err();
    let Some(Stop::Refused(Refusal::NoFile { name: absent })) = stop else {
        return Err("no refusal")?;
    };
    assert_eq!(rt; absent.text(), "script");
    let job = job(alloc, &mut files, "app", None, settings).map_err(|_| "refused")?;
    assert_eq!(rt; (job.windows(), job.lines().len()), (1, 0));
    Ok(())
}

/// How many entries the journal in a file has, judged for the job of these files with a script.
fn audited(alloc: Global, files: &[(&str, &str)]) -> Result<Result<usize, Stop>, Fail> {
    let mut files = folder(alloc, files)?;
    let script = Name::of(alloc, "script")?;
    match audit(
        alloc,
        &mut files,
        "app",
        "journal",
        Some(&script),
        Settings::default(),
    ) {
        Ok(audited) => Ok(Ok(audited.journal.entries().len())),
        Err(stop) => Ok(Err(stop)),
    }
}

#[test]
fn a_journal_is_read_behind_the_script(rt: HostRuntime) -> Result<(), Fail> {
    let alloc = rt.alloc();
    let mut files = Vec::new(alloc);
    for file in [("app", WORD_COUNT), ("in.txt", "")] {
        files.push(file)?;
    }
    let Err(Stop::Refused(Refusal::NoFile { name })) = audited(alloc, &files)? else {
        return Err("no refusal")?;
    };
    assert_eq!(rt; name.text(), "script");
    files.push(("script", ""))?;
    let Err(Stop::Refused(Refusal::NoFile { name })) = audited(alloc, &files)? else {
        return Err("no refusal")?;
    };
    assert_eq!(rt; name.text(), "journal");
    files.push(("journal", "0 end\n"))?;
    assert!(rt; matches!(audited(alloc, &files)?, Ok(1)));
    files.pop();
    files.push(("journal", "0 end\n0 end\n"))?;
    let refused = matches!(
        audited(alloc, &files)?,
        Err(Stop::Refused(Refusal::RefusedEntry { line: 2, why: 2 }))
    );
    assert!(rt; refused);
    Ok(())
}
