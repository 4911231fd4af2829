//! Lines of entries, and texts that are judged.
use crate::read::entry;
use crate::{AuditEnd, AuditRefusal, audit_journal, journal_text};
use apx_dag::Dag;
use apx_history::{Entry, Event};
use apx_input::windows;
use apx_job::Job;
use apx_json::read_app;
use apx_machine::{Journal, Machine};
use apx_planned::plan_of;
use apx_script::{Script, Settings};
use apx_tuple::InputKind;
use std::alloc::Global;
use std::test::Fail;

/// Lines that are split into words, which are counted and stored.
const WORD_COUNT: &str =
    r#"{"operators":[{"name":"read","class":"lines","properties":{"file":"in.txt","perWindow":2}},{"name":"split","class":"words"},{"name":"tally","class":"count"},{"name":"out","class":"store"}],"streams":[{"name":"s1","source":{"operatorName":"read","portName":"output"},"sinks":[{"operatorName":"split","portName":"input"}]},{"name":"s2","source":{"operatorName":"split","portName":"output"},"sinks":[{"operatorName":"tally","portName":"input"}]},{"name":"s3","source":{"operatorName":"tally","portName":"output"},"sinks":[{"operatorName":"out","portName":"input"}]}]}"#;

/// The job that counts the words of a file, two lines to a window.
fn word_count(alloc: Global, file: &str) -> Result<Job, Fail> {
    let dag = Dag::of(alloc, read_app(alloc, WORD_COUNT.as_bytes())?)?;
    let mut inputs = Vec::new(alloc);
    inputs.push(windows(alloc, InputKind::Lines, 2, file.as_bytes())?)?;
    if inputs.len() != dag.inputs_before(dag.len()) {
        return Err("another number of inputs")?;
    }
    Ok(Job::of(alloc, dag, inputs, Script::new(alloc), Settings::default())?)
}

#[test]
fn a_line_is_read_in_one_form(rt: HostRuntime) -> Result<(), Fail> {
    let start = Event::Start {
        op: 65535,
        part: 255,
        window: 4_294_967_295,
    };
    for (line, read) in [
        ("255 start 65535 255 4294967295", Some((255, start))),
        (
            "0 write 4294967295",
            Some((
                0,
                Event::Write {
                    window: 4_294_967_295,
                },
            )),
        ),
        ("0 kill 0", Some((0, Event::Kill { line: 0 }))),
        ("0 end", Some((0, Event::End))),
        ("0 fault 255", Some((0, Event::Fault { status: 255 }))),
        ("256 end", None),
        ("0 start 65536 0 1", None),
        ("0 start 0 256 1", None),
        ("0 write 4294967296", None),
        ("0 fault 256", None),
        ("00 end", None),
        ("0 kill 00", None),
        ("0  end", None),
        ("0 end ", None),
        ("0 end\r", None),
        ("0 End", None),
        ("0 start 0 0", None),
        ("0 write 1 2", None),
        ("+0 end", None),
        ("0", None),
        ("", None),
    ] {
        let read = read.map(|(worker, event)| Entry { worker, event });
        assert!(rt; entry(line.as_bytes()) == read, "{line}");
    }
    Ok(())
}

#[test]
fn a_text_is_legal_or_its_first_refused_line_is_told(rt: HostRuntime) -> Result<(), Fail> {
    let alloc = rt.alloc();
    let job = word_count(alloc, "a b\na\nc a\n")?;
    for (text, told) in [
        ("", Ok((0, AuditEnd::Open))),
        ("0 start 0 0 1\n", Ok((1, AuditEnd::Open))),
        ("7 start 0 0 1\n7 finish 0 0 1\n", Ok((2, AuditEnd::Open))),
        ("0 start 0 0 1\n0 fault 13\n", Ok((2, AuditEnd::Fault))),
        ("0 write 1\n", Err((1, 2))),
        ("0 start 00 0 1\n", Err((1, 1))),
        ("0 start 0 0 1", Err((1, 1))),
        ("0 start 0 0 1\n\n", Err((2, 1))),
        ("0 start 0 0 1\r\n", Err((1, 1))),
        ("7 start 0 0 1\n8 finish 0 0 1\n", Err((2, 2))),
        ("0 fault 14\n", Err((1, 2))),
        ("0 fault 13\n0 start 0 0 1\n", Err((2, 2))),
        ("0 end\n", Err((1, 2))),
    ] {
        let found = match audit_journal(alloc, &job, text.as_bytes()) {
            Ok(audited) => Ok((audited.journal.entries().len(), audited.end)),
            Err(AuditRefusal::Line { line, why }) => Err((line, why)),
            Err(AuditRefusal::Memory) => return Err("memory")?,
        };
        assert!(rt; found == told, "{text}");
    }
    let none = audit_journal(alloc, &word_count(alloc, "")?, b"0 end\n")?;
    assert!(rt; none.end == AuditEnd::Ended);
    Ok(())
}

#[test]
fn what_is_written_of_a_run_is_judged_as_that_run(rt: HostRuntime) -> Result<(), Fail> {
    let alloc = rt.alloc();
    let job = word_count(alloc, "a b\na\nc a\n")?;
    let mut machine = Machine::new(alloc, plan_of(alloc, &job)?, 0)?;
    let mut journal = Journal::new(alloc);
    for _ in 0..100 {
        if machine.count() > 0 {
            let event = machine.pick(0);
            machine.apply(alloc, 0, event)?;
            journal.add(Entry { worker: 0, event })?;
        }
    }
    let mut text = Vec::new(alloc);
    journal_text(&journal, &mut text)?;
    let audited = audit_journal(alloc, &job, &text)?;
    assert!(rt; audited.journal.entries() == journal.entries());
    assert!(rt; audited.end == AuditEnd::Ended);
    Ok(())
}
