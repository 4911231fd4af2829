//! Scripts that are read, and those that are refused one change away.
use crate::{Act, Point, Script, ScriptRefusal, Settings, read_script};
use std::alloc::Global;
use std::process::Abort;
use std::test::Fail;

/// Why a script is refused; None where it is accepted.
fn refused(alloc: Global, text: &str) -> Result<Option<(u64, u8)>, Fail> {
    match read_script(alloc, text.as_bytes()) {
        Ok(_) => Ok(None),
        Err(ScriptRefusal::Line { line, why }) => Ok(Some((line, why))),
        Err(refusal) => Err(refusal)?,
    }
}

fn assert_refused(
    rt: &impl Abort,
    alloc: Global,
    text: &str,
    wanted: Option<(u64, u8)>,
) -> Result<(), Fail> {
    assert_eq!(rt; refused(alloc, text)?, wanted, "{text:?}");
    Ok(())
}

#[test]
fn one_change_away_from_a_command(rt: HostRuntime) -> Result<(), Fail> {
    let alloc = rt.alloc();
    let accepted = [
        "",
        "\n\n",
        "# kill\n",
        "kill before 1 0 a",
        "kill staged 000000001 0 a\r\n",
        "kill written 999999999 999999999 a b",
        "kill done 1 0 ",
        "kill done 1 0  a",
        "repartition 4 3 tally\n",
        "repartition 4 3 é\n",
    ];
    for text in &accepted {
        assert_refused(&rt, alloc, text, None)?;
    }
    let refused = [
        " \n",
        " # kill\n",
        "kill now 1 0 a",
        "kill Before 1 0 a",
        "Kill before 1 0 a",
        "kill before 1000000000 0 a",
        "kill before 0000000001 0 a",
        "kill before -1 0 a",
        "kill before 1 +0 a",
        "kill before  1 0 a",
        "kill before 1 0",
        "kill before 1 a",
        "kill before",
        "kill\tbefore 1 0 a",
        "repartition 4 3",
        "repartition 4  tally",
        "repartition 4 3a tally",
        "purge 4 3 tally",
    ];
    for text in &refused {
        assert_refused(&rt, alloc, text, Some((1, 1)))?;
    }
    assert_refused(
        &rt,
        alloc,
        "# twice\n\nkill done 3 0 a\nkill\n",
        Some((4, 1)),
    )?;
    Ok(())
}

#[test]
fn a_line_that_is_no_text_is_no_command(rt: HostRuntime) -> Result<(), Fail> {
    let read = read_script(rt.alloc(), b"kill done 3 0 \xff\n");
    assert_eq!(rt; read.err(), Some(ScriptRefusal::Line { line: 1, why: 1 }));
    Ok(())
}

#[test]
fn reads_commands(rt: HostRuntime) -> Result<(), Fail> {
    let script = read_script(
        rt.alloc(),
        b"# twice\nkill done 3 0 split\n\nrepartition 4 300 tally one\n",
    )?;
    let [kill, repartition] = script.lines() else {
        return Err("two commands")?;
    };
    assert_eq!(rt; kill.number, 2);
    if let Act::Kill {
        point,
        window,
        part,
        name,
    } = &kill.act
    {
        assert_eq!(rt; *point, Point::Done);
        assert_eq!(rt; (*window, *part), (3, 0));
        assert_eq!(rt; name.text(), "split");
    } else {
        return Err("a kill")?;
    }
    assert_eq!(rt; repartition.number, 4);
    if let Act::Repartition {
        window,
        count,
        name,
    } = &repartition.act
    {
        assert_eq!(rt; (*window, *count), (4, 255));
        assert_eq!(rt; name.text(), "tally one");
    } else {
        return Err("a repartition")?;
    }
    Ok(())
}

#[test]
fn no_script_commands_nothing(rt: HostRuntime) -> Result<(), Fail> {
    assert_eq!(rt; Script::new(rt.alloc()).lines().len(), 0);
    Ok(())
}

#[test]
fn the_usual_settings(rt: HostRuntime) -> Result<(), Fail> {
    let usual = Settings {
        base: 1_000_000_000,
        every: 60,
        block: 65_536,
        keep: 64,
    };
    assert_eq!(rt; Settings::default(), usual);
    Ok(())
}

#[test]
fn a_thousand_commands(rt: HostRuntime) -> Result<(), Fail> {
    let alloc = rt.alloc();
    let mut text = String::from_str(alloc, "# many\n")?;
    for _ in 0..1000 {
        text.push_str("kill done 3 0 a\n")?;
    }
    assert_refused(&rt, alloc, text.as_str(), None)?;
    text.push_str("kill done 3 0 a\n")?;
    assert_refused(&rt, alloc, text.as_str(), Some((1002, 2)))?;
    text.push_str("kill now 3 0 a\n")?;
    assert_refused(&rt, alloc, text.as_str(), Some((1002, 2)))?;
    Ok(())
}
