//! Words that are commands, each beside words one change away that are none.
use crate::{Command, CommandRefusal, command, record_words, resume_words};
use apx_script::Settings;
use std::alloc::{AllocError, Global};
use std::test::Fail;

/// The words of a line, between its spaces.
fn words(alloc: Global, line: &str) -> Result<Vec<String>, AllocError> {
    let mut words = Vec::new(alloc);
    if !line.is_empty() {
        for word in line.split(' ') {
            words.push(String::from_str(alloc, word)?)?;
        }
    }
    Ok(words)
}

fn told(alloc: Global, line: &str) -> Result<Command, Fail> {
    let words = words(alloc, line)?;
    Ok(command(alloc, &words)?)
}

/// Why the words of a line are refused, if they are.
fn refusal(alloc: Global, line: &str) -> Result<Option<CommandRefusal>, Fail> {
    let words = words(alloc, line)?;
    Ok(command(alloc, &words).err())
}

#[test]
fn each_rule_has_a_command_beside_it(rt: HostRuntime) -> Result<(), Fail> {
    for (accepted, refused) in [
        // A command has its name, in small letters, and as many words as it takes.
        ("check app", ""),
        ("check app", "app"),
        ("check app", "Check app"),
        ("check app", "checks app"),
        ("check app", "check"),
        ("check app", "check app more"),
        ("plan app", "plan"),
        ("gen 1 2", "gen 1"),
        ("gen 1 2", "gen 1 2 3"),
        ("group app groups", "group app"),
        ("audit app journal", "audit app"),
        // The commands that are read apart are none of these.
        ("check app", "resume app dir"),
        ("check app", "record 2 dir"),
        ("check app", "--help"),
        ("check app", "--version"),
        // A file's name isn't empty and doesn't begin with a minus.
        ("plan a-b", "plan -ab"),
        ("check app", "check  app"),
        ("sim app --script s-", "sim app --script -s"),
        // Options stand behind the other words, in pairs, each as a word of its own and at most once.
        ("sim app --order 1", "sim --order 1 app"),
        ("mean app --base 1", "mean app --base"),
        ("mean app --base 1", "mean app --base=1"),
        ("mean app --base 1", "mean app base 1"),
        ("sim app --base 1 --keep 1", "sim app --base 1 --base 1"),
        ("sim app --script s", "sim app --script s --script s"),
        ("sim app", "sim app --"),
        // Each command has its own.
        ("mean app --base 1", "plan app --base 1"),
        ("mean app --base 1", "mean app --order 1"),
        ("run app --threads 1", "sim app --threads 1"),
        ("sim app --order 1", "run app --order 1"),
        (
            "group app groups --script s --checkpoint 2",
            "group app groups --order 1",
        ),
        ("trace app --order 1", "trace app --threads 1"),
        (
            "audit app journal --checkpoint 2 --script s",
            "audit app journal --base 1",
        ),
        // A number is 1 to 20 decimal digits.
        ("mean app --base 1", "mean app --base -1"),
        ("mean app --base 1", "mean app --base +1"),
        (
            "mean app --base 00000000004294959295",
            "mean app --base 000000000004294959295",
        ),
        // Each has its bounds.
        ("mean app --base 4294959295", "mean app --base 4294959296"),
        ("sim app --checkpoint 1", "sim app --checkpoint 0"),
        ("sim app --checkpoint 1000", "sim app --checkpoint 1001"),
        ("sim app --block 1040", "sim app --block 1039"),
        ("sim app --block 1048576", "sim app --block 1048577"),
        ("sim app --keep 1", "sim app --keep 0"),
        ("sim app --keep 1000000", "sim app --keep 1000001"),
        (
            "sim app --order 18446744073709551615",
            "sim app --order 18446744073709551616",
        ),
        ("run app --threads 1", "run app --threads 0"),
        ("run app --threads 16", "run app --threads 17"),
        ("gen 18446744073709551615 1", "gen 18446744073709551616 1"),
        ("gen 0 1", "gen 0 0"),
        ("gen 0 200000", "gen 0 200001"),
    ] {
        let alloc = rt.alloc();
        assert_eq!(rt; refusal(alloc, accepted)?, None, "{accepted:?}");
        assert_eq!(rt;
            refusal(alloc, refused)?,
            Some(CommandRefusal::Usage),
            "{refused:?}"
        );
    }
    Ok(())
}

#[test]
fn what_a_simulation_is_told(rt: HostRuntime) -> Result<(), Fail> {
    let line = "sim app --keep 2 --script s --block 2000 --order 9 --checkpoint 3 --base 4";
    let Command::Sim {
        app,
        script,
        settings,
        order,
    } = told(rt.alloc(), line)?
    else {
        return Err("no simulation")?;
    };
    let wanted = Settings {
        base: 4,
        every: 3,
        block: 2000,
        keep: 2,
    };
    assert_eq!(rt; (app.text(), order), ("app", 9));
    assert_eq!(rt; script.as_ref().map(|name| name.text()), Some("s"));
    assert_eq!(rt; settings, wanted);
    Ok(())
}

#[test]
fn what_a_run_is_told(rt: HostRuntime) -> Result<(), Fail> {
    let Command::Run {
        app,
        script,
        settings,
        threads,
    } = told(rt.alloc(), "run app")?
    else {
        return Err("no run")?;
    };
    assert_eq!(rt; (app.text(), threads), ("app", 4));
    assert_eq!(rt; script.is_none(), true);
    assert_eq!(rt; settings, Settings::default());
    Ok(())
}

#[test]
fn what_a_resumed_run_is_told(rt: HostRuntime) -> Result<(), Fail> {
    let alloc = rt.alloc();
    let told = resume_words(alloc, &words(alloc, "resume app dir --order 7")?)?;
    assert_eq!(rt; (told.app.text(), told.order), ("app", 7));
    assert_eq!(rt; told.settings, Settings::default());
    for line in &[
        "resume app",
        "resume app dir --script s",
        "resume app -d",
        "sim app dir",
    ] {
        let refused = resume_words(alloc, &words(alloc, line)?).err();
        assert_eq!(rt; refused, Some(CommandRefusal::Usage), "{line:?}");
    }
    Ok(())
}

#[test]
fn how_many_lines_a_record_makes_a_window_of(rt: HostRuntime) -> Result<(), Fail> {
    let alloc = rt.alloc();
    assert_eq!(rt;
        record_words(&words(alloc, "record 1000000 dir")?)?,
        1_000_000
    );
    for line in &[
        "record 0 dir",
        "record 1000001 dir",
        "record 2",
        "record 2 dir more",
        "record 2 -d",
        "records 2 dir",
    ] {
        let refused = record_words(&words(alloc, line)?).err();
        assert_eq!(rt; refused, Some(CommandRefusal::Usage), "{line:?}");
    }
    Ok(())
}
