// Examples by their numbers.
use super::*;
use std::test::Fail;

#[test]
fn lines_are_four_words_of_a_thousand(rt: HostRuntime) -> Result<(), Fail> {
    for (number, size, lines) in [
        (0, 1, "w417 w181 w92 w425\n"),
        (
            1,
            3,
            "w849 w764 w655 w427\nw638 w697 w406 w899\nw874 w43 w249 w147\n",
        ),
        (u64::MAX, 2, "w737 w950 w69 w187\nw645 w389 w697 w319\n"),
    ] {
        let example = generate(rt.alloc(), number, size)?;
        assert_eq!(rt; example.lines.as_slice(), lines.as_bytes(), "at {number}");
        assert_eq!(rt; example.app.as_slice(), APPLICATION.as_bytes());
    }
    Ok(())
}

#[test]
fn eight_windows_have_a_script(rt: HostRuntime) -> Result<(), Fail> {
    for (size, script) in [(1, ""), (70, ""), (71, SCRIPT), (80, SCRIPT)] {
        let example = generate(rt.alloc(), 1, size)?;
        assert_eq!(rt; example.script.as_slice(), script.as_bytes(), "at {size}");
    }
    Ok(())
}
