//! Texts and their first lines.
use crate::next_line;
use std::process::Abort;
use std::test::Fail;

fn assert_first(rt: &impl Abort, text: &str, line: &str, behind: &str) -> Result<(), Fail> {
    let (first, rest) = next_line(text.as_bytes()).ok_or("an empty text")?;
    assert_eq!(rt; first, line.as_bytes(), "{text:?}");
    assert_eq!(rt; rest, behind.as_bytes(), "{text:?}");
    Ok(())
}

#[test]
fn first_lines(rt: HostRuntime) -> Result<(), Fail> {
    assert_eq!(rt; next_line(b"").is_none(), true);
    assert_first(&rt, "a", "a", "")?;
    assert_first(&rt, "a\n", "a", "")?;
    assert_first(&rt, "\n", "", "")?;
    assert_first(&rt, "a\r\nb\n", "a", "b\n")?;
    assert_first(&rt, "a\r\r\n\r", "a\r", "\r")?;
    assert_first(&rt, "\r", "", "")?;
    Ok(())
}
