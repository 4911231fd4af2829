//! Numbers from their digits, each beside the text that is one change away.
use crate::{integer, natural, natural_up_to};
use std::test::Fail;

#[test]
fn naturals(rt: HostRuntime) -> Result<(), Fail> {
    assert_eq!(rt; natural(b"0"), Some(0));
    assert_eq!(rt; natural(b"007"), Some(7));
    assert_eq!(rt; natural(b"18446744073709551615"), Some(u64::MAX));
    assert_eq!(rt; natural(b"18446744073709551616"), None);
    assert_eq!(rt; natural(b""), None);
    assert_eq!(rt; natural(b"+7"), None);
    assert_eq!(rt; natural(b"7 "), None);
    Ok(())
}

#[test]
fn naturals_up_to_a_limit(rt: HostRuntime) -> Result<(), Fail> {
    assert_eq!(rt; natural_up_to(16, b"16"), Some(16));
    assert_eq!(rt; natural_up_to(16, b"17"), None);
    assert_eq!(rt; natural_up_to(16, b"-1"), None);
    Ok(())
}

#[test]
fn integers(rt: HostRuntime) -> Result<(), Fail> {
    assert_eq!(rt; integer(b"-0"), Some(0));
    assert_eq!(rt; integer(b"-9223372036854775808"), Some(i64::MIN));
    assert_eq!(rt; integer(b"-9223372036854775809"), None);
    assert_eq!(rt; integer(b"9223372036854775807"), Some(i64::MAX));
    assert_eq!(rt; integer(b"9223372036854775808"), None);
    assert_eq!(rt; integer(b"-"), None);
    assert_eq!(rt; integer(b"+1"), None);
    assert_eq!(rt; integer(b"--1"), None);
    Ok(())
}
