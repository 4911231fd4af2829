//! A table: each call once.

use crate::{Table, closes, opens_by_start};
use std::test::Fail;

#[test]
fn what_is_put_for_a_partition_is_there_until_it_is_taken(rt: HostRuntime) -> Result<(), Fail> {
    let mut table = Table::new(rt.alloc())?;
    table.facts();
    opens_by_start();
    closes();
    assert_eq!(rt; table.take(0, 0), None);
    table.put(15, 7, 3_u32);
    table.put(0, 7, 4);
    assert_eq!(rt; table.get(15, 7).copied(), Some(3));
    assert_eq!(rt; table.get(7, 0).copied(), None);
    assert_eq!(rt; table.take(15, 7), Some(3));
    assert_eq!(rt; table.take(15, 7), None);
    assert_eq!(rt; table.take(0, 7), Some(4));
    Ok(())
}
