// Each call once, with ample memory.

use crate::{Names, Numbered};
use std::test::Fail;

#[test]
fn by_name(rt: HostRuntime) -> Result<(), Fail> {
    let alloc = rt.alloc();
    let mut table: Names<u64> = Names::new(alloc);
    assert_eq!(rt; table.get(b"a"), None);
    table.put(alloc, b"a", 1)?;
    table.put(alloc, b"b", 2)?;
    table.put(alloc, b"a", 3)?;
    let names = table.names(alloc)?;
    assert_eq!(rt; names.len(), 2);
    assert_eq!(rt; names[0].as_slice(), b"a".as_slice());
    assert_eq!(rt; table.get(b"a"), Some(3));
    table.take_out(b"a");
    assert_eq!(rt; table.get(b"a"), None);
    assert_eq!(rt; table.pop().map(|entry| entry.1), Some(2));
    assert_eq!(rt; table.get(b"b"), None);
    Ok(())
}

#[test]
fn by_number(rt: HostRuntime) -> Result<(), Fail> {
    let mut table: Numbered<u64> = Numbered::new(rt.alloc());
    table.reserve(2)?;
    table.put(7, 1);
    if table.get(7).is_some() {
        assert_eq!(rt; table.replace(7, 2), 1);
    }
    assert_eq!(rt; table.get(7).copied(), Some(2));
    let mut names: Names<u64> = Names::new(rt.alloc());
    names.put(rt.alloc(), b"a", 7)?;
    names.put(rt.alloc(), b"b", 8)?;
    assert_eq!(rt; names.count_in(&table), 1);
    assert_eq!(rt; table.take_out(7), Some(2));
    assert_eq!(rt; table.take_out(7), None);
    Ok(())
}
