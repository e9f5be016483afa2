use std::test::Fail;
use tables::Table;

#[test]
fn entries_stand_in_rising_order(rt: HostRuntime) -> Result<(), Fail> {
    let mut table = Table::new(rt.alloc());
    table.insert(7, 'b')?;
    table.insert(3, 'a')?;
    table.insert(7, 'c')?;
    assert_eq!(rt; table.len(), 2);
    assert_eq!(rt; table.get(7).copied(), Some('c'));
    let mut last = 0;
    for (key, _) in table.iter() {
        assert!(rt; last < *key);
        last = *key;
    }
    Ok(())
}
