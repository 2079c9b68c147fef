//! The callers of the store that are there to be copied.
use crate::tests::{FIRST, SECOND, entry};
use sqlite::Alter;
use std::process::Abort;
use std::test::Fail;
use wb_store::Store;
use wb_store_uses::{add_if_free, open_in_memory};

#[test]
fn adds_each_entry_once(rt: HostRuntime) -> Result<(), Fail> {
    let mut store = open_in_memory(rt.alloc()).ok_or("store")?;
    adds_each_once(&rt, &mut store)
}

fn adds_each_once<D: Alter>(rt: &impl Abort, store: &mut Store<D>) -> Result<(), Fail> {
    for (row, is_added) in [(FIRST, true), (FIRST, false), (SECOND, true)] {
        let entry = entry(&row).ok_or("entry")?;
        assert_eq!(rt; add_if_free(store, &entry).map_err(|_| "fault")?, is_added);
    }
    assert_eq!(rt; store.count().map_err(|_| "fault")?, 2);
    Ok(())
}
