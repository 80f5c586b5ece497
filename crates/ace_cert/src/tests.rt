//! A certificate is put together and read.

use crate::{Cert, EventList, LineList, LineOrder, PlaceList, ReadPlace};
use std::test::Fail;

#[test]
fn lists_give_what_was_put(rt: HostRuntime) -> Result<(), Fail> {
    let mut stores = EventList::new(rt.alloc());
    stores.push(10)?;
    let mut lines = LineList::new(rt.alloc());
    lines.push(LineOrder { addr: 64, stores })?;
    let mut reads = PlaceList::new(rt.alloc());
    reads.push(ReadPlace { event: 1, place: 2 })?;
    reads.push(ReadPlace { event: 8, place: 7 })?;
    let cert = Cert { lines, reads };
    assert_eq!(rt; cert.lines.len(), 1);
    assert_eq!(rt; cert.lines.get(0).addr, 64);
    assert_eq!(rt; cert.lines.get(0).stores.len(), 1);
    assert_eq!(rt; cert.reads.len(), 2);
    assert_eq!(rt; *cert.reads.get(1), ReadPlace { event: 8, place: 7 });
    Ok(())
}
