use crate::table::drive;
use message::fault::Refusal;
use pile::{Pile, Record};
use ring::Ring;
use route::{Route, Slot, pass};
use std::alloc::Global;
use std::test::Fail;
use tandem::Tandem;

fn ring(heap: Global, slots: usize) -> Result<Ring, Fail> {
    Ok(Ring::new(vec![in heap; Slot::unused(); slots]?)?)
}

fn pile(heap: Global, records: usize) -> Result<Pile, Fail> {
    Ok(Pile::new(vec![in heap; Record::unused(); records]?)?)
}

// Half of six slots, rounded down.
#[test]
fn ring_by_the_table(rt: HostRuntime) -> Result<(), Fail> {
    drive(&rt, &mut ring(rt.alloc(), 6)?);
    Ok(())
}

// Half of seven records, rounded down.
#[test]
fn pile_by_the_table(rt: HostRuntime) -> Result<(), Fail> {
    drive(&rt, &mut pile(rt.alloc(), 7)?);
    Ok(())
}

// Parts of unequal size: room for one message, and for two.
#[test]
fn tandem_by_the_table(rt: HostRuntime) -> Result<(), Fail> {
    let heap = rt.alloc();
    drive(&rt, &mut Tandem::new(ring(heap, 2)?, pile(heap, 5)?));
    Ok(())
}

#[test]
fn tandem_of_a_tandem_by_the_table(rt: HostRuntime) -> Result<(), Fail> {
    let heap = rt.alloc();
    let inner = Tandem::new(ring(heap, 2)?, pile(heap, 2)?);
    drive(&rt, &mut Tandem::new(inner, ring(heap, 3)?));
    Ok(())
}

// One slot, or one record, is too few.
#[test]
fn too_small(rt: HostRuntime) -> Result<(), Fail> {
    let slots = vec![in rt.alloc(); Slot::unused(); 1]?;
    assert_eq!(rt; Ring::new(slots).err(), Some(Refusal::MemorySize.at(0)));
    let records = vec![in rt.alloc(); Record::unused(); 1]?;
    assert_eq!(rt; Pile::new(records).err(), Some(Refusal::MemorySize.at(0)));
    Ok(())
}

// On an empty way what is put comes out; behind another message it does not.
#[test]
fn passed(rt: HostRuntime) -> Result<(), Fail> {
    let mut ring = ring(rt.alloc(), 4)?;
    assert!(rt; matches!(pass(&mut ring, 1, b"alone"), Ok(true)));
    assert!(rt; ring.put(1, b"waits").is_ok());
    assert!(rt; matches!(pass(&mut ring, 1, b"behind"), Ok(false)));
    Ok(())
}
