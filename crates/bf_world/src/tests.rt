use crate::journal::Journal;
use crate::queues::Queues;
use bf_core::{Event, How};
use std::test::Fail;

#[test]
fn a_queue_keeps_its_order(rt: HostRuntime) -> Result<(), Fail> {
    let mut queues = Queues::<u32>::new(rt.alloc(), 3)?;
    assert!(rt; queues.is_empty(0, 2));
    assert!(rt; queues.push(0, 2, 7).is_ok());
    assert!(rt; queues.push(0, 2, 8).is_ok());
    assert_eq!(rt; queues.len(0, 2), 2);
    assert_eq!(rt; queues.pop(0, 2), Some(7));
    assert_eq!(rt; queues.pop(0, 2), Some(8));
    assert_eq!(rt; queues.pop(0, 2), None);
    Ok(())
}

#[test]
fn queues_do_not_mix(rt: HostRuntime) -> Result<(), Fail> {
    let mut queues = Queues::<u32>::new(rt.alloc(), 3)?;
    assert!(rt; queues.push(0, 1, 7).is_ok());
    assert!(rt; queues.push(1, 0, 8).is_ok());
    assert!(rt; queues.push(1, 1, 9).is_ok());
    assert!(rt; queues.is_empty(0, 0));
    assert!(rt; queues.is_empty(2, 1));
    assert_eq!(rt; queues.pop(1, 1), Some(9));
    assert_eq!(rt; queues.pop(1, 0), Some(8));
    assert_eq!(rt; queues.pop(0, 1), Some(7));
    Ok(())
}

#[test]
fn all_queues_are_emptied(rt: HostRuntime) -> Result<(), Fail> {
    let mut queues = Queues::<u32>::new(rt.alloc(), 32)?;
    assert!(rt; queues.push(0, 0, 7).is_ok());
    assert!(rt; queues.push(31, 31, 8).is_ok());
    assert!(rt; !queues.is_empty(31, 31));
    queues.clear();
    assert!(rt; queues.is_empty(0, 0));
    assert!(rt; queues.is_empty(31, 31));
    assert_eq!(rt; queues.pop(31, 31), None);
    assert!(rt; queues.push(31, 31, 9).is_ok());
    assert_eq!(rt; queues.pop(31, 31), Some(9));
    Ok(())
}

#[test]
fn a_journal_keeps_its_order(rt: HostRuntime) -> Result<(), Fail> {
    let mut journal = Journal::new(rt.alloc());
    assert_eq!(rt; journal.room(), 0);
    journal.reserve(2)?;
    journal.note(Event::Leave { rank: 1 });
    journal.reserve(1)?;
    assert_eq!(rt; journal.room(), 1);
    journal.reserve(3)?;
    journal.note(Event::Arrive {
        rank: 0,
        how: How::Done,
    });
    assert_eq!(rt; journal.room(), 2);
    assert_eq!(rt; journal.len(), 2);
    assert_eq!(rt; journal.events().first(), Some(&Event::Leave { rank: 1 }));
    assert_eq!(rt;
        journal.events().last(),
        Some(&Event::Arrive {
            rank: 0,
            how: How::Done
        })
    );
    Ok(())
}
