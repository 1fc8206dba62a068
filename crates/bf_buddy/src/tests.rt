use crate::{Members, first_lost};
use std::test::Fail;

#[test]
fn an_empty_home_is_not_lost(rt: HostRuntime) -> Result<(), Fail> {
    let homes = Members::all(16);
    let live = homes.without(3).without(4);
    let filled = Members::all(1);
    assert_eq!(rt; first_lost(homes, filled, live, 0), None);
    assert_eq!(rt; first_lost(homes, homes, live, 0), Some((3, 4)));
    assert_eq!(rt; first_lost(homes, homes, live, 1), None);
    Ok(())
}

#[test]
fn the_first_of_lost_homes_is_told(rt: HostRuntime) -> Result<(), Fail> {
    let homes = Members::all(3);
    let live = homes.without(0).without(1);
    assert_eq!(rt; first_lost(homes, homes, live, 0), Some((0, 1)));
    assert_eq!(rt; first_lost(homes, homes, live, 1), Some((1, 0)));
    assert_eq!(rt; first_lost(homes, homes, Members::all(0), 0), Some((0, 1)));
    assert_eq!(rt; first_lost(homes, homes, Members::all(0), 1), Some((0, 2)));
    Ok(())
}

#[test]
fn a_lone_home_is_lost(rt: HostRuntime) -> Result<(), Fail> {
    let homes = Members::all(1);
    assert_eq!(rt; first_lost(homes, homes, Members::all(0), 5), Some((0, 0)));
    assert_eq!(rt; first_lost(homes, homes, homes, 5), None);
    Ok(())
}

#[test]
fn ranks_go_to_thirty_one(rt: HostRuntime) -> Result<(), Fail> {
    let members = Members::all(32);
    assert!(rt; members.has(31));
    assert!(rt; !members.has(32));
    assert_eq!(rt; members.count(), 32);
    assert_eq!(rt; members.place(31), Some(31));
    assert_eq!(rt; members.without(30).place(31), Some(30));
    assert_eq!(rt; members.without(30).at(31), None);
    assert_eq!(rt; members.without(30).with(30).at(30), Some(30));
    assert_eq!(rt; Members::all(0).with(31).with(7).with(31).count(), 2);
    Ok(())
}

// The members are 0, 2, 4 and 5.
#[test]
fn buddies_go_by_places(rt: HostRuntime) -> Result<(), Fail> {
    let members = Members::all(6).without(1).without(3);
    assert_eq!(rt; members.buddy(0, 0), 2);
    assert_eq!(rt; members.buddy(0, 1), 4);
    assert_eq!(rt; members.buddy(0, 3), 2);
    assert_eq!(rt; members.buddy(5, 0), 0);
    assert_eq!(rt; members.predecessor(0, 0), 5);
    assert_eq!(rt; members.predecessor(0, 1), 4);
    assert_eq!(rt; members.predecessor(2, 0), 0);
    assert_eq!(rt; members.place(3), None);
    assert_eq!(rt; members.without(3).count(), 4);
    assert_eq!(rt; members.without(40).count(), 4);
    Ok(())
}
