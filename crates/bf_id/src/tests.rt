use crate::{Id, Shape};
use bf_face::Face;
use std::process::Abort;

fn assert_spells(rt: &impl Abort, text: &str, root: u32, octants: &[u8]) {
    match Id::parse(text) {
        Some(id) => {
            assert_eq!(rt; id.root(), root);
            assert_eq!(rt; id.octants(), octants);
            assert_eq!(rt; id.text().bytes(), text.as_bytes());
        }
        None => assert!(rt; false, "{text} is an id"),
    }
}

#[test]
fn reads_ids(rt: HostRuntime) {
    assert_spells(&rt, "3.07", 3, [0, 7].as_slice());
    assert_spells(&rt, "0", 0, [].as_slice());
    assert_spells(&rt, "4294967295.1234", 4294967295, [1, 2, 3, 4].as_slice());
}

#[test]
fn refuses_other_texts(rt: HostRuntime) {
    for text in [
        "",
        "3.",
        "03",
        "00",
        "3.8",
        "3.00000",
        "3.0.1",
        ".0",
        "4294967296",
        "+3",
        " 3",
    ] {
        assert_eq!(rt; Id::parse(text), None, "{text} is no id");
    }
}

#[test]
fn a_root_faces_the_octants_on_its_side(rt: HostRuntime) {
    let shape = Shape {
        nx: 2,
        ny: 1,
        nz: 1,
    };
    let next = Id::root_of(1);
    let near = Id::root_of(0).child(1);
    let far = Id::root_of(0).child(0);
    assert_eq!(rt; near.face(next, shape), Some(Face::XHigh));
    assert_eq!(rt; next.face(near, shape), Some(Face::XLow));
    assert!(rt; near.touches(next, shape));
    assert_eq!(rt; far.face(next, shape), None);
    assert!(rt; !far.touches(next, shape));
}

#[test]
fn blocks_touch_at_a_corner(rt: HostRuntime) {
    let shape = Shape {
        nx: 2,
        ny: 2,
        nz: 2,
    };
    let inner = Id::root_of(0).child(7);
    let outer = Id::root_of(7);
    assert_eq!(rt; inner.corner(shape).as_slice(), [8, 8, 8].as_slice());
    assert_eq!(rt; outer.corner(shape).as_slice(), [16, 16, 16].as_slice());
    assert!(rt; inner.touches(outer, shape));
    assert_eq!(rt; inner.face(outer, shape), None);
}

#[test]
fn a_block_stands_before_what_lies_in_it(rt: HostRuntime) {
    let root = Id::root_of(0);
    assert!(rt; root < root.child(0));
    assert!(rt; root.child(0).child(7) < root.child(1));
    assert!(rt; root.child(7) < Id::root_of(1));
}
