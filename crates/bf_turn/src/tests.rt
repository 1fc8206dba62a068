//! Turns that seats take on one thread, and two writers at once.
ghost use Rattle.std.specs.Prelude.{◌≡◌, ◌∷◌, [], Contains};
ghost use Rattle.bf_turn.specs.Diaries.{Writes};

use crate::diary::{Diary, Note, write, write_both};
use crate::{Logged, Seat, Turns};
use std::process::Abort;
use std::sync::Wait;
use std::test::Fail;

fn noted<H: Wait + Abort>(
    rt: &H,
    turns: &Turns<Diary>,
    seat: Seat<Diary>,
    writer: u32,
    text: u32,
) -> Seat<Diary>
    requires lock { seat.lock ≡ turns.now.lock }
    requires writer { Contains seat.known.parties writer }
    ensures lock { result.lock ≡ seat.lock }
    ensures noted { Writes seat.known result.known (record { writer = writer; text = text } ∷ []) }
{
    let (seat, written) = write(rt, turns, seat, Note { writer, text });
    assert!(rt; written, "memory");
    seat
}

#[test]
fn notes_stand_in_the_order_of_turns(rt: HostRuntime) -> Result<(), Fail> {
    let alloc = rt.alloc();
    let diary = Diary {
        title: 7,
        notes: Vec::new(alloc),
    };
    let Ok((turns, seat)) = Turns::new(alloc, diary, 3) else {
        panic!(rt; "memory")
    };
    let (others, one) = turns.split(seat, 1);
    let one = noted(&rt, &turns, one, 1, 10);
    let others = noted(&rt, &turns, others, 2, 20);
    let others = noted(&rt, &turns, others, 0, 30);
    let one = noted(&rt, &turns, one, 1, 40);
    let whole = turns.join(one, others);
    let whole = noted(&rt, &turns, whole, 2, 50);
    let diary = turns.close(whole);
    assert_eq!(rt; diary.title, 7);
    let wanted = [(1, 10), (2, 20), (0, 30), (1, 40), (2, 50)];
    assert_eq!(rt; diary.notes.len(), wanted.len());
    for (note, (writer, text)) in diary.notes.iter().zip(wanted) {
        assert_eq!(rt; (note.writer, note.text), (writer, text));
    }
    Ok(())
}

#[test]
fn two_writers_at_once(rt: HostRuntime) -> Result<(), Fail> {
    let alloc = rt.alloc();
    let mut texts = Vec::new(alloc);
    for text in 0..5000u32 {
        texts.push(text)?;
    }
    let diary = write_both(&rt, alloc, 7, &texts, &texts)?;
    let mut next = [0u32; 2];
    for note in diary.notes.as_slice() {
        let writer = note.writer as usize;
        assert!(rt; writer < 2, "a note of nobody's");
        assert_eq!(rt; note.text, next[writer]);
        next[writer] = next[writer].saturating_add(1);
    }
    assert_eq!(rt; next, [5000, 5000]);
    Ok(())
}
