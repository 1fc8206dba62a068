//! The lock in small: a diary that two writers share, each in a thread of its own where one can be made.
ghost use Rattle.std.specs.Prelude.{◌≡◌, ℕ, ◌<◌, ◌≤◌, true, false, [], ◌∷◌, Contains, IfOk};
ghost use Rattle.bf_turn.specs.Logs.{entries_of};
ghost use Rattle.bf_turn.specs.Diaries.{writer_of, notes_of, Writes, WritesAll};

use crate::logged::Logged;
use crate::seat::Seat;
use crate::turns::Turns;
use std::alloc::{AllocError as Memory, Global};
use std::sync::Wait;
use std::thread::{Threads, join};

/// What a writer has noted.
#[derive(Clone, Copy)]
pub struct Note {
    pub writer: u32,
    pub text: u32,
}

/// All notes, under a title.
#[derive(Drop)]
pub struct Diary {
    pub title: u32,
    pub notes: Vec<Note>,
}

impl Logged for Diary {
    ghost use Rattle.bf_turn.specs.Diaries.{writer_of};

    type Entry = Note;

    type Name = u32;

    ghost log = { λ diary. diary.notes.items };

    ghost name = { λ diary. diary.title };

    ghost party = { writer_of };
}

/// One note, from the take to the give, and whether there was memory for it.
pub fn write<H: Wait>(
    rt: &H,
    turns: &Turns<Diary>,
    seat: Seat<Diary>,
    note: Note,
) -> (Seat<Diary>, bool)
    requires lock { seat.lock ≡ turns.now.lock }
    requires writer { Contains seat.known.parties note.writer }
    ensures lock { result.0.lock ≡ seat.lock }
    ensures yes { result.1 ≡ true → Writes seat.known result.0.known (note ∷ []) }
    ensures no { result.1 ≡ false → Writes seat.known result.0.known [] }
{
    let mut held = turns.take(rt, seat);
    let written = held.state.notes.push(note).is_ok();
    let seat = turns.give(held);
    (seat, written)
}

// The notes of a writer, one after the other, and whether there was memory for all.
fn write_all<H: Wait>(
    rt: &H,
    turns: &Turns<Diary>,
    seat: Seat<Diary>,
    writer: u32,
    texts: &[u32],
) -> (Seat<Diary>, bool)
    requires lock { seat.lock ≡ turns.now.lock }
    requires writer { Contains seat.known.parties writer }
    ensures { WritesAll writer texts.now seat result.0 result.1 }
{
    let mut seat = seat;
    for text in texts {
        let (next, written) = write(
            rt,
            turns,
            seat,
            Note {
                writer,
                text: *text,
            },
        );
        seat = next;
        if !written {
            return (seat, false);
        }
    }
    (seat, true)
}

/// Two writers note their texts at once. The diary has the notes of both, each once and in its order, and no others.
pub fn write_both<H: Threads + Wait + Sync>(
    rt: &H,
    alloc: Global,
    title: u32,
    first: &[u32],
    second: &[u32],
) -> Result<Diary, Memory>
    ensures title { IfOk result (λ diary. diary.title ≡ title) }
    ensures first { IfOk result (λ diary. entries_of writer_of 0 diary.notes.items ≡ notes_of 0 first.now) }
    ensures second { IfOk result (λ diary. entries_of writer_of 1 diary.notes.items ≡ notes_of 1 second.now) }
    ensures no_others { IfOk result (λ diary. (writer : ℕ) → 2 ≤ writer → entries_of writer_of writer diary.notes.items ≡ []) }
{
    let diary = Diary {
        title,
        notes: Vec::new(alloc),
    };
    let Ok((turns, seat)) = Turns::new(alloc, diary, 2) else {
        return Err(Memory);
    };
    let lock = &turns;
    let (one, two) = lock.split(seat, 1);
    let ((one, one_whole), (two, two_whole)) = join(
        rt,
        move || -> (Seat<Diary>, bool)
            requires { (one.lock ≡ lock.now.lock) × Contains one.known.parties 0 }
            ensures { WritesAll 0 first.entry.now one result.0 result.1 }
        { write_all(rt, lock, one, 0, first) },
        move || -> (Seat<Diary>, bool)
            requires { (two.lock ≡ lock.now.lock) × Contains two.known.parties 1 }
            ensures { WritesAll 1 second.entry.now two result.0 result.1 }
        { write_all(rt, lock, two, 1, second) },
    );
    let both = lock.join(one, two);
    let diary = turns.close(both);
    if one_whole && two_whole {
        Ok(diary)
    } else {
        Err(Memory)
    }
}
