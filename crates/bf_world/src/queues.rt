ghost use Rattle.std.specs.Prelude.{◌≡◌, ◌<◌, ◌≤◌, ◌==◌, [], ◌∷◌, ◌++◌, length, map, replicate, drop, slice_get, IfOk, IfErr, vec_len, OnOk, OnErr};
ghost use Rattle.bf_core.specs.States.{channel};
ghost use Rattle.bf_world.specs.Queues.{messages, with_messages, no_messages, IsSquare, OthersStay};

use bf_program::{Kept, Memory};
use std::alloc::Global;
use std::collections::VecDeque;
use std::marker::Model;

/// The messages on their way, in a queue from each rank to each.
#[derive(Drop)]
pub(crate) struct Queues<M> {
    ranks: u32,
    queues: Vec<VecDeque<M>>,
}

impl<M> Model for Queues<M> {
    ghost use Rattle.std.specs.Prelude.{◌≡◌, ◌≤◌, ◌*◌, map, vec_len};
    ghost use Rattle.bf_world.specs.Queues.{Waiting};

    ghost Value = { Waiting M };

    ghost view = { λ q. record { ranks = q.ranks; queues = map (λ queue. queue.items) q.queues.items } };

    ghost invariant = { λ q. (q.ranks ≤ 32) × (vec_len q.queues ≡ q.ranks * q.ranks) };
}

// So many empty queues.
fn empty_queues<M: Drop>(alloc: Global, count: usize) -> Result<Vec<VecDeque<M>>, Memory>
    ensures queues { IfOk result (λ queues. map (λ queue. queue.items) queues.items ≡ replicate count []) }
    ensures count { IfOk result (λ queues. vec_len queues ≡ count) }
{
    let mut queues = Vec::with_capacity(alloc, count)?;
    for _ in 0..count {
        queues.push_reserved(VecDeque::new(alloc));
    }
    Ok(queues)
}

// Empties each queue.
fn clear_all<M: Drop>(queues: &mut [VecDeque<M>])
    ensures { map (λ queue. queue.items) queues.new ≡ replicate (length queues.old) [] }
{
    for queue in queues.iter_mut() {
        queue.clear();
    }
}

impl<M: Drop> Queues<M> {
    /// Empty queues between so many ranks.
    pub(crate) fn new(alloc: Global, ranks: u32) -> Result<Self, Memory>
        requires { ranks ≤ 32 }
        ensures { IfOk result (λ queues. queues ≡ no_messages ranks) }
    {
        let count = (ranks * ranks) as usize;
        let queues = empty_queues(alloc, count)?;
        Ok(Queues { ranks, queues })
    }

    // Where the queue from one rank to another stands.
    fn channel(&self, from: u32, to: u32) -> usize
        requires from { from < self.now.ranks }
        requires to { to < self.now.ranks }
        ensures channel { result ≡ channel self.now.ranks from to }
        ensures within { result < length self.now.queues }
    {
        (from * self.ranks + to) as usize
    }

    /// Between how many ranks there are queues.
    pub(crate) fn ranks(&self) -> u32
        ensures ranks { result ≡ self.now.ranks }
        ensures within { self.now.ranks ≤ 32 }
        ensures square { IsSquare self.now }
    {
        self.ranks
    }

    /// Adds a message at the back of the queue from one rank to another. Without memory it comes back.
    pub(crate) fn push(&mut self, from: u32, to: u32, message: M) -> Result<(), Kept<M>>
        requires from { from < self.old.ranks }
        requires to { to < self.old.ranks }
        ensures ok { OnOk result (self.new ≡ with_messages self.old from to (messages self.old from to ++ message ∷ [])) }
        ensures here { OnOk result (messages self.new from to ≡ messages self.old from to ++ message ∷ []) }
        ensures others { OnOk result (OthersStay self.old self.new from to) }
        ensures err { OnErr result (self.new ≡ self.old) }
        ensures kept { IfErr result (λ kept. kept.value ≡ message) }
    {
        let channel = self.channel(from, to);
        let pushed = self.queues[channel].push_back(message);
        match pushed {
            Ok(()) => Ok(()),
            Err(failed) => Err(Kept {
                value: failed.value,
            }),
        }
    }

    /// Takes the front of the queue from one rank to another, if there is one.
    pub(crate) fn pop(&mut self, from: u32, to: u32) -> Option<M>
        requires from { from < self.old.ranks }
        requires to { to < self.old.ranks }
        ensures front { result ≡ slice_get (messages self.old from to) 0 }
        ensures rest { self.new ≡ with_messages self.old from to (drop 1 (messages self.old from to)) }
        ensures here { messages self.new from to ≡ drop 1 (messages self.old from to) }
        ensures others { OthersStay self.old self.new from to }
    {
        let channel = self.channel(from, to);
        self.queues[channel].pop_front()
    }

    /// How many messages wait from one rank to another.
    pub(crate) fn len(&self, from: u32, to: u32) -> usize
        requires from { from < self.now.ranks }
        requires to { to < self.now.ranks }
        ensures { result ≡ length (messages self.now from to) }
    {
        self.queues[self.channel(from, to)].len()
    }

    /// Whether no message waits from one rank to another.
    pub(crate) fn is_empty(&self, from: u32, to: u32) -> bool
        requires from { from < self.now.ranks }
        requires to { to < self.now.ranks }
        ensures { result ≡ (length (messages self.now from to) == 0) }
    {
        self.len(from, to) == 0
    }

    /// Empties all queues.
    pub(crate) fn clear(&mut self)
        ensures { self.new ≡ no_messages self.old.ranks }
    {
        clear_all(self.queues.as_mut_slice());
    }
}
