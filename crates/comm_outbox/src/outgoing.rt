//! The side of the queue that puts.
ghost use Rattle.std.specs.Prelude.{◌≡◌, ◌↔◌, ◌++◌, ◌∷◌, [], ◌+◌, ◌-◌, ◌<◌, ◌^◌, ◌≤◌, length, max, true, vec_capacity};
ghost use mathlib.Core.List.{IsPrefix};
ghost use Rattle.std.specs.Arc.{arc_value};
ghost use Rattle.crossbeam_queue.specs.Passes.{view, IsPassOf, IsSamePass, ruled_capacity};
ghost use Rattle.comm_core.specs.History.{IsLegal};
ghost use Rattle.comm_outbox.specs.Order.{HasPut};
ghost use Rattle.comm_outbox.specs.Sides.{entries_of};

use crate::entry_queue::{CountWaiting, DrainStep, EntryQueue, PutStep, QueuePass, Rejoin};
use crate::publisher::Publisher;
use comm_core::Entry;
use std::alloc::Global;
use std::marker::Model;
use std::sync::{Arc, Wait};
use std::thread;

// How many entries a queue serves, with as many more as it has places: its words don't wrap.
const MAX_PUTS: u64 = (1 << 62) - 65_537;

// Whether the queue serves no more, since more were put than it serves.
fn is_worn_out(puts: u64) -> bool
    ensures { result ≡ true ↔ 2 ^ 62 - 65537 < puts }
{
    puts > MAX_PUTS
}

/// The side that puts entries. Contracts see which queue it is of, the limits by which entries are legal, how many
/// places there are, how many of them were found free and not filled since (the room), and what was put.
#[derive(Drop)]
pub struct Outbox {
    pub(crate) queue: Arc<EntryQueue, Global>,
    pub(crate) pass: QueuePass,
    pub(crate) count: u64,
    pub(crate) room: u64,
}

impl Model for Outbox {
    ghost use Rattle.std.specs.Prelude.{◌≡◌, ◌+◌, ◌≤◌, ◌^◌, length, true};
    ghost use Rattle.std.specs.Arc.{arc_value};
    ghost use Rattle.crossbeam_queue.specs.Passes.{view as known_at, IsPassOf, ruled_capacity};
    ghost use Rattle.comm_core.specs.History.{IsLegal};
    ghost use Rattle.comm_outbox.specs.Code.{outbox_code};
    ghost use Rattle.comm_outbox.specs.Sides.{OutboxView};

    ghost Value = { OutboxView };

    ghost coded = { outbox_code };

    ghost view = { λ o. record {
      queue = o.pass.table_id;
      clients = (known_at o.pass).bounds.clients;
      comms = (known_at o.pass).bounds.comms;
      places = ruled_capacity (arc_value o.queue);
      room = o.room;
      puts = (known_at o.pass).sent;
    } };

    ghost invariant = { λ o.
        IsPassOf (arc_value o.queue) o.pass × ((known_at o.pass).puts ≡ true)
        × (o.count ≡ length (known_at o.pass).sent) × (o.count + o.room ≤ 2 ^ 62)
        × (ruled_capacity (arc_value o.queue) ≤ 65537)
        × IsLegal (known_at o.pass).bounds.clients (known_at o.pass).bounds.comms
        (known_at o.pass).sent };
}

// Puts an entry.
fn put_on<R: Wait>(rt: &R, queue: &EntryQueue, pass: &mut QueuePass, entry: Arc<Entry, Global>)
    requires queue { IsPassOf queue.now pass.old }
    requires puts { (view pass.old).puts ≡ true }
    requires few { length (view pass.old).sent < 2 ^ 62 }
    requires legal { IsLegal (view pass.old).bounds.clients (view pass.old).bounds.comms
        ((view pass.old).sent ++ arc_value entry ∷ []) }
    ensures same { IsSamePass pass.old pass.new }
    ensures put { HasPut (view pass.old) entry (view pass.new) }
{
    let mut entry = entry;
    // It ends at its first turn: `push_as` gives the entry back only where the queue was full at one moment, and
    // nothing but a put fills a place that was found free; `put` asks for one. The queue's rule has no word for what
    // another call found, so this isn't proved; if it weren't so, the loop would wait for the publisher to take, and
    // no entry would be lost.
    for _ in rt.forever() {
        match queue.push_as::<PutStep, R>(rt, pass, entry) {
            Ok(()) => return,
            Err(back) => entry = back,
        }
        thread::yield_now();
    }
    unreachable!()
}

// Takes as many entries as the queue holds.
fn drain<R: Wait>(
    rt: &R,
    queue: &EntryQueue,
    pass: &mut QueuePass,
    left: usize,
    into: Vec<Arc<Entry, Global>>,
) -> Vec<Arc<Entry, Global>>
    requires queue { IsPassOf queue.now pass.old }
    requires both { ((view pass.old).puts ≡ true) × ((view pass.old).takes ≡ true) }
    requires begins { IsPrefix (view pass.old).got (view pass.old).sent }
    requires left { length (view pass.old).sent ≡ length (view pass.old).got + left }
    requires empty { into.items ≡ [] }
    requires room { left ≤ vec_capacity into }
    ensures all { (view pass.old).got ++ entries_of result.items ≡ (view pass.old).sent }
    ensures count { length result.items ≡ left }
{
    let mut rest = into;
    for _ in 0..left {
        match queue.pop_as::<DrainStep, R>(rt, pass) {
            Some(entry) => rest.push_reserved(entry),
            // Nobody else takes.
            None => unreachable!(),
        }
    }
    rest
}

impl Outbox {
    /// How many entries wait to be taken, at one moment of the call. The other places are free, and stay so until
    /// this side fills them: that is the room. After 2^62 - 65,537 puts it says that all places are taken.
    #[must_use]
    pub fn waiting<R: Wait>(&mut self, rt: &R) -> u64
        ensures room { self.new
            ≡ record self.old { room = max self.old.room (self.old.places - result) } }
        ensures places { result ≤ self.old.places }
        ensures puts { result ≤ length self.old.puts }
        ensures legal { IsLegal self.old.clients self.old.comms self.old.puts }
    {
        let places = self.queue.capacity() as u64;
        if is_worn_out(self.count) {
            return places;
        }
        let waiting = self.queue.len_as::<CountWaiting, R>(rt, &mut self.pass) as u64;
        self.room = self.room.max(places - waiting);
        waiting
    }

    /// Puts an entry into a place that was found free. It takes no memory and can't fail.
    pub fn put<R: Wait>(&mut self, rt: &R, entry: Arc<Entry, Global>)
        requires room { 1 ≤ self.old.room }
        requires legal { IsLegal self.old.clients self.old.comms
            (self.old.puts ++ arc_value entry ∷ []) }
        ensures { self.new ≡ record self.old {
          room = self.old.room - 1;
          puts = self.old.puts ++ arc_value entry ∷ [];
        } }
    {
        put_on(rt, &self.queue, &mut self.pass, entry);
        self.count += 1;
        self.room -= 1;
    }

    /// Gives up both sides. What was taken is a prefix of what was put.
    pub fn give_up(self, publisher: Publisher)
        requires { publisher.queue ≡ self.queue }
        ensures { IsPrefix publisher.taken self.puts }
    {
        let (queue, mut pass) = self.rejoin(publisher);
        queue.learn_as::<DrainStep>(&mut pass);
    }

    /// Gives up both sides, for the entries that were put and not taken, in order. It takes no memory: the caller
    /// hands in a list with room for them.
    #[must_use]
    pub fn take_rest<R: Wait>(
        self,
        rt: &R,
        publisher: Publisher,
        into: Vec<Arc<Entry, Global>>,
    ) -> Vec<Arc<Entry, Global>>
        requires queue { publisher.queue ≡ self.queue }
        requires empty { into.items ≡ [] }
        requires room { length self.puts ≤ length publisher.taken + vec_capacity into }
        ensures all { publisher.taken ++ entries_of result.items ≡ self.puts }
        ensures few { length result.items ≤ self.places }
    {
        let (queue, mut pass) = self.rejoin(publisher);
        let left = queue.len_as::<DrainStep, R>(rt, &mut pass);
        drain(rt, &queue, &mut pass, left, into)
    }

    // The queue, with one pass that may put and take.
    fn rejoin(self, publisher: Publisher) -> (Arc<EntryQueue, Global>, QueuePass)
        requires { publisher.queue ≡ self.queue }
        ensures queue { IsPassOf (arc_value result.0) result.1 }
        ensures places { ruled_capacity (arc_value result.0) ≡ self.places }
        ensures both { ((view result.1).puts ≡ true) × ((view result.1).takes ≡ true) }
        ensures lists { ((view result.1).sent ≡ self.puts)
            × ((view result.1).got ≡ publisher.taken) }
    {
        let Outbox {
            queue,
            mut pass,
            count: _count,
            room: _room,
        } = self;
        let Publisher {
            queue: _queue,
            pass: other,
            count: _taken,
        } = publisher;
        queue.absorb::<Rejoin>(&mut pass, other);
        (queue, pass)
    }
}
