//! A writer and two readers of the versions: what each has seen, alone and with threads, of two entries that one
//! publish shows.
ghost use Rattle.std.specs.Prelude.{◌≡◌, ◌<◌, ◌∷◌, [], IfOk, true};
ghost use Rattle.std.specs.Arc.{arc_value};
ghost use Rattle.comm_core.specs.declared.row.Row.TheVariants as row;
ghost use Rattle.interleaving_tests.specs.Closes.{close_of};

use comm_core::{Call, Entry, Outgoings, Reply, Row, StateAnswer};
use comm_value::Text;
use comm_versions::{BlankHistory, Change, History, VersionReader, VersionWriter, versions};
use std::alloc::{AllocError, Global};
use std::marker::Brand;
use std::sync::{Arc, Wait};
use std::test::*;
use std::thread::{Threads, join, yield_now};
use test_harness::{TestFault, holds};

// The entry of a close of a comm that isn't there.
fn close_change(alloc: Global, number: u64) -> Result<Change, AllocError>
    ensures entry { IfOk result (λ c. arc_value c.entry ≡ close_of number) }
    ensures row { IfOk result (λ c. c.row ≡ row.Same) }
{
    let entry = Entry::Change {
        client: 0,
        number,
        call: Call::Close {
            id: Text::copy_of(alloc, "q")?,
        },
        outcome: None,
        reply: Reply::NoComm,
        outgoing: Outgoings::new(Vec::new(alloc)),
    };
    Ok(Change::new(Arc::new(alloc, entry)?, Row::Same))
}

fn append_one<M: History>(writer: &mut VersionWriter<M>, change: Change) -> bool
    requires front { writer.old.front ≡ [] }
    requires pending { writer.old.pending ≡ [] }
    requires entry { arc_value change.entry ≡ close_of 1 }
    requires row { change.row ≡ row.Same }
    requires limits { 0 < M.limits.clients }
    ensures front { writer.new.front ≡ [] }
    ensures pending { result ≡ true → writer.new.pending ≡ close_of 1 ∷ [] }
{
    writer.append(change).is_ok()
}

fn append_two<M: History>(writer: &mut VersionWriter<M>, change: Change) -> bool
    requires front { writer.old.front ≡ [] }
    requires pending { writer.old.pending ≡ close_of 1 ∷ [] }
    requires entry { arc_value change.entry ≡ close_of 2 }
    requires row { change.row ≡ row.Same }
    requires limits { 0 < M.limits.clients }
    ensures front { writer.new.front ≡ [] }
    ensures pending { result ≡ true → writer.new.pending ≡ close_of 1 ∷ close_of 2 ∷ [] }
{
    writer.append(change).is_ok()
}

// Appends two, and then publishes both.
fn write_both<M: History, R: Wait>(rt: &R, alloc: Global, writer: &mut VersionWriter<M>) -> bool
    requires front { writer.old.front ≡ [] }
    requires pending { writer.old.pending ≡ [] }
    requires limits { 0 < M.limits.clients }
{
    let (Ok(one), Ok(two)) = (close_change(alloc, 1), close_change(alloc, 2)) else {
        return false;
    };
    if !append_one(writer, one) || !append_two(writer, two) {
        return false;
    }
    writer.publish(rt);
    true
}

// Reads, at most so often, until it sees both entries.
fn read_both<M: History>(alloc: Global, mut reader: VersionReader<M>) -> (VersionReader<M>, u64) {
    let mut front = 0;
    for _ in 0..5_000_000u32 {
        if let Ok(read) = reader.read_infos(alloc, None) {
            front = read.front;
        }
        if front > 1 {
            break;
        }
        yield_now();
    }
    (reader, front)
}

// No comm is there, after so many entries.
fn find_nothing<M: History>(
    alloc: Global,
    reader: &mut VersionReader<M>,
    front: u64,
) -> Result<(), TestFault> {
    let id = Text::copy_of(alloc, "q")?;
    let Ok(infos) = reader.read_infos(alloc, Some(&id)) else {
        return Err(TestFault("no list is read"));
    };
    let is_empty = infos.front == front && infos.comms.as_slice().is_empty();
    let Ok(state) = reader.read_state(&id) else {
        return Err(TestFault("no state is read"));
    };
    let is_none = state.front == front && matches!(state.answer, StateAnswer::NoComm);
    holds(
        is_empty && is_none && reader.seen() == front,
        "a read gives what isn't there",
    )
}

// A reader that hears a stamp has seen what it tells of.
fn hear_stamp<M: History>(
    alloc: Global,
    writer: &VersionWriter<M>,
    reader: &mut VersionReader<M>,
) -> Result<(), TestFault> {
    let stamp = writer.stamp();
    let copy = stamp.copy();
    let was_none = reader.seen() == 0;
    reader.hear(&copy);
    let are_two = reader.seen() == 2 && stamp.number() == 2 && copy.number() == 2;
    holds(was_none && are_two, "a stamp tells of something else")?;
    find_nothing(alloc, reader, 2)
}

// One writes while the other reads.
fn write_and_read<M: History + Send + Sync, R: Threads + Wait + Sync>(
    rt: &R,
    alloc: Global,
    writer: &mut VersionWriter<M>,
    reader: VersionReader<M>,
) -> (bool, (VersionReader<M>, u64))
    requires front { writer.old.front ≡ [] }
    requires pending { writer.old.pending ≡ [] }
    requires limits { 0 < M.limits.clients }
{
    join(
        rt,
        move || -> bool
            requires { (writer.now.front ≡ []) × (writer.now.pending ≡ [])
                × (0 < M.limits.clients) }
        { write_both(rt, alloc, writer) },
        move || read_both(alloc, reader),
    )
}

fn play_readers<M: History + Send + Sync, R: Threads + Wait + Sync>(
    rt: &R,
    alloc: Global,
    writer: &mut VersionWriter<M>,
    readers: Vec<VersionReader<M>>,
) -> Result<(), TestFault>
    requires front { writer.old.front ≡ [] }
    requires pending { writer.old.pending ≡ [] }
    requires limits { 0 < M.limits.clients }
{
    let mut readers = readers;
    let (Some(mut two), Some(one)) = (readers.pop(), readers.pop()) else {
        return Err(TestFault("not two readers"));
    };
    let is_nothing = find_nothing(alloc, &mut two, 0);
    let (done, (one, front)) = write_and_read(rt, alloc, writer, one);
    let are_seen = done && front == 2 && one.seen() == 2;
    drop(one);
    let is_heard = hear_stamp(alloc, writer, &mut two);
    drop(two);
    is_nothing?;
    holds(are_seen, "a reader doesn't see both entries")?;
    is_heard
}

fn play_over_versions<M: History + Send + Sync, R: Threads + Wait + Sync>(
    rt: &R,
    alloc: Global,
    history: BlankHistory,
) -> Result<(), TestFault>
    requires book { history ≡ M.book }
    requires clients { M.limits.clients ≡ 2 }
    requires comms { M.limits.comms ≡ 16 }
{
    let Ok((mut writer, readers)) = versions::<M, R>(rt, alloc, history, 2, 16) else {
        return Err(TestFault("no versions"));
    };
    let came = play_readers(rt, alloc, &mut writer, readers);
    writer.end(rt);
    came
}

// The call of `play_over_versions` picks the history's name.
fn play_new_history<R: Threads + Wait + Sync>(rt: &R, alloc: Global) -> Result<(), TestFault> {
    play_over_versions::<Brand, R>(rt, alloc, BlankHistory::new())
}

#[test]
fn readers_see_two_entries_that_one_publish_shows(rt: HostRuntime) -> Result<(), Fail> {
    play_new_history(&rt, rt.alloc())?;
    Ok(())
}
