//! What a thread of a client does.
use crate::fixtures::{ids, integer, keys};
use crate::load::{Load, ReadKind};
use crate::load_fault::LoadFault;
use comm_core::{Reply, StateAnswer, Unavailable};
use comm_manager::{Client, CountedHistory, Manager, ManagerId};
use comm_targets::Target;
use comm_value::{Dict, Text, Val};
use std::alloc::{AllocError, Global};
use std::rt::Clock;
use std::sync::atomic::{AtomicU64, Ordering};
use std::sync::{Mutex, Wait};
use std::thread::yield_now;
use std::time::Instant;

/// What the threads tell one another.
#[derive(Drop)]
pub struct Signals {
    /// How many writers are at work.
    pub writing: AtomicU64,
    /// When the load began.
    pub begun: Instant,
}

/// What a client's thread does.
#[derive(Clone, Copy)]
pub enum Role {
    Writes,
    Reads(ReadKind),
}

/// What a client does, with texts of its own, and what it counted.
#[derive(Drop)]
pub struct Job {
    pub role: Role,
    pub first: usize,
    pub each: u64,
    pub ids: Vec<Text>,
    pub keys: Vec<Text>,
    pub counted: Mutex<Result<WorkCount, LoadFault>>,
}

/// What came of a job.
#[derive(Clone, Copy)]
pub struct WorkCount {
    pub changes: u64,
    pub reads: u64,
    pub sum: u64,
    /// Since the load began, for a writer.
    pub nanos: u128,
}

impl WorkCount {
    /// Nothing was counted.
    pub const NONE: WorkCount = WorkCount {
        changes: 0,
        reads: 0,
        sum: 0,
        nanos: 0,
    };

    /// What two counted; the time is the longer.
    pub(crate) fn plus(&self, other: WorkCount) -> WorkCount {
        WorkCount {
            changes: self.changes.saturating_add(other.changes),
            reads: self.reads.saturating_add(other.reads),
            sum: self.sum.wrapping_add(other.sum),
            nanos: self.nanos.max(other.nanos),
        }
    }
}

impl Job {
    /// The job of one who is this one of so many of a role.
    pub(crate) fn new(
        alloc: Global,
        role: Role,
        load: &Load,
        place: u8,
        of: u8,
    ) -> Result<Job, AllocError> {
        Ok(Job {
            role,
            first: usize::from(place).saturating_mul(load.comms) / usize::from(of).max(1),
            each: load.each,
            ids: ids(alloc, load.comms)?,
            keys: keys(alloc, load.keys)?,
            counted: Mutex::new(Ok(WorkCount::NONE)),
        })
    }

    // The comm and the key of a round.
    fn texts_at(&self, round: usize) -> Result<(&Text, &Text), LoadFault> {
        let id = self.ids.get(round).ok_or(LoadFault::WrongAnswer)?;
        let key = self.keys.get(round % self.keys.len().max(1));
        Ok((id, key.ok_or(LoadFault::WrongAnswer)?))
    }

    // The round after this one.
    fn round_after(&self, round: usize) -> usize {
        let next = round.saturating_add(1);
        if next >= self.ids.len() { 0 } else { next }
    }
}

// Pushes one number, and tries again while too many entries wait to be taken.
fn push<M: ManagerId, T: Target, R: Wait>(
    rt: &R,
    alloc: Global,
    manager: &Manager<M, T, CountedHistory>,
    client: &mut Client<M>,
    id: &Text,
    key: &Text,
    number: u64,
) -> Result<(), LoadFault> {
    for _ in rt.forever() {
        let id = id.copy()?;
        let change = Dict::new().insert(alloc, key.copy()?, integer(number))?;
        let answered = client.push(rt, manager, id, change);
        let is_made = match &answered {
            Ok(answered) if matches!(answered.reply, Reply::Delivered(None)) => Ok(true),
            Err(Unavailable::OutboxFull(_)) => Ok(false),
            _ => Err(LoadFault::WrongAnswer),
        };
        drop(answered);
        if is_made? {
            return Ok(());
        }
        yield_now();
    }
    unreachable!()
}

// Makes a writer's pushes.
fn write<M: ManagerId, T: Target, R: Wait>(
    rt: &R,
    alloc: Global,
    manager: &Manager<M, T, CountedHistory>,
    client: &mut Client<M>,
    job: &Job,
) -> Result<u64, LoadFault> {
    let mut round = job.first;
    for n in 0..job.each {
        let (id, key) = job.texts_at(round)?;
        push(rt, alloc, manager, client, id, key, n.saturating_add(1_000))?;
        round = job.round_after(round);
    }
    Ok(job.each)
}

fn number_in(state: &Dict, key: &Text) -> Option<u64> {
    match state.get(key.as_str()) {
        Some(Val::Whole(number)) => u64::try_from(number.get()).ok(),
        _ => None,
    }
}

// The number that a comm's state has at a key.
fn read_state<M: ManagerId>(
    client: &mut Client<M>,
    id: &Text,
    key: &Text,
) -> Result<u64, LoadFault> {
    let read = client.state(id)?;
    let number = match &read.answer {
        StateAnswer::State(state) => number_in(state, key),
        StateAnswer::NoComm | StateAnswer::NoState => None,
    };
    drop(read);
    number.ok_or(LoadFault::WrongAnswer)
}

// The length of all ids.
fn read_infos<M: ManagerId>(alloc: Global, client: &mut Client<M>) -> Result<u64, LoadFault> {
    let read = client.comm_info(alloc, None)?;
    let mut sum = 0u64;
    for info in read.comms.as_slice() {
        sum = sum.wrapping_add(info.id.as_str().len() as u64);
    }
    Ok(sum)
}

// Reads until the writers are done.
fn read<M: ManagerId>(
    alloc: Global,
    client: &mut Client<M>,
    job: &Job,
    read: ReadKind,
    writing: &AtomicU64,
) -> Result<WorkCount, LoadFault> {
    let mut count = WorkCount::NONE;
    let mut round = job.first;
    for _ in 0..u64::MAX {
        if writing.load(Ordering::Acquire) == 0 {
            break;
        }
        let (id, key) = job.texts_at(round)?;
        let sum = match read {
            ReadKind::State => read_state(client, id, key)?,
            ReadKind::Info => read_infos(alloc, client)?,
        };
        count.reads = count.reads.saturating_add(1);
        count.sum = count.sum.wrapping_add(sum);
        round = job.round_after(round);
    }
    Ok(count)
}

// Makes a writer's pushes, and tells how long they took since the load began.
fn write_timed<M: ManagerId, T: Target, R: Wait + Clock>(
    rt: &R,
    alloc: Global,
    manager: &Manager<M, T, CountedHistory>,
    client: &mut Client<M>,
    job: &Job,
    signals: &Signals,
) -> Result<WorkCount, LoadFault> {
    let done = write(rt, alloc, manager, client, job);
    let spent = signals.begun.elapsed(rt);
    let _left = signals.writing.fetch_sub(1, Ordering::AcqRel);
    let changes = done?;
    Ok(WorkCount {
        changes,
        nanos: spent?.as_nanos(),
        ..WorkCount::NONE
    })
}

/// What a client's thread does.
pub(crate) fn work<M: ManagerId, T: Target, R: Wait + Clock>(
    rt: &R,
    alloc: Global,
    manager: &Manager<M, T, CountedHistory>,
    client: &mut Client<M>,
    job: &Job,
    signals: &Signals,
) {
    let counted = match job.role {
        Role::Writes => write_timed(rt, alloc, manager, client, job, signals),
        Role::Reads(what) => read(alloc, client, job, what, &signals.writing),
    };
    *job.counted.lock(rt) = counted;
}
