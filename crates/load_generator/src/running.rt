//! A whole load, from the manager's opening to its end.
ghost use Rattle.comm_manager.specs.Names.{Named};
ghost use Rattle.comm_targets.specs.Meaning.{IsIdle};

use crate::load::Load;
use crate::load_fault::LoadFault;
use crate::open_comms::open_comms;
use crate::report::LoadReport;
use crate::threads::work_at_once;
use crate::worker::{Job, Role, Signals, WorkCount};
use client_threads::{Ended, shut_down};
use comm_core::Limits;
use comm_manager::{Cause, Client, CountedHistory, Manager, ManagerBuilder, ManagerId, Publisher};
use comm_targets::Target;
use std::alloc::{AllocError, Global};
use std::marker::Brand;
use std::rt::Clock;
use std::sync::Wait;
use std::sync::atomic::AtomicU64;
use std::thread::Threads;
use std::time::Instant;

// The jobs of as many clients as have this role.
fn add_jobs(
    alloc: Global,
    role: Role,
    load: &Load,
    count: u8,
    jobs: &mut Vec<Job>,
) -> Result<(), AllocError> {
    for place in 0..count {
        let job = Job::new(alloc, role, load, place, count)?;
        jobs.push(job)?;
    }
    Ok(())
}

// The clients' jobs: the first are the writers', the next the readers'.
fn jobs_of(alloc: Global, load: &Load) -> Result<Vec<Job>, AllocError> {
    let mut jobs = Vec::new(alloc);
    add_jobs(alloc, Role::Writes, load, load.writers, &mut jobs)?;
    if let Some(read) = load.read {
        add_jobs(alloc, Role::Reads(read), load, load.readers, &mut jobs)?;
    }
    Ok(jobs)
}

// What two counted together, where neither failed.
fn add_counts(
    all: Result<WorkCount, LoadFault>,
    one: Result<WorkCount, LoadFault>,
) -> Result<WorkCount, LoadFault> {
    let all = all?;
    Ok(all.plus(one?))
}

// What all counted together; the time is the longest.
fn count_of(jobs: Vec<Job>) -> Result<WorkCount, LoadFault> {
    let mut all = Ok(WorkCount::NONE);
    for job in jobs {
        all = add_counts(all, job.counted.into_inner());
    }
    all
}

// Opens the comms, and lets all threads work.
fn run_clients<M: ManagerId + Send + Sync, T: Target, R: Threads + Wait + Clock + Sync>(
    rt: &R,
    alloc: Global,
    manager: &Manager<M, T, CountedHistory>,
    clients: &mut [Client<M>],
    publisher: &mut Publisher<M>,
    load: &Load,
    target: T,
) -> Result<WorkCount, LoadFault>
    requires { IsIdle (T.means target) }
{
    let first = clients.first_mut().ok_or(LoadFault::WrongAnswer)?;
    open_comms(rt, alloc, manager, first, load, target)?;
    let jobs = jobs_of(alloc, load)?;
    let signals = Signals {
        writing: AtomicU64::new(u64::from(load.writers)),
        begun: Instant::now(rt)?,
    };
    work_at_once(rt, alloc, manager, &jobs, &signals, publisher, clients);
    count_of(jobs)
}

// What a load came to whose manager has ended.
fn report_of(
    counted: Result<WorkCount, LoadFault>,
    ended: Result<Ended<CountedHistory>, Cause>,
) -> Result<LoadReport, LoadFault> {
    let (history, taken, untaken) = match &ended {
        Ok(ended) => (
            ended.farewell.history.count,
            ended.taken,
            ended.farewell.untaken.len(),
        ),
        Err(_) => (0, 0, 0),
    };
    let is_ended = ended.is_ok();
    drop(ended);
    let count = counted?;
    if !is_ended {
        return Err(LoadFault::WrongAnswer);
    }
    Ok(LoadReport {
        changes: count.changes,
        reads: count.reads,
        history,
        taken,
        untaken,
        sum: count.sum,
        nanos: count.nanos,
    })
}

fn run_over_manager<M: ManagerId + Send + Sync, T: Target, R: Threads + Wait + Clock + Sync>(
    rt: &R,
    alloc: Global,
    builder: ManagerBuilder,
    load: &Load,
    target: T,
) -> Result<LoadReport, LoadFault>
    requires named { Named builder M.book M.ledgers M.queue M.limits }
    requires target { IsIdle (T.means target) }
{
    match Manager::<M, T, CountedHistory>::open(rt, alloc, builder) {
        Ok((manager, clients, publisher)) => {
            let (mut clients, mut publisher) = (clients, publisher);
            let all = clients.as_mut_slice();
            let counted = run_clients(rt, alloc, &manager, all, &mut publisher, load, target);
            report_of(counted, shut_down(rt, manager, clients, publisher))
        }
        Err(fault) => Err(LoadFault::from(fault)),
    }
}

/// Does the load with this target.
pub(crate) fn run<T: Target, R: Threads + Wait + Clock + Sync>(
    rt: &R,
    alloc: Global,
    load: &Load,
    target: T,
) -> Result<LoadReport, LoadFault>
    requires { IsIdle (T.means target) }
{
    let limits = Limits {
        clients: load.writers.saturating_add(load.readers),
        comms: 4_096,
        history: 20_000_000,
        outbox: 65_536,
    };
    let builder = ManagerBuilder::new(alloc, limits)?;
    run_over_manager::<Brand, T, R>(rt, alloc, builder, load, target)
}
