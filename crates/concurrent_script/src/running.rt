//! A whole script, from the manager's opening to its end.
ghost use Rattle.std.specs.Prelude.{map};
ghost use Rattle.comm_manager.specs.Names.{Named};
ghost use Rattle.comm_script.specs.Stock.{AreIdle};

use crate::limits::{CLIENTS, LIMITS};
use crate::script::{ClientScript, Script, read_script};
use crate::shared_state::SharedState;
use crate::threads::play_at_once;
use crate::transcript::Transcript;
use crate::wording::{append_history, append_taken};
use client_threads::{Ended, shut_down};
use comm_core::NewFault;
use comm_manager::{Cause, Client, Manager, ManagerBuilder, ManagerId, OpeningFault, Publisher};
use comm_script::{RunFault, write_all_and_flush};
use comm_targets::Target;
use std::alloc::Global;
use std::io::{Read, Write};
use std::marker::Brand;
use std::sync::Wait;
use std::thread::Threads;

// What came of all clients' lines, where all were played.
fn transcripts_of(alloc: Global, parts: Vec<ClientScript>) -> Result<Vec<Transcript>, RunFault> {
    let mut transcripts = Vec::new(alloc);
    for part in parts {
        let transcript = part.transcript.into_inner();
        transcript.played?;
        transcripts.push(transcript)?;
    }
    Ok(transcripts)
}

// Lets all threads play.
fn played<M: ManagerId + Send + Sync, T: Target, R: Threads + Wait + Sync>(
    rt: &R,
    alloc: Global,
    manager: &Manager<M, T>,
    clients: &mut [Client<M>],
    publisher: &mut Publisher<M>,
    script: Script,
    stock: Vec<T>,
) -> Result<Vec<Transcript>, RunFault>
    requires idle { AreIdle (map T.means stock.items) }
{
    let parts = script.into_parts();
    let shared = SharedState::new(alloc, stock, CLIENTS)?;
    play_at_once(rt, manager, &shared, &parts, publisher, clients);
    drop(shared);
    transcripts_of(alloc, parts)
}

// The lines of all that anybody saw.
fn report(
    alloc: Global,
    transcripts: Result<Vec<Transcript>, RunFault>,
    ended: Result<Ended, Cause>,
) -> Result<Vec<u8>, RunFault> {
    let transcripts = transcripts?;
    let Ended { farewell, taken } = match ended {
        Ok(ended) => ended,
        Err(Cause::Memory) => return Err(RunFault::Memory),
        Err(Cause::MissingClients) => return Err(RunFault::NoReader),
    };
    let mut text = Vec::new(alloc);
    for transcript in &transcripts {
        text.extend_from_slice(&transcript.text)?;
    }
    append_history(alloc, &farewell.history.entries, &transcripts, &mut text)?;
    append_taken(alloc, taken, farewell.untaken.len(), &mut text)?;
    Ok(text)
}

// Lets all threads play over a manager that goes by these names, and tells what anybody saw.
fn run_threads<M: ManagerId + Send + Sync, T: Target, R: Threads + Wait + Sync>(
    rt: &R,
    alloc: Global,
    builder: ManagerBuilder,
    script: Script,
    stock: Vec<T>,
) -> Result<Vec<u8>, RunFault>
    requires named { Named builder M.book M.ledgers M.queue M.limits }
    requires idle { AreIdle (map T.means stock.items) }
{
    match Manager::<M, T>::open(rt, alloc, builder) {
        Ok((manager, clients, publisher)) => {
            let (mut clients, mut publisher) = (clients, publisher);
            let seats = clients.as_mut_slice();
            let transcripts = played(rt, alloc, &manager, seats, &mut publisher, script, stock);
            report(
                alloc,
                transcripts,
                shut_down(rt, manager, clients, publisher),
            )
        }
        Err(OpeningFault::Memory) => Err(RunFault::Memory),
        Err(OpeningFault::NoReader) => Err(RunFault::NoReader),
    }
}

/// Plays the script that the reader has with these targets in stock, and writes what anybody saw. After a fault
/// nothing was written, or, where the writer fails, a beginning.
pub(crate) fn run<I: Read, O: Write, T: Target, R: Threads + Wait + Sync>(
    rt: &R,
    alloc: Global,
    reader: &mut I,
    writer: &mut O,
    stock: Vec<T>,
) -> Result<(), RunFault>
    requires idle { AreIdle (map T.means stock.items) }
{
    let script = read_script(alloc, reader)?;
    let builder = match ManagerBuilder::new(alloc, LIMITS) {
        Ok(builder) => builder,
        Err(NewFault::BadLimits) => return Err(RunFault::BadLimits),
        Err(NewFault::Memory) => return Err(RunFault::Memory),
    };
    let mut text = run_threads::<Brand, T, R>(rt, alloc, builder, script, stock)?;
    write_all_and_flush(writer, &mut text)
}
