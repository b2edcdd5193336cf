//! A whole script over the manager that threads share, from its opening to its end.
ghost use Rattle.std.specs.Prelude.{◌≡◌, ◌↔◌, ◌≢◌, ◌<◌, ◌≤◌, map, vec_len, ℕ, List, [], Some, OnOk, IfErr, IfSome, IsErrOf};
ghost use Rattle.std.specs.Io.KnownBytes.{Appends};
ghost use Rattle.comm_core.specs.Limits.{AreAllowed};
ghost use Rattle.comm_manager.specs.Names.{Named};
ghost use Rattle.comm_script.specs.Command.{HandsNothing};
ghost use Rattle.comm_script.specs.Stock.{AreIdle};

use crate::sequencer::Sequencer;
use crate::session::SharedSession;
use comm_core::{Limits, NewFault};
use comm_manager::{CountedHistory, Manager, ManagerBuilder, ManagerId, OpeningFault};
use comm_script::{RunFault, Stock, play_script};
use comm_targets::Target;
use comm_value::Numbers;
use std::alloc::Global;
use std::io::{Read, Write};
use std::marker::Brand;
use std::sync::Wait;

/// Plays the script that the reader has over a manager that threads share, each line as it ends.
///
/// What the lines of a chunk of 16 KiB say is written before the next chunk is read. A reader that was called
/// 4,294,967,295 times without ending gives Read, and so does one that fails; a call that was interrupted is made
/// again. With `Numbers::Any` a number that isn't whole is a value too, by its text. NoReader comes where a client has
/// no version to read. Whatever comes, each target that was registered is ended, after its comms, and the rest of the
/// stock is let go.
///
/// Its frame holds a chunk: it is kept out of its caller's.
#[inline(never)]
pub fn run_shared_with<I: Read, O: Write, T: Target, R: Wait>(
    rt: &R,
    alloc: Global,
    reader: &mut I,
    writer: &mut O,
    limits: Limits,
    numbers: Numbers,
    stock: Vec<T>,
) -> Result<(), RunFault>
    requires idle { AreIdle (map T.means stock.items) }
    ensures whole { OnOk result (IfSome (I.remaining reader.old) (λ _.
        I.remaining reader.new ≡ Some [])) }
    ensures grown { (said : List ℕ)
        × Appends (O.contents writer.old) (O.contents writer.new) said }
    ensures bad_limits { IsErrOf result RunFault.BadLimits ↔ ¬ (AreAllowed limits) }
    ensures unplayed { IsErrOf result RunFault.BadLimits
        → (reader.new ≡ reader.old) × (writer.new ≡ writer.old) }
{
    match ManagerBuilder::new(alloc, limits) {
        Ok(builder) => run_named::<Brand, I, O, T, R>(
            rt, alloc, reader, writer, builder, numbers, stock,
        ),
        Err(NewFault::BadLimits) => Err(RunFault::BadLimits),
        Err(NewFault::Memory) => Err(RunFault::Memory),
    }
}

/// Plays a script as [`run_shared_with`] does, over boxed targets, as kernels keep them, and with whole numbers
/// alone.
pub fn run_shared<I: Read, O: Write, R: Wait>(
    rt: &R,
    alloc: Global,
    reader: &mut I,
    writer: &mut O,
    limits: Limits,
    stock: Vec<Box<dyn Target>>,
) -> Result<(), RunFault>
    requires idle { AreIdle (map (λ b. means b) stock.items) }
    ensures whole { OnOk result (IfSome (I.remaining reader.old) (λ _.
        I.remaining reader.new ≡ Some [])) }
    ensures grown { (said : List ℕ)
        × Appends (O.contents writer.old) (O.contents writer.new) said }
    ensures bad_limits { IsErrOf result RunFault.BadLimits ↔ ¬ (AreAllowed limits) }
    ensures unplayed { IsErrOf result RunFault.BadLimits
        → (reader.new ≡ reader.old) × (writer.new ≡ writer.old) }
{
    run_shared_with(rt, alloc, reader, writer, limits, Numbers::Whole, stock)
}

// Plays the script over a manager that goes by these names. Nobody asks for its history.
fn run_named<M: ManagerId, I: Read, O: Write, T: Target, R: Wait>(
    rt: &R,
    alloc: Global,
    reader: &mut I,
    writer: &mut O,
    builder: ManagerBuilder,
    numbers: Numbers,
    stock: Vec<T>,
) -> Result<(), RunFault>
    requires named { Named builder M.book M.ledgers M.queue M.limits }
    requires allowed { AreAllowed builder.limits }
    requires idle { AreIdle (map T.means stock.items) }
    ensures whole { OnOk result (IfSome (I.remaining reader.old) (λ _.
        I.remaining reader.new ≡ Some [])) }
    ensures grown { (said : List ℕ)
        × Appends (O.contents writer.old) (O.contents writer.new) said }
    ensures fault { IfErr result (λ e. e ≢ RunFault.BadLimits) }
{
    match Manager::<M, T, CountedHistory>::open(rt, alloc, builder) {
        Ok((manager, clients, publisher)) => {
            let sequencer = Sequencer {
                stock: Stock::new(stock),
                last: None,
            };
            let mut session = SharedSession {
                clients,
                publisher,
                sequencer,
            };
            let played = play_over(rt, alloc, &manager, &mut session, numbers, reader, writer);
            drop(session);
            manager.discard(rt);
            played
        }
        Err(OpeningFault::Memory) => Err(RunFault::Memory),
        Err(OpeningFault::NoReader) => Err(RunFault::NoReader),
    }
}

// Plays the script in a session that has played nothing.
fn play_over<M: ManagerId, I: Read, O: Write, T: Target, R: Wait>(
    rt: &R,
    alloc: Global,
    manager: &Manager<M, T, CountedHistory>,
    session: &mut SharedSession<M, T>,
    numbers: Numbers,
    reader: &mut I,
    writer: &mut O,
) -> Result<(), RunFault>
    requires clients { (0 < vec_len session.old.clients) × (vec_len session.old.clients ≤ 4) }
    ensures whole { OnOk result (IfSome (I.remaining reader.old) (λ _.
        I.remaining reader.new ≡ Some [])) }
    ensures grown { (said : List ℕ)
        × Appends (O.contents writer.old) (O.contents writer.new) said }
    ensures fault { IfErr result (λ e. e ≢ RunFault.BadLimits) }
{
    let clients = session.clients.len() as u8;
    play_script(
        session,
        &|session, number, client, request, text|
            requires client { client < vec_len session.now.clients }
            requires handless { HandsNothing request }
        { session.execute(rt, manager, alloc, number, client, request, text) },
        alloc,
        clients,
        numbers,
        reader,
        writer,
    )
}
