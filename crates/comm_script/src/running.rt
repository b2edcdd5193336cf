//! A whole script over a manager of one thread, from its opening to its end.
ghost use Rattle.std.specs.Prelude.{◌≡◌, ◌↔◌, ◌<◌, ◌^◌, map, ◌≢◌, ℕ, List, [], Some, OnOk, IfErr, IfSome, IsErrOf};
ghost use Rattle.std.specs.Io.KnownBytes.{Appends};
ghost use Rattle.comm_core.specs.Limits.{AreAllowed};
ghost use Rattle.comm_script.specs.Command.{HandsNothing};
ghost use Rattle.comm_script.specs.Session.{IsSound};
ghost use Rattle.comm_script.specs.Stock.{AreIdle, shelved};
ghost use Rattle.comm_script.specs.Played.{played, Begins, Stops, Pauses};

use crate::fault::RunFault;
use crate::session::Session;
use crate::stream::play_script;
use comm_core::Limits;
use comm_targets::Target;
use comm_value::Numbers;
use std::alloc::Global;
use std::io::{Read, Write};

/// Plays the script that the reader has, each line as it ends, and writes what is said to it and nothing else.
///
/// What the lines of a chunk of 16 KiB say is written before the next chunk is read. A reader that was called
/// 4,294,967,295 times without ending gives Read, and so does one that fails; a call that was interrupted is made
/// again. Whatever comes, what was written is the beginning of what the script gives: after Read what the lines give
/// that were read whole, and after Memory what those give that were whole before the last chunk was read, so that no
/// answer is cut. With `Numbers::Any` a number that isn't whole is a value too, by its text. Each target that was
/// registered is ended, after its comms, and the rest of the stock is let go.
///
/// Its frame holds a chunk: it is kept out of its caller's.
#[inline(never)]
pub fn run_with<R: Read, W: Write, T: Target>(
    alloc: Global,
    reader: &mut R,
    writer: &mut W,
    limits: Limits,
    numbers: Numbers,
    stock: Vec<T>,
) -> Result<(), RunFault>
    requires idle { AreIdle (map T.means stock.items) }
    ensures played { OnOk result (IfSome (R.remaining reader.old) (λ input.
        Appends (W.contents writer.old) (W.contents writer.new)
        (played numbers limits (shelved (map T.means stock.items)) input))) }
    ensures begun { IfSome (R.remaining reader.old) (λ input.
        Begins (W.contents writer.old) (W.contents writer.new)
        (played numbers limits (shelved (map T.means stock.items)) input)) }
    ensures read { IsErrOf result RunFault.Read → IfSome (R.remaining reader.old) (λ input.
        Stops numbers limits (shelved (map T.means stock.items)) input
        (R.remaining reader.new) (W.contents writer.old) (W.contents writer.new)) }
    ensures memory { IsErrOf result RunFault.Memory → IfSome (R.remaining reader.old) (λ input.
        Pauses numbers limits (shelved (map T.means stock.items)) input
        (R.remaining reader.new) (W.contents writer.old) (W.contents writer.new)) }
    ensures whole { OnOk result (IfSome (R.remaining reader.old) (λ _.
        R.remaining reader.new ≡ Some [])) }
    ensures grown { (said : List ℕ)
        × Appends (W.contents writer.old) (W.contents writer.new) said }
    ensures bad_limits { IsErrOf result RunFault.BadLimits ↔ ¬ (AreAllowed limits) }
    ensures unplayed { IsErrOf result RunFault.BadLimits
        → (reader.new ≡ reader.old) × (writer.new ≡ writer.old) }
    ensures fault { IfErr result (λ e. e ≢ RunFault.NoReader) }
{
    match Session::new(alloc, limits, stock) {
        Ok(mut session) => {
            let played = play_script(
                &mut session,
                &|session, number, client, request, text|
                    requires client { client < 4 }
                    requires few { session.now.changes < 2 ^ 63 }
                    requires sound { IsSound session.now }
                    requires handless { HandsNothing request }
                { session.execute(alloc, number, client, request, text) },
                alloc,
                limits.clients,
                numbers,
                reader,
                writer,
            );
            session.end();
            played
        }
        Err(fault) => Err(fault),
    }
}

/// Plays a script as [`run_with`] does, over boxed targets, as kernels keep them, and with whole numbers alone.
pub fn run<R: Read, W: Write>(
    alloc: Global,
    reader: &mut R,
    writer: &mut W,
    limits: Limits,
    stock: Vec<Box<dyn Target>>,
) -> Result<(), RunFault>
    requires idle { AreIdle (map (λ b. means b) stock.items) }
    ensures played { OnOk result (IfSome (R.remaining reader.old) (λ input.
        Appends (W.contents writer.old) (W.contents writer.new)
        (played Numbers.Whole limits (shelved (map (λ b. means b) stock.items)) input))) }
    ensures begun { IfSome (R.remaining reader.old) (λ input.
        Begins (W.contents writer.old) (W.contents writer.new)
        (played Numbers.Whole limits (shelved (map (λ b. means b) stock.items)) input)) }
    ensures read { IsErrOf result RunFault.Read → IfSome (R.remaining reader.old) (λ input.
        Stops Numbers.Whole limits (shelved (map (λ b. means b) stock.items)) input
        (R.remaining reader.new) (W.contents writer.old) (W.contents writer.new)) }
    ensures memory { IsErrOf result RunFault.Memory → IfSome (R.remaining reader.old) (λ input.
        Pauses Numbers.Whole limits (shelved (map (λ b. means b) stock.items)) input
        (R.remaining reader.new) (W.contents writer.old) (W.contents writer.new)) }
    ensures whole { OnOk result (IfSome (R.remaining reader.old) (λ _.
        R.remaining reader.new ≡ Some [])) }
    ensures grown { (said : List ℕ)
        × Appends (W.contents writer.old) (W.contents writer.new) said }
    ensures bad_limits { IsErrOf result RunFault.BadLimits ↔ ¬ (AreAllowed limits) }
    ensures unplayed { IsErrOf result RunFault.BadLimits
        → (reader.new ≡ reader.old) × (writer.new ≡ writer.old) }
    ensures fault { IfErr result (λ e. e ≢ RunFault.NoReader) }
{
    run_with(alloc, reader, writer, limits, Numbers::Whole, stock)
}
