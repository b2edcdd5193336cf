//! One change of a core whose history others read.
ghost use Rattle.std.specs.Prelude.{◌≡◌, ◌+◌, ◌<◌, ◌++◌, ◌∷◌, [], length, IfOk, IfErr, IsErrOf, OnErr, OnOk, option_map};
ghost use Rattle.std.specs.Prelude.{slice_index};
ghost use Rattle.comm_core.specs.History.{mine};
ghost use Rattle.comm_core.specs.Ready.{HandsNothingIn, IsReady, machine, register_of, undone};
ghost use Rattle.comm_core.specs.Tables.{IdleWhere};
ghost use Rattle.comm_targets.specs.Meaning.{IsIdle};
ghost use Rattle.comm_shared.specs.Between.{Stands};
ghost use Rattle.comm_shared.specs.SharedView.{IsMade, most_changes};
ghost use Rattle.comm_shared.specs.declared.change.ChangeFault.TheVariants.{Full};

use crate::writer::SharedWriter;
use comm_core::{
    Call, Core, Finished, Ready, legal_histories_grow, replays_grow, rows_are_what_entries_change,
};
use comm_targets::Target;
use comm_value::Text;
use comm_versions::EntrySource;
use std::alloc::Global;

/// Why a change wasn't made. All is as it was.
#[derive(Clone, Copy, Debug, PartialEq, Eq)]
pub enum ChangeFault {
    /// Memory ran out.
    Memory,
    /// The history has as many entries as it may have, 2^62.
    Full,
    /// The client has seen more than the history, or its seat made a change of which it doesn't know. It can't be while
    /// each client is used with its own manager and has a seat of its own.
    Stranger,
}

/// How many changes may be made.
pub const MAX_CHANGES: u64 = 4_611_686_018_427_387_904;

/// A change that was made, by its number among those of its seat, and whether readers see it already.
pub struct MadeChange<T: Target> {
    pub call: u64,
    pub is_shown: bool,
    pub finished: Finished<T>,
}

// The entry of a change that stands ready, by its seat and its number. None is made.
#[derive(Drop)]
struct ReadyEntry<'a, T: Target> {
    seat: u8,
    call: u64,
    ready: &'a Ready<T>,
}

impl<'a, T: Target> EntrySource for ReadyEntry<'a, T> {
    ghost use Rattle.comm_versions.specs.Asked.{ready_entry};

    ghost entry = { λ e. ready_entry e.seat e.call e.ready.now };
}

// Appends the entry of what stands ready, then makes the change. Err: memory; it is taken back, and a target that was
// handed in comes back.
fn carry_out<T: Target>(
    alloc: Global,
    core: &mut Core<T>,
    made: &mut [u64],
    writer: &mut SharedWriter,
    seat: u8,
    ready: Ready<T>,
) -> Result<MadeChange<T>, Option<T>>
    requires kept { Stands writer.old (undone core.old) made.old }
    requires same { machine core.old ≡ machine (undone core.old) }
    requires ready { IsReady core.old ready }
    requires room { length writer.old.entries < most_changes }
    ensures kept { OnOk result (Stands writer.new core.new made.new) }
    ensures origin { writer.new.origin ≡ writer.old.origin }
    ensures next { IfOk result (λ m. IsMade writer.old.entries writer.new.entries seat
        (length (mine writer.old.entries seat) + 1) ready.call
        m.finished.reply m.finished.outgoing.items) }
    ensures call { IfOk result (λ m. m.call ≡ length (mine writer.old.entries seat) + 1) }
    ensures idle { IfOk result (λ m. IdleWhere m.finished.ended) }
    ensures back { IfErr result (λ t. option_map T.means t ≡ ready.registered) }
    ensures err { OnErr result (Stands writer.new core.new made.new) }
    ensures same { OnErr result (writer.new ≡ writer.old) }
{
    replays_grow();
    legal_histories_grow();
    rows_are_what_entries_change();
    let Ok(row) = ready.row(alloc) else {
        return Err(core.withdraw(ready));
    };
    let call = made[seat as usize] + 1;
    let source = ReadyEntry {
        seat,
        call,
        ready: &ready,
    };
    match writer.append(row, &source) {
        Ok(is_shown) => {
            let finished = core.finish(ready);
            made[seat as usize] = call;
            Ok(MadeChange {
                call,
                is_shown,
                finished,
            })
        }
        Err(_) => Err(core.withdraw(ready)),
    }
}

/// Makes a change that hands no target in. Err: it wasn't made.
pub fn change<T: Target>(
    alloc: Global,
    core: &mut Core<T>,
    made: &mut [u64],
    writer: &mut SharedWriter,
    seat: u8,
    call: Call,
) -> Result<MadeChange<T>, ChangeFault>
    requires kept { Stands writer.old core.old made.old }
    requires call { HandsNothingIn call }
    ensures kept { Stands writer.new core.new made.new }
    ensures origin { writer.new.origin ≡ writer.old.origin }
    ensures next { IfOk result (λ m. IsMade writer.old.entries writer.new.entries seat
        (length (mine writer.old.entries seat) + 1) call
        m.finished.reply m.finished.outgoing.items) }
    ensures call { IfOk result (λ m. m.call ≡ length (mine writer.old.entries seat) + 1) }
    ensures idle { IfOk result (λ m. IdleWhere m.finished.ended) }
    ensures same { OnErr result (writer.new ≡ writer.old) }
    ensures full { IsErrOf result Full → length writer.old.entries ≡ most_changes }
{
    if writer.len() >= MAX_CHANGES {
        drop(call);
        return Err(ChangeFault::Full);
    }
    let Ok(ready) = core.begin(call) else {
        return Err(ChangeFault::Memory);
    };
    match carry_out(alloc, core, made, writer, seat, ready) {
        Ok(made) => Ok(made),
        Err(_none) => Err(ChangeFault::Memory),
    }
}

/// Registers a target, as `change` makes a change. Err: it wasn't, and the target comes back.
pub fn register<T: Target>(
    alloc: Global,
    core: &mut Core<T>,
    made: &mut [u64],
    writer: &mut SharedWriter,
    seat: u8,
    name: Text,
    target: T,
) -> Result<MadeChange<T>, (ChangeFault, T)>
    requires kept { Stands writer.old core.old made.old }
    requires idle { IsIdle (T.means target) }
    ensures kept { Stands writer.new core.new made.new }
    ensures origin { writer.new.origin ≡ writer.old.origin }
    ensures next { IfOk result (λ m. IsMade writer.old.entries writer.new.entries seat
        (length (mine writer.old.entries seat) + 1) (register_of name (T.means target))
        m.finished.reply m.finished.outgoing.items) }
    ensures call { IfOk result (λ m. m.call ≡ length (mine writer.old.entries seat) + 1) }
    ensures idle { IfOk result (λ m. IdleWhere m.finished.ended) }
    ensures same { OnErr result (writer.new ≡ writer.old) }
    ensures back { IfErr result (λ e. T.means e.1 ≡ T.means target) }
    ensures full { IfErr result (λ e. e.0 ≡ Full → length writer.old.entries ≡ most_changes) }
{
    if writer.len() >= MAX_CHANGES {
        drop(name);
        return Err((ChangeFault::Full, target));
    }
    let ready = match core.begin_register(name, target) {
        Ok(ready) => ready,
        Err((_, target)) => return Err((ChangeFault::Memory, target)),
    };
    match carry_out(alloc, core, made, writer, seat, ready) {
        Ok(made) => Ok(made),
        Err(Some(target)) => Err((ChangeFault::Memory, target)),
        Err(None) => unreachable!(),
    }
}
