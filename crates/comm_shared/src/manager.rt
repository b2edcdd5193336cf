//! The manager of one thread with its history, which clients read.
ghost use Rattle.std.specs.Prelude.{◌≡◌, ◌↔◌, ◌+◌, ◌≤◌, [], length, replicate, IfErr, IfOk, IsErrOf, OnErr};
ghost use Rattle.comm_core.specs.History.{IsLegal, mine, replay};
ghost use Rattle.comm_core.specs.Limits.{IsCommsLimit};
ghost use Rattle.comm_core.specs.Ready.{HandsNothingIn, machine, register_of};
ghost use Rattle.comm_core.specs.Tables.{IdleWhere};
ghost use Rattle.comm_targets.specs.Meaning.{IsIdle};
ghost use Rattle.comm_shared.specs.SharedView.{IsMade, most_changes, seats};
ghost use Rattle.comm_shared.specs.declared.change.ChangeFault.TheVariants as change_fault;
ghost use Rattle.comm_shared.specs.declared.manager.OpenFault.TheVariants.{BadLimit};

use crate::change::{ChangeFault, MadeChange, change, register};
use crate::reader::SharedReader;
use crate::writer::SharedWriter;
use comm_core::{Call, Core, Finished, Reply};
use comm_messages::Outgoing;
use comm_targets::Target;
use comm_value::Text;
use comm_versions::RawFront;
use std::alloc::{AllocError, Global};
use std::marker::Model;

/// Why there is no manager.
#[derive(Clone, Copy, Debug, PartialEq, Eq)]
pub enum OpenFault {
    /// Memory ran out.
    Memory,
    /// The number of comms that may be open isn't from 1 to 1,048,576.
    BadLimit,
}

/// A change that was made: its place in the history, from 1, its number among those of its seat, its reply, what goes
/// out, and whether readers see it already.
#[derive(Drop)]
pub struct SharedChange {
    pub number: u64,
    pub call: u64,
    pub reply: Reply,
    pub outgoing: Vec<Outgoing>,
    pub is_shown: bool,
}

/// The manager. Contracts see its history. It can't be dropped: `end` ends it, and so each target ends after its comms.
pub struct SharedManager<T: Target> {
    alloc: Global,
    core: Core<T>,
    // How many changes each seat made.
    made: Vec<u64>,
    writer: SharedWriter,
}

impl<T: Target> Model for SharedManager<T> {
    ghost use Rattle.comm_versions.specs.Code.{known_code};
    ghost use Rattle.comm_versions.specs.Known.{Known};
    ghost use Rattle.comm_shared.specs.Between.{Stands};

    ghost Value = { Known };

    ghost coded = { known_code };

    ghost view = { λ m. m.writer };

    ghost invariant = { λ m. Stands m.writer m.core m.made.items };
}

// Ends a target that the change took out, if it did.
fn conclude<T: Target>(made: MadeChange<T>, number: u64) -> SharedChange
    requires { IdleWhere made.finished.ended }
    ensures number { result.number ≡ number }
    ensures call { result.call ≡ made.call }
    ensures reply { result.reply ≡ made.finished.reply }
    ensures outgoing { result.outgoing ≡ made.finished.outgoing }
{
    let MadeChange {
        call,
        is_shown,
        finished,
    } = made;
    let Finished {
        reply,
        outgoing,
        ended,
    } = finished;
    if let Some(held) = ended {
        held.end();
    }
    SharedChange {
        number,
        call,
        reply,
        outgoing,
        is_shown,
    }
}

// An empty history of so many comms at a time, and how many changes each seat made: none. Err: memory.
fn history_of(alloc: Global, comms: usize) -> Result<(Vec<u64>, SharedWriter), AllocError>
    ensures made { IfOk result (λ r. r.0.items ≡ replicate seats 0) }
    ensures entries { IfOk result (λ r. r.1.entries ≡ []) }
    ensures clients { IfOk result (λ r. r.1.origin.clients ≡ seats) }
    ensures limit { IfOk result (λ r. r.1.origin.limit ≡ comms) }
{
    let made = vec![in alloc; 0u64; 256]?;
    let writer = SharedWriter::new(alloc, 256, comms)?;
    Ok((made, writer))
}

impl<T: Target> SharedManager<T> {
    /// A manager with no history, of which at most `comms` comms are open at a time. BadLimit exactly where `comms` is
    /// out of its bounds; this is tested first.
    pub fn new(alloc: Global, comms: usize) -> Result<SharedManager<T>, OpenFault>
        ensures entries { IfOk result (λ m. m.entries ≡ []) }
        ensures limit { IfOk result (λ m. m.origin.limit ≡ comms) }
        ensures clients { IfOk result (λ m. m.origin.clients ≡ seats) }
        ensures bad_limit { IsErrOf result BadLimit ↔ ¬ (IsCommsLimit comms) }
    {
        let Ok(core) = Core::with_comms_limit(alloc, comms) else {
            return Err(OpenFault::BadLimit);
        };
        match history_of(alloc, comms) {
            Ok((made, writer)) => Ok(SharedManager {
                alloc,
                core,
                made,
                writer,
            }),
            Err(_) => {
                core.stop_all();
                Err(OpenFault::Memory)
            }
        }
    }

    /// Makes a change of a seat that hands no target in: the last entry of the history is this call, this seat, its next
    /// number, and this reply. Err: nothing has changed.
    pub(crate) fn change(&mut self, seat: u8, call: Call) -> Result<SharedChange, ChangeFault>
        requires call { HandsNothingIn call }
        ensures origin { self.new.origin ≡ self.old.origin }
        ensures next { IfOk result (λ m. IsMade self.old.entries self.new.entries seat
            (length (mine self.old.entries seat) + 1) call m.reply m.outgoing.items) }
        ensures number { IfOk result (λ m. m.number ≡ length self.new.entries) }
        ensures call { IfOk result (λ m. m.call ≡ length (mine self.old.entries seat) + 1) }
        ensures err { OnErr result (self.new ≡ self.old) }
        ensures full { IsErrOf result change_fault.Full → length self.old.entries ≡ most_changes }
    {
        let made = change(
            self.alloc,
            &mut self.core,
            &mut self.made,
            &mut self.writer,
            seat,
            call,
        )?;
        Ok(conclude(made, self.writer.len()))
    }

    /// Registers a target, as a change. Err: nothing has changed, and the target comes back.
    pub(crate) fn register(
        &mut self,
        seat: u8,
        name: Text,
        target: T,
    ) -> Result<SharedChange, (ChangeFault, T)>
        requires idle { IsIdle (T.means target) }
        ensures origin { self.new.origin ≡ self.old.origin }
        ensures next { IfOk result (λ m. IsMade self.old.entries self.new.entries seat
            (length (mine self.old.entries seat) + 1)
            (register_of name (T.means target)) m.reply m.outgoing.items) }
        ensures number { IfOk result (λ m. m.number ≡ length self.new.entries) }
        ensures call { IfOk result (λ m. m.call ≡ length (mine self.old.entries seat) + 1) }
        ensures err { OnErr result (self.new ≡ self.old) }
        ensures back { IfErr result (λ e. T.means e.1 ≡ T.means target) }
        ensures full { IfErr result (λ e.
            e.0 ≡ change_fault.Full → length self.old.entries ≡ most_changes) }
    {
        let made = register(
            self.alloc,
            &mut self.core,
            &mut self.made,
            &mut self.writer,
            seat,
            name,
            target,
        )?;
        Ok(conclude(made, self.writer.len()))
    }

    /// Ends it: closes its comms, then stops its targets. Readers go on reading what was shown last.
    pub fn end(self) {
        let Self {
            alloc: _,
            core,
            made: _,
            writer: _writer,
        } = self;
        core.stop_all();
    }

    /// The tables after the history.
    pub fn core(&self) -> &Core<T>
        ensures machine { machine result.now ≡ replay self.now.origin.limit self.now.entries }
        ensures limit { result.now.limit ≡ self.now.origin.limit }
    {
        &self.core
    }

    /// The history.
    pub fn front(&self) -> RawFront
        ensures front { result ≡ self.now }
        ensures legal { IsLegal self.now.origin.clients self.now.origin.limit self.now.entries }
        ensures clients { self.now.origin.clients ≡ seats }
        ensures few { length self.now.entries ≤ most_changes }
    {
        self.writer.front()
    }

    /// How many changes a seat made.
    pub fn count_of(&self, seat: u8) -> u64
        ensures { result ≡ length (mine self.now.entries seat) }
    {
        self.made[seat as usize]
    }

    /// Shows readers the last change, where no slot was free for it, and says whether they see it.
    pub fn show_waiting(&mut self) -> bool
        ensures { self.new ≡ self.old }
    {
        self.writer.show_waiting()
    }

    /// A reader that has seen the whole history. Err: memory.
    pub fn reader(&self) -> Result<SharedReader, AllocError>
        ensures { IfOk result (λ r. r ≡ self.now) }
    {
        self.writer.reader()
    }
}
