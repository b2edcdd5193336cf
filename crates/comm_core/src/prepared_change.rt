//! A change between `prepare` and `commit`.
ghost use Rattle.std.specs.Prelude.{◌≡◌};

use crate::call::Call;
use crate::kept_answer::KeptAnswer;
use crate::reply::Reply;
use crate::table_update::TableUpdate;
use comm_messages::Outgoing;
use comm_targets::{Held, Target, TargetFault};
use std::marker::Model;
use std::snapshot::Snapshot;

/// A change that stands ready, for which no memory has to be taken any more.
///
/// [`Core::prepare`](crate::Core::prepare) gives it, or [`Ready::into_parts`]. It has spent its call: contracts alone
/// see that one, and what it had in it is in the update of the table, or goes out. It can't be dropped:
/// `Core::commit` or `Core::abort` takes it.
#[must_use]
pub struct PreparedChange<T: Target> {
    pub(crate) call: Snapshot<Call>,
    pub(crate) outcome: Option<Result<KeptAnswer, TargetFault>>,
    pub(crate) reply: Reply,
    pub(crate) outgoing: Vec<Outgoing>,
    pub(crate) table_update: TableUpdate,
    // The target that a register handed in.
    pub(crate) registered: Option<T>,
}

impl<T: Target> Model for PreparedChange<T> {
    ghost use Rattle.std.specs.Prelude.{option_map};
    ghost use Rattle.comm_core.specs.Ready.{Readied, readied};
    ghost use Rattle.comm_core.specs.ReadyCode.{readied_code};
    ghost use Rattle.comm_core.specs.Told.{IsTold};

    ghost Value = { Readied };

    ghost coded = { readied_code };

    ghost view = { λ p. readied p.call.value p.outcome p.reply p.outgoing.items p.table_update
        (option_map T.means p.registered) };

    ghost invariant = { λ p. IsTold p.outcome p.outgoing.items };
}

/// A prepared change with its call, which the caller keeps, as for an entry of a history.
///
/// `Core::begin` and `Core::begin_register` give it, `Core::finish` or `Core::withdraw` takes it.
#[must_use]
pub struct Ready<T: Target> {
    pub(crate) call: Call,
    pub(crate) prepared: PreparedChange<T>,
}

impl<T: Target> Model for Ready<T> {
    ghost use Rattle.std.specs.Prelude.{◌≡◌};
    ghost use Rattle.comm_core.specs.Ready.{Readied};
    ghost use Rattle.comm_core.specs.ReadyCode.{readied_code};

    ghost Value = { Readied };

    ghost coded = { readied_code };

    ghost view = { λ r. r.prepared };

    ghost invariant = { λ r. r.call ≡ r.prepared.call };
}

/// What a change gives.
#[must_use]
pub struct Finished<T: Target> {
    pub reply: Reply,
    /// What goes out, in its order.
    pub outgoing: Vec<Outgoing>,
    /// A target that the call took out or replaced. Its comms are closed; it has to be ended.
    pub ended: Option<Held<T>>,
}

impl<T: Target> PreparedChange<T> {
    /// What the call comes to.
    pub fn reply(&self) -> &Reply
        ensures { result.now ≡ self.now.reply }
    {
        &self.reply
    }

    /// The messages that go out, in their order.
    pub fn outgoing(&self) -> &[Outgoing]
        ensures { result.now ≡ self.now.outgoing }
    {
        self.outgoing.as_slice()
    }
}

impl<T: Target> Ready<T> {
    /// What the call comes to.
    pub fn reply(&self) -> &Reply
        ensures { result.now ≡ self.now.reply }
    {
        self.prepared.reply()
    }

    /// The messages that go out, in their order.
    pub fn outgoing(&self) -> &[Outgoing]
        ensures { result.now ≡ self.now.outgoing }
    {
        self.prepared.outgoing()
    }

    /// The call, and the change without it.
    pub fn into_parts(self) -> (Call, PreparedChange<T>)
        ensures call { result.0 ≡ self.call }
        ensures prepared { result.1 ≡ self }
    {
        let Ready { call, prepared } = self;
        (call, prepared)
    }
}
