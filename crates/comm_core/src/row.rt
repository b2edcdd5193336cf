//! What a change does to the comms that readers see.
ghost use Rattle.std.specs.Prelude.{◌≡◌, IfOk};
ghost use Rattle.comm_core.specs.Planned.{answered_row, done_row, updated_row};
ghost use Rattle.comm_core.specs.Ready.{CoreValue, IsReady, row_at};
ghost use Rattle.comm_core.specs.Row.{closed_row, ended_row, put_row, stated_row};

use crate::call::Call;
use crate::ids::Ids;
use crate::kept_answer::KeptAnswer;
use crate::prepared_change::{PreparedChange, Ready};
use crate::reply::Reply;
use crate::staged_request::StagedRequest;
use crate::table_update::TableUpdate;
use comm_targets::{Target, TargetFault};
use comm_value::{Dict, Text};
use std::alloc::{AllocError, Global};
use std::marker::Model;
use std::sync::Arc;

/// What copies of an open comm share.
#[derive(Drop)]
pub struct Opened {
    id: Text,
    target: Text,
    state: Option<Dict>,
}

/// An open comm with its id. Copies share it.
#[derive(Drop)]
pub struct OpenComm {
    shared: Arc<Opened, Global>,
}

impl Model for OpenComm {
    ghost use Rattle.std.specs.Arc.{arc_value};
    ghost use Rattle.comm_core.specs.Code.{open_code};
    ghost use Rattle.comm_core.specs.Machine.{Name};
    ghost use Rattle.comm_core.specs.declared.comm.Comm.{Comm};

    ghost Value = { Name × Comm };

    ghost coded = { open_code };

    ghost view = { λ o. (
      (arc_value o.shared).id,
      record { target = (arc_value o.shared).target; state = (arc_value o.shared).state },
    ) };
}

impl OpenComm {
    /// An open comm of these parts. Err: memory.
    pub fn new(
        alloc: Global,
        id: Text,
        target: Text,
        state: Option<Dict>,
    ) -> Result<OpenComm, AllocError>
        ensures { IfOk result (λ o. o ≡ (id, record { target = target; state = state })) }
    {
        let shared = Arc::new(alloc, Opened { id, target, state })?;
        Ok(OpenComm { shared })
    }

    /// A copy, which shares the comm and takes no memory. Err: it can't be shared once more.
    pub fn copy(&self) -> Result<OpenComm, AllocError>
        ensures { IfOk result (λ o. o ≡ self.now) }
    {
        Ok(OpenComm {
            shared: Arc::try_clone(&self.shared)?,
        })
    }

    /// Its id.
    pub fn id(&self) -> &Text
        ensures { result.now ≡ self.now.0 }
    {
        &self.shared.id
    }

    /// The name of its target.
    pub fn target(&self) -> &Text
        ensures { result.now ≡ self.now.1.target }
    {
        &self.shared.target
    }

    /// Its state, if it has one.
    pub fn state(&self) -> &Option<Dict>
        ensures { result.now ≡ self.now.1.state }
    {
        &self.shared.state
    }
}

/// What an entry changes in the comms that readers see.
#[derive(Drop)]
pub enum Row {
    /// Nothing.
    Same,
    /// This comm is opened, or has another state.
    Put(OpenComm),
    /// The comms of these ids are closed.
    Out(Ids),
    /// No comm is open any more.
    Clear,
}

// This comm, with this state.
fn put_row(alloc: Global, id: &Text, target: &Text, state: &Option<Dict>) -> Result<Row, AllocError>
    ensures { IfOk result (λ r. r ≡ put_row id.now target.now state.now) }
{
    let state = match state {
        Some(state) => Some(state.copy()?),
        None => None,
    };
    let comm = OpenComm::new(alloc, id.copy()?, target.copy()?, state)?;
    Ok(Row::Put(comm))
}

// What an answer changes, of a target that was asked this.
fn answered_row(
    alloc: Global,
    request: &StagedRequest,
    answer: &KeptAnswer,
) -> Result<Row, AllocError>
    ensures { IfOk result (λ r. r ≡ answered_row request.now.name request.now.event answer.now) }
{
    if request.opens {
        put_row(alloc, &request.id, &request.name, &answer.state)
    } else {
        stated_row(alloc, &request.id, &request.name, &answer.state)
    }
}

fn stated_row(
    alloc: Global,
    id: &Text,
    target: &Text,
    state: &Option<Dict>,
) -> Result<Row, AllocError>
    ensures { IfOk result (λ r. r ≡ stated_row id.now target.now state.now) }
{
    if state.is_none() {
        return Ok(Row::Same);
    }
    put_row(alloc, id, target, state)
}

fn closed_row(alloc: Global, id: &Text, reply: &Reply) -> Result<Row, AllocError>
    ensures { IfOk result (λ r. r ≡ closed_row id.now reply.now) }
{
    match reply {
        Reply::Closed => {
            let id = id.copy()?;
            Ok(Row::Out(Ids::one(alloc, id)))
        }
        _ => Ok(Row::Same),
    }
}

// The comms of a target that is taken out or replaced.
fn ended_row(alloc: Global, reply: &Reply) -> Result<Row, AllocError>
    ensures { IfOk result (λ r. r ≡ ended_row reply.now) }
{
    match reply {
        Reply::Unregistered(ids) => Ok(Row::Out(ids.copy(alloc)?)),
        Reply::Replaced(ids) => Ok(Row::Out(ids.copy(alloc)?)),
        _ => Ok(Row::Same),
    }
}

// What a call changes that asks no target.
fn done_row(alloc: Global, call: &Call, reply: &Reply) -> Result<Row, AllocError>
    ensures { IfOk result (λ r. r ≡ done_row call.now reply.now) }
{
    match call {
        Call::Close { id } => closed_row(alloc, id, reply),
        Call::HangUp { id } => closed_row(alloc, id, reply),
        Call::Unregister { .. } => ended_row(alloc, reply),
        Call::Register { .. } => ended_row(alloc, reply),
        _ => Ok(Row::Same),
    }
}

/// What a change does to the comms that readers see, by its update of the tables.
pub fn updated_row(
    alloc: Global,
    table_update: &TableUpdate,
    outcome: &Option<Result<KeptAnswer, TargetFault>>,
    call: &Call,
    reply: &Reply,
) -> Result<Row, AllocError>
    ensures { IfOk result (λ r. r ≡ updated_row table_update.now outcome.now call.now reply.now) }
{
    if let TableUpdate::Commit(request) = table_update {
        if let Some(Ok(answer)) = outcome {
            return answered_row(alloc, request, answer);
        }
    }
    done_row(alloc, call, reply)
}

impl<T: Target> Ready<T> {
    /// What this change does to the comms that readers see. What a row carries is shared. Err: memory.
    pub fn row(&self, alloc: Global) -> Result<Row, AllocError>
        ensures { (s : CoreValue) → IsReady s self.now → IfOk result (λ r. r ≡ row_at s self.now) }
    {
        self.prepared.row(alloc, &self.call)
    }
}

impl<T: Target> PreparedChange<T> {
    /// What this change does to the comms that readers see, as `Ready::row`; `call` is the copy that the caller kept.
    /// What a row carries is shared. Err: memory.
    pub fn row(&self, alloc: Global, call: &Call) -> Result<Row, AllocError>
        ensures { (s : CoreValue) → IsReady s self.now → call.now ≡ self.now.call
            → IfOk result (λ r. r ≡ row_at s self.now) }
    {
        updated_row(alloc, &self.table_update, &self.outcome, call, &self.reply)
    }
}
