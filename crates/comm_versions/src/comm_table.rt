//! The table of open comms after a front, which readers share.
ghost use Rattle.std.specs.Prelude.{◌≡◌, ◌++◌, [], false, IfOk, OnOk, map, filter, option_map};
ghost use Rattle.comm_core.specs.Machine.{at};
ghost use Rattle.comm_core.specs.Reads.{info_of, passes, state_at, state_in};
ghost use Rattle.comm_core.specs.Row.{with_row};
ghost use Rattle.comm_versions.specs.Listing.{ListAlike};
ghost use Rattle.comm_versions.specs.Chunks.{comms_in};

use crate::changing::apply_row;
use crate::chunks::share_chunks;
use crate::position::{Position, find_position};
use crate::prefixed_comm::PrefixedComm;
use crate::row_effect::{RowEffect, first_position, put_effect};
use crate::search::CommChunk;
use comm_core::{OpenComm, Row, StateAnswer};
use comm_messages::{Info, Infos};
use comm_value::{Dict, Text};
use std::alloc::{AllocError, Global};
use std::marker::Model;

/// The open comms in the byte order of their ids, each with its target and its state. A table that is shared doesn't
/// change: a copy shares the chunks that stay.
#[derive(Drop)]
pub struct CommTable {
    chunks: Vec<CommChunk>,
}

impl Model for CommTable {
    ghost use Rattle.comm_core.specs.Tables.{Opens};
    ghost use Rattle.comm_versions.specs.Code.{opens_code};
    ghost use Rattle.comm_versions.specs.Chunks.{AllChunksFilled, IsInOrder, comms_in};

    ghost Value = { Opens };

    ghost coded = { opens_code };

    ghost view = { λ r. comms_in r.chunks.items };

    ghost invariant = { λ r. AllChunksFilled r.chunks.items × IsInOrder (comms_in r.chunks.items) };
}

// The answer of a read of this state.
fn answer(state: &Option<Dict>) -> Result<StateAnswer, AllocError>
    ensures { IfOk result (λ s. s ≡ state_in state.now) }
{
    match state {
        Some(state) => Ok(StateAnswer::State(state.copy()?)),
        None => Ok(StateAnswer::NoState),
    }
}

// Whether the filter lets this target through.
fn is_asked(asked: Option<&Text>, target: &Text) -> bool
    ensures { result ≡ passes (option_map (λ t. t.now) asked.entry) target.now }
{
    match asked {
        Some(name) => name == target,
        None => true,
    }
}

// Appends those of these comms that the filter lets through. Their strings are shared.
fn list_all(
    comms: &[PrefixedComm],
    asked: Option<&Text>,
    all: &mut Vec<Info>,
) -> Result<(), AllocError>
    ensures { OnOk result
        (all.new.items ≡ all.old.items ++ map info_of (filter
        (λ e. passes (option_map (λ t. t.now) asked.entry) e.1.target) comms.now)) }
{
    for prefixed_comm in comms {
        let open = prefixed_comm.comm();
        let target = open.target();
        if is_asked(asked, target) {
            let id = open.id().copy()?;
            let target = target.copy()?;
            all.push(Info { id, target })?;
        }
    }
    Ok(())
}

// Appends the comms of all chunks that the filter lets through.
fn list_chunks(
    chunks: &[CommChunk],
    asked: Option<&Text>,
    all: &mut Vec<Info>,
) -> Result<(), AllocError>
    ensures { OnOk result
        (all.new.items ≡ all.old.items ++ map info_of (filter
        (λ e. passes (option_map (λ t. t.now) asked.entry) e.1.target) (comms_in chunks.now))) }
{
    for chunk in chunks {
        list_all(chunk.as_slice(), asked, all)?;
    }
    Ok(())
}

impl CommTable {
    /// The table without comms. It takes no memory.
    pub fn new(alloc: Global) -> CommTable
        ensures { result ≡ [] }
    {
        CommTable {
            chunks: Vec::new(alloc),
        }
    }

    /// Applies the row. Chunks that aren't shared are changed in place. The hint says where the row changes the
    /// table, if it holds. After an Err (memory) the table is of no use.
    #[inline(always)]
    pub fn change(
        &mut self,
        alloc: Global,
        row: &Row,
        hint: &Option<Position>,
    ) -> Result<(), AllocError>
        ensures { OnOk result (self.new ≡ with_row row.now self.old) }
    {
        match apply_row(alloc, &mut self.chunks, row, hint) {
            Ok(()) => Ok(()),
            Err(fault) => {
                self.chunks = Vec::new(alloc);
                Err(fault)
            }
        }
    }

    /// A copy that shares the chunks: it costs a pointer for each. Err: memory.
    pub fn copy(&self, alloc: Global) -> Result<CommTable, AllocError>
        ensures { IfOk result (λ r. r ≡ self.now) }
    {
        let chunks = share_chunks(alloc, self.chunks.as_slice())?;
        Ok(CommTable { chunks })
    }

    // The comm of this id: two binary searches.
    fn get(&self, id: &Text) -> Option<&OpenComm>
        ensures { option_map (λ c. c.now.1) result ≡ at self.now id.now }
    {
        let position = find_position(self.chunks.as_slice(), id)?;
        match position.at {
            Ok(i) => Some(self.chunks[position.chunk][i].comm()),
            Err(_) => None,
        }
    }

    /// What the row changes in this table: where, and whether other comms may be listed after it.
    pub fn effect_of(&self, row: &Row) -> RowEffect
        ensures { result.changes_listing ≡ false → ListAlike self.now (with_row row.now self.now) }
    {
        let chunks = self.chunks.as_slice();
        match row {
            Row::Same => RowEffect::without_position(false),
            Row::Put(comm) => put_effect(chunks, comm),
            Row::Out(ids) => RowEffect {
                position: first_position(chunks, ids.as_slice()),
                changes_listing: true,
            },
            Row::Clear => RowEffect::without_position(true),
        }
    }

    /// The state of a comm, shared. Err: memory.
    pub fn state(&self, id: &Text) -> Result<StateAnswer, AllocError>
        ensures { IfOk result (λ s. s ≡ state_at (at self.now id.now)) }
    {
        match self.get(id) {
            Some(open) => answer(open.state()),
            None => Ok(StateAnswer::NoComm),
        }
    }

    /// The name of the target of an open comm; None where no comm has the id.
    pub fn target(&self, id: &Text) -> Option<&Text>
        ensures { option_map (λ t. t.now) result
            ≡ option_map (λ c. c.target) (at self.now id.now) }
    {
        match self.get(id) {
            Some(open) => Some(open.target()),
            None => None,
        }
    }

    /// The open comms with the names of their targets, in the byte order of the ids: all, or those of one target. The
    /// strings are shared. Err: memory.
    pub fn infos(&self, alloc: Global, asked: Option<&Text>) -> Result<Infos, AllocError>
        ensures { IfOk result (λ v.
            v ≡ map info_of (filter
            (λ e. passes (option_map (λ t. t.now) asked.entry) e.1.target) self.now)) }
    {
        let mut all = Vec::new(alloc);
        list_chunks(self.chunks.as_slice(), asked, &mut all)?;
        Infos::new(alloc, all)
    }
}
