//! The open comms by id.
ghost use Rattle.std.specs.Prelude.{◌≡◌, ◌<◌, ◌≤◌, ◌++◌, true, [], ◌∷◌, not, IfOk, OnOk, IsSome, Option};
ghost use Rattle.std.specs.Prelude.{None, Some, option_map, length, nat_le};
ghost use Rattle.std.specs.Str.{bytes_eq};
ghost use Rattle.comm_targets.specs.Meaning.{Meaning, IsIdle};
ghost use Rattle.comm_core.specs.Machine.{at, has, without, with_at, ids_of, others};
ghost use Rattle.comm_core.specs.Reads.{in_order};
ghost use Rattle.comm_core.specs.Kept.{listing, pairs_of};
ghost use Rattle.comm_core.specs.Tables.{emptied};
ghost use Rattle.comm_core.specs.declared.comm.Comm.{Comm};

use crate::comm::Comm;
use crate::ids::Ids;
use crate::infos::infos_of;
use comm_messages::Infos;
use comm_targets::{Held, Target};
use comm_value::{Dict, Text};
use ordered_table::Table;
use std::alloc::{AllocError, Global};
use std::collections::BTreeMap;
use std::marker::Model;

/// The open comms in the order of opening, by their ids.
#[derive(Drop)]
pub struct Comms {
    all: Table<Text, Comm>,
    // The whole listing, from when it is asked for until a comm is opened or closed.
    kept: Option<Infos>,
}

impl Model for Comms {
    ghost use Rattle.ordered_table.specs.Table.{entries};
    ghost use Rattle.comm_core.specs.Tables.{Table};
    ghost use Rattle.comm_core.specs.declared.comm.Comm.{Comm};
    ghost use Rattle.comm_core.specs.Code.{comms_code};
    ghost use Rattle.comm_core.specs.Kept.{IsCurrent};

    ghost Value = { Table Comm };

    ghost coded = { comms_code };

    ghost view = { λ c. record { all = entries c.all; room = c.all.room } };

    ghost invariant = { λ c. IsCurrent c.kept (entries c.all) };
}

impl Comms {
    /// No comm is open.
    pub fn new(alloc: Global) -> Comms
        ensures { result.all ≡ [] }
    {
        Comms {
            all: Table::new(alloc),
            kept: None,
        }
    }

    /// Makes room for one more. Err: memory.
    pub fn reserve(&mut self) -> Result<(), AllocError>
        ensures all { self.new.all ≡ self.old.all }
        ensures room { OnOk result (0 < self.new.room) }
    {
        self.all.reserve()
    }

    /// Whether as many comms are open as the limit allows.
    pub fn is_full(&self, limit: usize) -> bool
        ensures { result ≡ nat_le limit (length self.now.all) }
    {
        limit <= self.all.len()
    }

    /// Whether a comm has the id.
    pub fn contains(&self, id: &Text) -> bool
        ensures { result ≡ has self.now.all id.now }
    {
        self.all.contains(id)
    }

    /// The comm of this id.
    pub fn get(&self, id: &Text) -> Option<&Comm>
        ensures { option_map (λ c. c.now) result ≡ at self.now.all id.now }
    {
        self.all.get(id)
    }

    /// The comm of this id, and where it stands until a comm is opened or closed.
    pub fn find(&self, id: &Text) -> Option<(usize, &Comm)>
        ensures { option_map (λ c. c.1.now) result ≡ at self.now.all id.now }
    {
        self.all.find(id)
    }

    /// Adds a comm, for which there is room.
    pub fn insert(&mut self, id: Text, comm: Comm)
        requires room { 0 < self.old.room }
        requires fresh { at self.old.all id ≡ None }
        ensures { self.new.all ≡ self.old.all ++ (id, comm) ∷ [] }
    {
        self.kept = None; // It lacks this comm.
        self.all.insert(id, comm);
    }

    /// Takes the comm of this id out, which probably stands at this place; None where there is none. Its room stays.
    pub fn take(&mut self, place: usize, id: &Text) -> Option<Comm>
        ensures taken { result ≡ at self.old.all id.now }
        ensures all { self.new.all ≡ without self.old.all id.now }
        ensures room { self.old.room ≤ self.new.room }
    {
        self.kept = None; // It lists this comm.
        self.all.take_at(place, id)
    }

    /// Gives a comm another state, which no listing shows. It probably stands at this place.
    pub fn set_state(&mut self, place: usize, id: &Text, state: Dict)
        ensures all { (c : Comm) → at self.old.all id.now ≡ Some c → self.new.all ≡
            with_at self.old.all id.now (record { target = c.target; state = Some state }) }
        ensures room { self.new.room ≡ self.old.room }
    {
        self.all.update_at(
            place,
            id,
            |comm| Comm {
                target: comm.target,
                state: Some(state),
            },
        );
    }

    /// The ids of a target's comms, in the order of opening. It costs a walk over all comms. Err: memory.
    pub fn ids_of(&self, alloc: Global, name: &Text) -> Result<Ids, AllocError>
        ensures { IfOk result (λ ids. ids ≡ ids_of name.now self.now.all) }
    {
        let mut ids = Ids::new(alloc);
        for i in 0..self.all.places() {
            if let Some((id, comm)) = self.all.at(i) {
                if name == &comm.target {
                    ids.push(id.copy()?)?;
                }
            }
        }
        Ok(ids)
    }

    /// The whole listing: the one that is kept, shared, or a new one.
    pub fn listing(&self, alloc: Global) -> Result<Infos, AllocError>
        ensures { IfOk result (λ i. i ≡ listing self.now.all) }
    {
        match &self.kept {
            Some(kept) => kept.copy(),
            None => infos_of(alloc, self.in_order(alloc)?),
        }
    }

    /// The whole listing, which is kept for the next who asks.
    pub fn keep_listing(&mut self, alloc: Global) -> Result<Infos, AllocError>
        ensures listing { IfOk result (λ i. i ≡ listing self.old.all) }
        ensures same { self.new ≡ self.old }
    {
        let whole = self.listing(alloc)?;
        if self.kept.is_none() {
            self.kept = Some(whole.copy()?);
        }
        Ok(whole)
    }

    /// The ids with the names of their targets, in the byte order of the ids.
    fn in_order(&self, alloc: Global) -> Result<BTreeMap<Text, Text>, AllocError>
        ensures { IfOk result (λ m. m.entries ≡ in_order (pairs_of self.now.all)) }
    {
        let mut all = BTreeMap::new(alloc);
        for i in 0..self.all.places() {
            if let Some((id, comm)) = self.all.at(i) {
                all.insert(id.copy()?, comm.target.copy()?)?;
            }
        }
        Ok(all)
    }

    /// Closes each comm of a target in the target.
    pub fn close_those_of<T: Target>(&self, name: &Text, held: &mut Held<T>)
        requires ids { held.old.ids ≡ ids_of name.now self.now.all }
        requires unstaged { held.old.staged ≡ None }
        ensures closed { held.new ≡ emptied held.old }
        ensures idle { IsIdle held.new }
    {
        for i in 0..self.all.places() {
            if let Some((id, comm)) = self.all.at(i) {
                if name == &comm.target {
                    held.close(id.as_str());
                }
            }
        }
    }

    /// Takes out each comm of a target.
    pub fn remove_those_of(&mut self, name: &Text)
        ensures { self.new.all ≡ others name.now self.old.all }
    {
        self.kept = None; // It lists them.
        self.all.retain(
            |_id: &Text, comm: &Comm| -> bool
                ensures { result ≡ not (bytes_eq name.entry.now comm.now.target) }
            { name != &comm.target },
        );
    }
}
