//! How the update of the tables is applied, and how it is reverted.
ghost use Rattle.std.specs.Prelude.{◌≡◌, ◌<◌, ◌++◌, ◌∷◌, [], Option, None, Some, Ok, OnOk, IsSome, option_map};
ghost use Rattle.comm_targets.specs.Meaning.{Meaning, IsIdle};
ghost use Rattle.comm_core.specs.Machine.{at, AreDistinct};
ghost use Rattle.comm_core.specs.Step.{Outcome, with_another, without_comm, stated, without_target};
ghost use Rattle.comm_core.specs.Tables.{Opens, emptied, machine_of, Agrees, HaveStaged, IdleWhere, unstaged};
ghost use Rattle.comm_core.specs.Plans.{Carried, Suits, planned, staged_by, ended_by};
ghost use Rattle.comm_core.specs.declared.comm.Comm.{Comm};
ghost use Rattle.comm_core.specs.declared.table_update.TableUpdate.TheVariants.{Commit};

use crate::comm::Comm;
use crate::comms::Comms;
use crate::kept_answer::StagedAnswer;
use crate::staged_request::StagedRequest;
use crate::table_update::TableUpdate;
use crate::target_table::TargetTable;
use comm_targets::{Held, Target};
use comm_value::{Dict, Text};
use std::alloc::AllocError;

/// Makes room for what an update may add: a target, or a comm. Err: memory.
pub fn make_room<T: Target>(
    targets: &mut TargetTable<T>,
    comms: &mut Comms,
) -> Result<(), AllocError>
    ensures targets { targets.new.all ≡ targets.old.all }
    ensures comms { comms.new.all ≡ comms.old.all }
    ensures room { OnOk result (0 < targets.new.room) }
    ensures space { OnOk result (0 < comms.new.room) }
{
    targets.reserve()?;
    comms.reserve()
}

/// Updates the tables, and gives the target that ends by it.
pub fn apply<T: Target>(
    targets: &mut TargetTable<T>,
    comms: &mut Comms,
    table_update: TableUpdate,
    outcome: StagedAnswer,
    registered: Option<T>,
) -> Option<Held<T>>
    requires room { 0 < targets.old.room }
    requires space { 0 < comms.old.room }
    requires agrees { Agrees (unstaged targets.old.all) comms.old.all }
    requires staged { HaveStaged targets.old.all (staged_by table_update outcome) }
    requires suits { Suits (unstaged targets.old.all) comms.old.all
        (option_map T.means registered) table_update outcome }
    ensures carried { Carried targets.new.all comms.new.all
        (planned (machine_of targets.old.all comms.old.all) table_update outcome) }
    ensures ended { result ≡ ended_by targets.old.all table_update }
    ensures idle { IdleWhere result }
{
    match table_update {
        TableUpdate::Nothing => {
            drop((outcome, registered));
            None
        }
        TableUpdate::Register { name, .. } => {
            drop(outcome);
            let Some(target) = registered else {
                return None;
            };
            targets.push(name, Held::new(target));
            None
        }
        TableUpdate::Replace { name, .. } => {
            drop(outcome);
            let Some(target) = registered else {
                return None;
            };
            replace(targets, comms, &name, Held::new(target))
        }
        TableUpdate::Unregister { name } => {
            drop((outcome, registered));
            unregister(targets, comms, &name)
        }
        TableUpdate::Close { id, place } => {
            drop((outcome, registered));
            close(targets, comms, place, &id);
            None
        }
        TableUpdate::Commit(request) => {
            drop(registered);
            commit(targets, comms, request, outcome);
            None
        }
    }
}

/// Makes the change that the target staged, and notes its comm.
fn commit<T: Target>(
    targets: &mut TargetTable<T>,
    comms: &mut Comms,
    request: StagedRequest,
    outcome: StagedAnswer,
)
    requires space { 0 < comms.old.room }
    requires agrees { Agrees (unstaged targets.old.all) comms.old.all }
    requires staged { HaveStaged targets.old.all (staged_by (Commit request) outcome) }
    requires suits { (m : Option Meaning)
        × Suits (unstaged targets.old.all) comms.old.all m (Commit request) outcome }
    ensures { Carried targets.new.all comms.new.all
        (planned (machine_of targets.old.all comms.old.all) (Commit request) outcome) }
{
    targets.commit(&request.name);
    let StagedRequest {
        name,
        id,
        opens,
        place,
        ..
    } = request;
    let StagedAnswer { state, .. } = outcome;
    if opens {
        note_open(comms, id, name, state);
        return;
    }
    drop(name);
    note_state(comms, place, &id, state);
}

/// The comm that a target took, with its first state.
fn note_open(comms: &mut Comms, id: Text, target: Text, state: Option<Dict>)
    requires room { 0 < comms.old.room }
    requires fresh { at comms.old.all id ≡ None }
    ensures { comms.new.all ≡
        comms.old.all ++ (id, record { target = target; state = state }) ∷ [] }
{
    comms.insert(id, Comm { target, state });
}

/// The comm's new state, where the answer has one. It probably stands at this place.
fn note_state(comms: &mut Comms, place: usize, id: &Text, state: Option<Dict>)
    ensures { (c : Comm) → at comms.old.all id.now ≡ Some c
        → comms.new.all ≡ stated comms.old.all id.now c.target state }
{
    match state {
        Some(state) => comms.set_state(place, id, state),
        None => {}
    }
}

/// Takes a comm out, in its target first. It probably stands at this place.
fn close<T: Target>(targets: &mut TargetTable<T>, comms: &mut Comms, place: usize, id: &Text)
    requires agrees { Agrees (unstaged targets.old.all) comms.old.all }
    requires none { HaveStaged targets.old.all (λ _. None) }
    ensures { Carried targets.new.all comms.new.all
        (without_comm (machine_of targets.old.all comms.old.all) id.now) }
{
    if let Some(comm) = comms.take(place, id) {
        targets.close(&comm.target, id);
        drop(comm);
    }
}

/// Takes a target out with its comms, which are closed in it.
fn unregister<T: Target>(
    targets: &mut TargetTable<T>,
    comms: &mut Comms,
    name: &Text,
) -> Option<Held<T>>
    requires agrees { Agrees (unstaged targets.old.all) comms.old.all }
    requires none { HaveStaged targets.old.all (λ _. None) }
    ensures tables { Carried targets.new.all comms.new.all
        (without_target (machine_of targets.old.all comms.old.all) name.now) }
    ensures ended { result ≡ option_map emptied (at targets.old.all name.now) }
    ensures idle { IdleWhere result }
{
    let taken = match targets.take(name) {
        Some(mut held) => {
            comms.close_those_of(name, &mut held);
            Some(held)
        }
        None => None,
    };
    comms.remove_those_of(name);
    taken
}

/// Puts a target in the place of the one of this name, whose comms are closed in it and taken out.
fn replace<T: Target>(
    targets: &mut TargetTable<T>,
    comms: &mut Comms,
    name: &Text,
    held: Held<T>,
) -> Option<Held<T>>
    requires agrees { Agrees (unstaged targets.old.all) comms.old.all }
    requires none { HaveStaged targets.old.all (λ _. None) }
    requires here { IsSome (at targets.old.all name.now) }
    requires idle { IsIdle held }
    ensures tables { Carried targets.new.all comms.new.all
        (with_another (machine_of targets.old.all comms.old.all) name.now held.kind held.notes) }
    ensures ended { result ≡ option_map emptied (at targets.old.all name.now) }
    ensures idle { IdleWhere result }
{
    let mut replaced = targets.replace(name, held);
    comms.close_those_of(name, &mut replaced);
    comms.remove_those_of(name); // The new target has none of them.
    Some(replaced)
}

/// Takes back what the target of the update staged.
pub fn revert<T: Target>(targets: &mut TargetTable<T>, table_update: &TableUpdate)
    requires distinct { AreDistinct (unstaged targets.old.all) }
    requires staged { (c : Opens) × (registered : Option Meaning) × (o : Option Outcome)
        × Suits (unstaged targets.old.all) c registered table_update.now o
        × HaveStaged targets.old.all (staged_by table_update.now o) }
    ensures { targets.new.all ≡ unstaged targets.old.all }
{
    match table_update {
        TableUpdate::Commit(request) => targets.abandon(&request.name),
        TableUpdate::Nothing => {}
        TableUpdate::Register { .. } => {}
        TableUpdate::Replace { .. } => {}
        TableUpdate::Unregister { .. } => {}
        TableUpdate::Close { .. } => {}
    }
}
