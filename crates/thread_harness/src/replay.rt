//! A history is played again, call by call, on a manager of one thread with targets of its own.
ghost use Rattle.std.specs.Prelude.{◌≡◌, true};

use comm_core::{Call, Core, Entry, Limits, Reply};
use comm_messages::{Outgoing, Parent};
use comm_targets::Target;
use comm_value::Text;
use std::alloc::Global;
use std::sync::Arc;
use test_harness::{TestFault, TextBuilder, append_answer};

/// What came of it: the replies and the messages, how many comms were open at most after a call, and the targets that
/// aren't registered.
#[derive(Drop)]
pub(crate) struct Replay<T: Target> {
    pub(crate) whole: TextBuilder,
    pub(crate) most: usize,
    pub(crate) targets: Vec<T>,
}

// Registers the next target.
fn register<T: Target>(
    core: &mut Core<T>,
    name: &Text,
    targets: &mut Vec<T>,
) -> Result<(Reply, Vec<Outgoing>), TestFault>
    requires { core.old.settled ≡ true }
    ensures { core.new.settled ≡ true }
{
    let name = name.copy()?;
    let target = targets.pop().ok_or(TestFault("no target is left"))?;
    if !target.idle() {
        return Err(TestFault("a target isn't idle"));
    }
    match core.register(name, target) {
        Ok(answered) => Ok(answered),
        Err((_, target)) => {
            drop(target);
            Err(TestFault("no memory"))
        }
    }
}

// Makes the call.
fn step<T: Target>(
    alloc: Global,
    core: &mut Core<T>,
    call: &Call,
    targets: &mut Vec<T>,
) -> Result<(Reply, Vec<Outgoing>), TestFault>
    requires { core.old.settled ≡ true }
    ensures { core.new.settled ≡ true }
{
    match call {
        Call::Register { name, .. } => register(core, name, targets),
        other => {
            let call = other.copy(alloc)?;
            Ok(core.step(call)?)
        }
    }
}

// Makes the call of an entry, if it isn't the end.
fn play_entry<T: Target>(
    alloc: Global,
    core: &mut Core<T>,
    place: u64,
    entry: &Entry,
    replay: &mut Replay<T>,
) -> Result<(), TestFault>
    requires { core.old.settled ≡ true }
    ensures { core.new.settled ≡ true }
{
    let Entry::Change {
        client,
        number,
        call,
        ..
    } = entry
    else {
        return Ok(());
    };
    let parent = Parent::Call {
        client: *client,
        number: *number,
    };
    let (reply, outgoing) = step(alloc, core, call, &mut replay.targets)?;
    let text = replay.whole.bytes_mut();
    let done = append_answer(place, &parent, &reply, &outgoing, text);
    drop((reply, outgoing));
    replay.whole.note(done);
    let open = core.infos(None)?;
    replay.most = replay.most.max(open.as_slice().len());
    Ok(())
}

fn play_entries<T: Target>(
    alloc: Global,
    core: &mut Core<T>,
    history: &[Arc<Entry, Global>],
    replay: &mut Replay<T>,
) -> Result<(), TestFault>
    requires { core.old.settled ≡ true }
    ensures { core.new.settled ≡ true }
{
    for (place, entry) in history.iter().enumerate() {
        let place = (place as u64).saturating_add(1);
        play_entry(alloc, core, place, entry, replay)?;
    }
    Ok(())
}

/// What a manager of one thread with these targets makes of the history's calls. Err: a call can't be made.
pub(crate) fn replay_history<T: Target>(
    alloc: Global,
    limits: Limits,
    history: &[Arc<Entry, Global>],
    targets: Vec<T>,
) -> Result<Replay<T>, TestFault> {
    let mut replay = Replay {
        whole: TextBuilder::new(alloc),
        most: 0,
        targets,
    };
    let Ok(mut core) = Core::new(alloc, limits) else {
        return Err(TestFault("no manager of one thread"));
    };
    let done = play_entries(alloc, &mut core, history, &mut replay);
    let _ended = core.stop_all();
    done?;
    Ok(replay)
}
