//! Lines over a manager of one thread.
ghost use Rattle.std.specs.Prelude.{◌≡◌, true, IfOk, OnErr};
ghost use Rattle.comm_targets.specs.Meaning.{IsIdle};
ghost use Rattle.comm_core.specs.Ready.{IsReady};
ghost use Rattle.comm_core.specs.Tables.{IdleWhere};

use crate::call_log::CallLog;
use crate::call_words::{call_of, split_word};
use crate::core_of_limit::core_of_limit;
use crate::entry_text::{append_entry, append_row};
use crate::reply_text::append_answer;
use crate::test_fault::{TestFault, holds};
use crate::value_text::append_words;
use comm_core::{Core, Entry, Finished, Outgoings, Ready, Reply, Row};
use comm_messages::{Outgoing, Parent};
use comm_script::{append_out, append_state_line};
use comm_targets::Target;
use comm_value::Text;
use std::alloc::{AllocError, Global};
use std::sync::Arc;

/// What lines that are played over a one-thread manager need beside it.
#[derive(Drop)]
pub struct CorePlayer<T: Target> {
    /// The targets that `register` takes, the first first. Each is idle.
    pub stock: Vec<T>,
    /// What `log` shows.
    pub log: CallLog,
    /// How many changes were answered.
    pub answered: u64,
}

impl<T: Target> CorePlayer<T> {
    fn next_target(&mut self) -> Result<T, TestFault>
        ensures { IfOk result (λ t. IsIdle (T.means t)) }
    {
        if self.stock.is_empty() {
            return Err(TestFault("no target is left"));
        }
        let target = self.stock.remove(0);
        if target.idle() {
            Ok(target)
        } else {
            Err(TestFault("a target isn't idle"))
        }
    }

    // Appends the next answer, and tests that its copies read the same.
    fn append_next(
        &mut self,
        alloc: Global,
        reply: &Reply,
        outgoing: &[Outgoing],
        text: &mut Vec<u8>,
    ) -> Result<(), TestFault> {
        self.answered = self.answered.saturating_add(1);
        let parent = Parent::Call {
            client: 0,
            number: self.answered,
        };
        append_answer(self.answered, &parent, reply, outgoing, text)?;
        let mut again = Vec::new(alloc);
        let outgoing = Outgoings::copy_of(alloc, outgoing)?;
        let reply = reply.copy(alloc)?;
        let done = append_answer(
            self.answered,
            &parent,
            &reply,
            outgoing.as_slice(),
            &mut again,
        );
        drop(reply);
        done?;
        holds(text.ends_with(&again), "a copy of an answer differs")
    }
}

// Prepares a change: that of a call's line, or the register of the next target.
fn prepare_change<T: Target>(
    alloc: Global,
    core: &mut Core<T>,
    player: &mut CorePlayer<T>,
    line: &str,
) -> Result<Ready<T>, TestFault>
    requires settled { core.old.settled ≡ true }
    ensures ready { IfOk result (λ r. IsReady core.new r) }
    ensures settled { OnErr result (core.new.settled ≡ true) }
{
    let (word, name) = split_word(line);
    if word != "register" {
        let call = call_of(alloc, line)?;
        return Ok(core.begin(call)?);
    }
    let name = Text::copy_of(alloc, name)?;
    let target = player.next_target()?;
    match core.begin_register(name, target) {
        Ok(ready) => Ok(ready),
        Err(_) => Err(TestFault("no memory where none is refused")),
    }
}

// What a change gives is let go, and a target that it took out ends.
fn end_finished<T: Target>(finished: Finished<T>)
    requires { IdleWhere finished.ended }
{
    let Finished {
        reply,
        outgoing,
        ended,
    } = finished;
    if let Some(held) = ended {
        held.end();
    }
    drop(reply);
    drop(outgoing);
}

// What a change gave, which is let go.
fn append_change<T: Target>(
    alloc: Global,
    player: &mut CorePlayer<T>,
    given: (Reply, Vec<Outgoing>),
    text: &mut Vec<u8>,
) -> Result<(), TestFault> {
    let (reply, outgoing) = given;
    let done = player.append_next(alloc, &reply, &outgoing, text);
    drop(reply);
    drop(outgoing);
    done
}

fn step<T: Target>(
    alloc: Global,
    core: &mut Core<T>,
    player: &mut CorePlayer<T>,
    line: &str,
    text: &mut Vec<u8>,
) -> Result<(), TestFault>
    requires settled { core.old.settled ≡ true }
    ensures { core.new.settled ≡ true }
{
    let call = call_of(alloc, line)?;
    let given = core.step(call)?;
    append_change(alloc, player, given, text)
}

fn register<T: Target>(
    alloc: Global,
    core: &mut Core<T>,
    player: &mut CorePlayer<T>,
    name: &str,
    text: &mut Vec<u8>,
) -> Result<(), TestFault>
    requires settled { core.old.settled ≡ true }
    ensures { core.new.settled ≡ true }
{
    let name = Text::copy_of(alloc, name)?;
    let target = player.next_target()?;
    let Ok(given) = core.register(name, target) else {
        return Err(TestFault("no memory where none is refused"));
    };
    append_change(alloc, player, given, text)
}

// Prepares a change and withdraws it. A target that was handed in is the next again.
fn withdraw<T: Target>(
    alloc: Global,
    core: &mut Core<T>,
    player: &mut CorePlayer<T>,
    line: &str,
    text: &mut Vec<u8>,
) -> Result<(), TestFault>
    requires settled { core.old.settled ≡ true }
    ensures { core.new.settled ≡ true }
{
    let ready = prepare_change(alloc, core, player, line)?;
    if let Some(target) = core.withdraw(ready) {
        player.stock.insert(0, target)?;
    }
    Ok(append_words(&["withdrawn\n"], text)?)
}

fn append_both(
    alloc: Global,
    entry: &Entry,
    row: &Row,
    text: &mut Vec<u8>,
) -> Result<(), AllocError> {
    append_entry(alloc, entry, text)?;
    append_row(alloc, row, text)
}

// The entry and the row of a change that was prepared.
fn append_entry_and_row(
    alloc: Global,
    entry: Result<Arc<Entry, Global>, AllocError>,
    row: Result<Row, AllocError>,
    text: &mut Vec<u8>,
) -> Result<(), TestFault> {
    let done = match (&entry, &row) {
        (Ok(entry), Ok(row)) => append_both(alloc, entry, row, text),
        _ => Err(AllocError),
    };
    drop(entry);
    drop(row);
    Ok(done?)
}

// Prepares a change, shows its entry, of client 2 and number 9, and its row, and makes it.
fn tell<T: Target>(
    alloc: Global,
    core: &mut Core<T>,
    player: &mut CorePlayer<T>,
    line: &str,
    text: &mut Vec<u8>,
) -> Result<(), TestFault>
    requires settled { core.old.settled ≡ true }
    ensures { core.new.settled ≡ true }
{
    let ready = prepare_change(alloc, core, player, line)?;
    let entry = ready.entry(alloc, 2, 9);
    let row = ready.row(alloc);
    end_finished(core.finish(ready));
    player.answered = player.answered.saturating_add(1);
    append_entry_and_row(alloc, entry, row, text)
}

// Prepares a call that is spent, and withdraws it.
fn withdraw_spent<T: Target>(alloc: Global, core: &mut Core<T>, line: &str) -> Result<(), TestFault>
    requires settled { core.old.settled ≡ true }
    ensures { core.new.settled ≡ true }
{
    let begun = core.prepare(call_of(alloc, line)?)?;
    let back = core.abort(begun);
    holds(back.is_none(), "a target comes back that nobody handed in")
}

// What `tell` does, of a call that is spent, once it was prepared and withdrawn.
fn spend<T: Target>(
    alloc: Global,
    core: &mut Core<T>,
    line: &str,
    text: &mut Vec<u8>,
) -> Result<(), TestFault>
    requires settled { core.old.settled ≡ true }
    ensures { core.new.settled ≡ true }
{
    withdraw_spent(alloc, core, line)?;
    let call = call_of(alloc, line)?;
    let kept = call.copy(alloc)?;
    let begun = core.prepare(call)?;
    let row = begun.row(alloc, &kept);
    let entry = begun.entry(alloc, 2, 9, kept);
    end_finished(core.commit(begun));
    append_entry_and_row(alloc, entry, row, text)
}

fn read_state<T: Target>(
    alloc: Global,
    core: &Core<T>,
    front: u64,
    id: &str,
    text: &mut Vec<u8>,
) -> Result<(), TestFault> {
    let id = Text::copy_of(alloc, id)?;
    let state = core.state(&id)?;
    let done = append_state_line(alloc, front, &state, text);
    drop(state);
    Ok(done?)
}

// The comms that client 2 is shown: of all targets, or, where the word ends in `_of`, of this one.
fn read_comms<T: Target>(
    alloc: Global,
    core: &mut Core<T>,
    front: u64,
    line: &str,
    text: &mut Vec<u8>,
) -> Result<(), TestFault>
    requires settled { core.old.settled ≡ true }
    ensures { core.new.settled ≡ true }
{
    let (word, name) = split_word(line);
    let name = Text::copy_of(alloc, name)?;
    let of = if word.ends_with("_of") {
        Some(&name)
    } else {
        None
    };
    let comms = if word.starts_with("listing") {
        core.listing(of)?
    } else {
        core.infos(of)?
    };
    let reply = Outgoing::InfoReply { comms };
    let done = append_out(&reply, &Parent::Read { client: 2, front }, text);
    drop(reply);
    Ok(done?)
}

fn append_log(log: &CallLog, text: &mut Vec<u8>) -> Result<(), AllocError> {
    append_words(&["log"], text)?;
    log.take(text)?;
    append_words(&["\n"], text)
}

// How many targets a manager ended, and what these noted.
fn append_end(
    alloc: Global,
    ended: usize,
    log: &CallLog,
    text: &mut Vec<u8>,
) -> Result<(), TestFault> {
    let line = format!(in alloc; "stopped {ended}\n")?;
    text.extend_from_slice(line.as_bytes())?;
    Ok(append_log(log, text)?)
}

// Appends what comes of a line over a manager.
fn play_line<T: Target>(
    alloc: Global,
    core: &mut Core<T>,
    player: &mut CorePlayer<T>,
    line: &str,
    text: &mut Vec<u8>,
) -> Result<(), TestFault>
    requires settled { core.old.settled ≡ true }
    ensures { core.new.settled ≡ true }
{
    let (word, rest) = split_word(line);
    if word == "register" {
        register(alloc, core, player, rest, text)
    } else if word == "withdraw" {
        withdraw(alloc, core, player, rest, text)
    } else if word == "tell" {
        tell(alloc, core, player, rest, text)
    } else if word == "spend" {
        player.answered = player.answered.saturating_add(1);
        spend(alloc, core, rest, text)
    } else if word == "log" {
        Ok(append_log(&player.log, text)?)
    } else if word == "state" {
        read_state(alloc, core, player.answered, rest, text)
    } else if word.starts_with("infos") || word.starts_with("listing") {
        read_comms(alloc, core, player.answered, line, text)
    } else {
        step(alloc, core, player, line, text)
    }
}

fn play_lines<T: Target>(
    alloc: Global,
    core: &mut Core<T>,
    player: &mut CorePlayer<T>,
    lines: &str,
    text: &mut Vec<u8>,
) -> Result<(), TestFault>
    requires settled { core.old.settled ≡ true }
    ensures { core.new.settled ≡ true }
{
    for line in lines.lines() {
        play_line(alloc, core, player, line, text)?;
    }
    Ok(())
}

/// What comes of lines over a manager of at most `comms` open comms, and at last how many targets it ended and what
/// these noted. A line is a call's (`call_of`), which is one step, or
///
/// - `register NAME`, of the next target, and `withdraw LINE`, which prepares a call or a register and withdraws it
/// - `tell LINE`, which prepares it, shows its entry and its row, and makes it; `spend LINE` does so of a call that
///   isn't kept
/// - `state ID`, `infos`, `infos_of NAME`, `listing` and `listing_of NAME`
/// - `log`, what targets noted since the last one
pub fn play_over_core<T: Target>(
    alloc: Global,
    comms: usize,
    mut player: CorePlayer<T>,
    lines: &str,
) -> Result<Vec<u8>, TestFault> {
    let mut core = core_of_limit(alloc, comms)?;
    let mut text = Vec::new(alloc);
    let played = play_lines(alloc, &mut core, &mut player, lines, &mut text);
    let ended = core.stop_all();
    let closed = append_end(alloc, ended, &player.log, &mut text);
    drop(player);
    played?;
    closed?;
    Ok(text)
}
