//! Changes: by the client's own function for each, or by `ask`.
ghost use Rattle.comm_core.specs.Ready.{HandsNothingIn};

use super::{ClientPlayer, NO_MEMORY};
use comm_core::{Call, Unavailable};
use comm_manager::{Answered, Client, Manager, ManagerId, Stamp};
use comm_script::append_reply;
use comm_targets::Target;
use comm_value::Text;
use std::sync::Wait;
use test_harness::call_of;
use test_support::{refuse, was_refused};

// Makes the change of a call by the client's own function for it.
fn call_by_name<M: ManagerId, T: Target, R: Wait>(
    rt: &R,
    manager: &Manager<M, T>,
    client: &mut Client<M>,
    call: Call,
) -> Result<Answered<M>, Unavailable<Stamp<M>>>
    requires { HandsNothingIn call }
{
    match call {
        Call::Open {
            id,
            target,
            version,
            body,
        } => client.open_comm(rt, manager, id, target, version, body),
        Call::Msg { id, body } => client.message(rt, manager, id, body),
        Call::Close { id } => client.close_comm(rt, manager, id),
        Call::Unregister { name } => client.unregister(rt, manager, name),
        Call::Launch { id, target, state } => client.launch(rt, manager, id, target, state),
        Call::Push { id, state } => client.push(rt, manager, id, state),
        Call::Send { id, body } => client.send(rt, manager, id, body),
        Call::HangUp { id } => client.hang_up(rt, manager, id),
        other => client.ask(rt, manager, other),
    }
}

// Where the words of a line "reply N WORDS" begin.
fn after_number(line: &[u8]) -> usize {
    let mut spaces = 0u8;
    for (place, byte) in line.iter().enumerate() {
        if *byte == b' ' {
            spaces = spaces.saturating_add(1);
            if spaces == 2 {
                return place.saturating_add(1);
            }
        }
    }
    0
}

impl<M: ManagerId, T: Target> ClientPlayer<'_, M, T> {
    /// Asks the heap for the refusal that the line wants, if it wants one.
    pub(super) fn arm(&self) {
        let _is_heard = self.refused > 0 && refuse(self.alloc, self.refused);
    }

    /// From here on nothing is refused.
    pub(super) fn disarm(&mut self) {
        self.was_refused = self.refused > 0 && was_refused(self.alloc);
    }

    // A change of this client was answered by what is said.
    fn note_reply(&mut self, client: u8) {
        if self.answer.is_whole() {
            self.from = after_number(self.answer.as_bytes());
            if let Some(replies) = self.report.replies.of_mut(client) {
                replies.push_bytes(self.answer.as_bytes());
            }
        }
    }

    fn say_change(&mut self, client: u8, made: Result<Answered<M>, Unavailable<Stamp<M>>>) {
        match made {
            Ok(answered) => {
                let Answered {
                    number,
                    reply,
                    stamp,
                } = answered;
                self.stamp = Some(stamp);
                let done = append_reply(number, &reply, self.answer.bytes_mut());
                drop(reply);
                self.answer.note(done);
                self.note_reply(client);
            }
            Err(Unavailable::HistoryFull(stamp)) => {
                self.answer.push_counted("history_full", stamp.number());
                self.stamp = Some(stamp);
            }
            Err(Unavailable::OutboxFull(waiting)) => self
                .answer
                .push_counted("outbox_full", waiting),
            Err(Unavailable::Memory) => self.say(NO_MEMORY),
        }
    }

    // Registers the next target. Where it isn't registered, it is the next again.
    fn register<R: Wait>(
        &mut self,
        rt: &R,
        manager: &Manager<M, T>,
        client: &mut Client<M>,
        name: &str,
    ) {
        let Some(target) = self.targets.pop() else {
            return self.say("no_target_left");
        };
        if !target.idle() {
            return self.say("not_idle");
        }
        let Ok(name) = Text::copy_of(self.alloc, name) else {
            let _is_back = self.targets.push(target).is_ok();
            return self.say(NO_MEMORY);
        };
        self.arm();
        let given = client.register(rt, manager, name, target);
        self.disarm();
        let made = match given {
            Ok(answered) => Ok(answered),
            Err((why, target)) => {
                let _is_back = self.targets.push(target).is_ok();
                Err(why)
            }
        };
        self.say_change(client.id(), made);
    }

    /// The change that the words ask for.
    pub(super) fn change<R: Wait>(
        &mut self,
        rt: &R,
        manager: &Manager<M, T>,
        client: &mut Client<M>,
        words: &str,
    ) {
        if let Some(name) = words.strip_prefix("register ") {
            return self.register(rt, manager, client, name);
        }
        let (words, is_asked) = match words.strip_prefix("ask ") {
            Some(rest) => (rest, true),
            None => (words, false),
        };
        let Ok(call) = call_of(self.alloc, words) else {
            return self.say("no_call");
        };
        self.arm();
        let made = if is_asked {
            client.ask(rt, manager, call)
        } else {
            call_by_name(rt, manager, client, call)
        };
        self.disarm();
        self.say_change(client.id(), made);
    }
}
