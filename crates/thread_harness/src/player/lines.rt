//! A line: who is asked, and until which answer.
use super::{ClientPlayer, NO_MEMORY, ROOM};
use crate::expected::is_one_of;
use comm_manager::{Client, Manager, ManagerId, Publisher};
use comm_targets::Target;
use std::sync::Wait;
use std::thread::yield_now;

/// A line is asked again so often, while its answer is one at which it is: some seconds.
const TRIES: u32 = 4_000_000;

impl<M: ManagerId, T: Target> ClientPlayer<'_, M, T> {
    // Nothing is answered yet. Says whether there is room for the answer, and for what is noted of it.
    fn make_room(&mut self, client: Option<u8>) -> bool {
        self.answer.clear();
        self.from = 0;
        self.refused = 0;
        self.was_refused = false;
        let is_room = match client {
            Some(client) => self.report.replies.reserve(client, ROOM),
            None => true,
        };
        is_room
            && self.answer.reserve(ROOM).is_ok()
            && self.report.taken.reserve(ROOM).is_ok()
            && self.report.wrong.reserve(ROOM).is_ok()
    }

    // What a client is asked: a read, or a change, for which there must be a manager.
    fn ask_client<R: Wait>(
        &mut self,
        rt: &R,
        manager: Option<&Manager<M, T>>,
        client: &mut Client<M>,
        words: &str,
        taken: u64,
    ) {
        if self.read(client, words, taken) {
            return;
        }
        match manager {
            Some(manager) => self.change(rt, manager, client, words),
            None => self.say("no_manager"),
        }
    }

    // `refusing N LINE`: while the heap is asked to refuse an allocation.
    fn ask_refusing<R: Wait>(
        &mut self,
        rt: &R,
        manager: Option<&Manager<M, T>>,
        client: &mut Client<M>,
        words: &str,
        taken: u64,
    ) {
        let Some(rest) = words.strip_prefix("refusing ") else {
            return self.ask_client(rt, manager, client, words, taken);
        };
        let (number, rest) = rest.split_once(' ').unwrap_or((rest, ""));
        match number.parse::<u32>() {
            Ok(number) => {
                self.refused = number;
                self.ask_client(rt, manager, client, rest, taken);
            }
            Err(_) => self.say("no_number"),
        }
    }

    // A flag is set, waited for or looked at.
    fn flag(&mut self, word: &str, number: u64) {
        let is_set = match word {
            "set" => return self.flags.set(number),
            "wait" => self.flags.wait(number),
            "is_set" => self.flags.is_set(number),
            _ => return self.say("no_such_word"),
        };
        self.say(match word {
            _ if is_set => "set",
            "wait" => "late",
            _ => "unset",
        });
    }

    // What no client is asked.
    fn ask_nobody<R: Wait>(&mut self, rt: &R, publishers: &mut [Publisher<M>], words: &str) {
        if let Some((word, number)) = words.split_once(' ') {
            return match number.parse() {
                Ok(number) => self.flag(word, number),
                Err(_) => self.say("no_number"),
            };
        }
        match publishers {
            [publisher, ..] => self.ask_publisher(rt, publisher, words),
            [] => self.say("no_publisher"),
        }
    }

    fn ask_number<R: Wait>(
        &mut self,
        rt: &R,
        manager: Option<&Manager<M, T>>,
        clients: &mut [Client<M>],
        words: &str,
        number: u8,
        taken: u64,
    ) {
        for client in clients {
            if client.id() == number {
                return self.ask_refusing(rt, manager, client, words, taken);
            }
        }
        self.say("no_client");
    }

    // Asks the client of this number, or nobody.
    fn ask_whom<R: Wait>(
        &mut self,
        rt: &R,
        manager: Option<&Manager<M, T>>,
        clients: &mut [Client<M>],
        publishers: &mut [Publisher<M>],
        line: &str,
        number: Option<u8>,
    ) {
        let Some(number) = number else {
            return self.ask_nobody(rt, publishers, line);
        };
        let taken = match publishers {
            [publisher, ..] => publisher.taken(),
            [] => 0,
        };
        let words = line.get(2..).unwrap_or("");
        self.ask_number(rt, manager, clients, words, number, taken);
    }

    /// Asks what a line does, as the crate's page says, without its ` => `. `answer` is what comes.
    pub fn ask<R: Wait>(
        &mut self,
        rt: &R,
        manager: Option<&Manager<M, T>>,
        clients: &mut [Client<M>],
        publishers: &mut [Publisher<M>],
        line: &str,
    ) {
        let number = match line.split_once(' ') {
            Some((number, _)) => number.parse::<u8>().ok(),
            None => None,
        };
        if self.make_room(number) {
            self.ask_whom(rt, manager, clients, publishers, line, number);
        } else {
            self.say(NO_MEMORY);
        }
        if !self.answer.is_whole() {
            self.answer.clear();
            self.from = 0;
            self.say(NO_MEMORY);
        }
    }

    // Asks, and again at the answers at which that is wanted. Says whether the answer is one of those that may come.
    fn ask_until_answered<R: Wait>(
        &mut self,
        rt: &R,
        manager: Option<&Manager<M, T>>,
        clients: &mut [Client<M>],
        publishers: &mut [Publisher<M>],
        line: &str,
    ) -> bool {
        let (words, answers) = line.split_once(" => ").unwrap_or((line, ""));
        let (wanted, again) = match answers.split_once(" ~ ") {
            Some((wanted, again)) => (wanted, Some(again)),
            None => (answers, None),
        };
        for _ in 0..TRIES {
            self.ask(rt, manager, clients, publishers, words);
            let is_again = again.is_some_and(|answers| is_one_of(self.words(), answers));
            if !is_again || self.flags.are_released() {
                break;
            }
            yield_now();
        }
        is_one_of(self.words(), wanted)
    }

    /// The line, its answer, and its round, among what is wrong.
    pub(super) fn note_wrong(&mut self, line: &str, round: u64) {
        let wrong = &mut self.report.wrong;
        wrong.push_counted("round", round);
        wrong.push(": ");
        wrong.push(line);
        wrong.push(": came ");
        wrong.push_bytes(self.answer.as_bytes());
        wrong.push("\n");
    }

    /// Asks what a line of a text does, in which `#` is the number of the round.
    pub(super) fn line<R: Wait>(
        &mut self,
        rt: &R,
        manager: Option<&Manager<M, T>>,
        clients: &mut [Client<M>],
        publishers: &mut [Publisher<M>],
        line: &str,
        round: u64,
    ) -> bool {
        let is_well = match line.split_once('#') {
            Some((before, after)) => match format!(in self.alloc; "{before}{round}{after}") {
                Ok(line) => self.ask_until_answered(
                    rt,
                    manager,
                    clients,
                    publishers,
                    line.as_str(),
                ),
                Err(_) => false,
            },
            None => self.ask_until_answered(rt, manager, clients, publishers, line),
        };
        if !is_well {
            self.note_wrong(line, round);
        }
        is_well
    }
}
