//! Reads, and what a client has seen.
use super::{ClientPlayer, NO_MEMORY};
use comm_manager::{Client, InfoRead, ManagerId, ReadFault};
use comm_script::append_state_line;
use comm_targets::Target;
use comm_value::Text;

impl<M: ManagerId, T: Target> ClientPlayer<'_, M, T> {
    fn say_fault(&mut self, fault: &ReadFault) {
        match fault {
            ReadFault::Memory => self.say(NO_MEMORY),
            ReadFault::NoVersion => self.say("no_version"),
        }
    }

    // The comms of the target of this name, of all where it is empty.
    fn list(&mut self, client: &mut Client<M>, name: &str) -> Result<InfoRead, ReadFault> {
        let target = if name.is_empty() {
            None
        } else {
            match Text::copy_of(self.alloc, name) {
                Ok(name) => Some(name),
                Err(_) => return Err(ReadFault::Memory),
            }
        };
        self.arm();
        let read = client.comm_info(self.alloc, target.as_ref());
        self.disarm();
        read
    }

    // The comms, each by its id and its target's name.
    fn infos(&mut self, client: &mut Client<M>, name: &str) {
        match self.list(client, name) {
            Ok(read) => {
                self.answer.push_counted("infos", read.front);
                for info in read.comms.as_slice() {
                    self.say(" ");
                    self.say(info.id.as_str());
                    self.say(" ");
                    self.say(info.target.as_str());
                }
            }
            Err(fault) => self.say_fault(&fault),
        }
    }

    // How many comms there are.
    fn count(&mut self, client: &mut Client<M>, name: &str) {
        match self.list(client, name) {
            Ok(read) => {
                let count = read.comms.as_slice().len();
                self.answer.push_counted("comms", count as u64);
            }
            Err(fault) => self.say_fault(&fault),
        }
    }

    // A read, which is at no front before this.
    fn keep_up(&mut self, client: &mut Client<M>, taken: u64) {
        match self.list(client, "") {
            Ok(read) => {
                let front = read.front;
                drop(read);
                if front >= taken && client.seen() == front {
                    self.say("keeps_up");
                } else {
                    self.answer.push_counted("front", front);
                }
            }
            Err(fault) => self.say_fault(&fault),
        }
    }

    fn state(&mut self, client: &mut Client<M>, id: &str) {
        let Ok(id) = Text::copy_of(self.alloc, id) else {
            return self.say(NO_MEMORY);
        };
        self.arm();
        let read = client.state(&id);
        self.disarm();
        match read {
            Ok(read) => {
                let text = self.answer.bytes_mut();
                let done = append_state_line(self.alloc, read.front, &read.answer, text);
                self.answer.note(done);
            }
            Err(fault) => self.say_fault(&fault),
        }
    }

    // The client hears the last stamp.
    fn hear(&mut self, client: &mut Client<M>) {
        self.arm();
        let heard = match &self.stamp {
            Some(stamp) => {
                let copy = stamp.copy();
                client.hear(&copy);
                Some(copy.number())
            }
            None => None,
        };
        self.disarm();
        match heard {
            Some(number) => self.answer.push_counted("heard", number),
            None => self.say("no_stamp"),
        }
    }

    // Its number and how much it has seen, by a word.
    fn about(&mut self, client: &Client<M>, word: &str) {
        self.arm();
        let number = if word == "id" {
            client.id() as u64
        } else {
            client.seen()
        };
        self.disarm();
        self.answer.push_counted(word, number);
    }

    /// What a client reads, or says of itself. Says whether the word is one of these.
    pub(super) fn read(&mut self, client: &mut Client<M>, words: &str, taken: u64) -> bool {
        let (word, rest) = words.split_once(' ').unwrap_or((words, ""));
        match word {
            "infos" => self.infos(client, rest),
            "count" => self.count(client, rest),
            "state" => self.state(client, rest),
            "keeps_up" => self.keep_up(client, taken),
            "hear" => self.hear(client),
            "seen" | "id" => self.about(client, word),
            _ => return false,
        }
        true
    }
}
