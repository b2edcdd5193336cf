//! Targets that are used by themselves.
ghost use Rattle.std.specs.Prelude.{◌≡◌, true, [], ◌∷◌, None, OnOk, OnErr};
ghost use Rattle.comm_targets.specs.Event.{id_of};
ghost use Rattle.comm_targets.specs.Meaning.{IsIdle, IsAskable, is_open, is_message, ids_after};

use comm_messages::Body;
use comm_targets::{Answer, Counter, Echo, Event, Held, Latest, PlainTarget, Target, TargetFault};
use comm_value::Text;
use std::alloc::Global;
use std::test::Fail;
use test_harness::{
    CallLog, Case, ScriptedTarget, Subject, TestFault, append_target_answer, append_words, body_of,
    run_cases, split_word,
};

/// Opens a comm.
fn open_comm<T: Target>(held: &mut Held<T>, opening: &Event) -> Result<(), TargetFault>
    requires unstaged { held.old.staged ≡ None }
    requires askable { IsAskable held.old opening.now }
    ensures unstaged { OnOk result (held.new.staged ≡ None) }
    ensures ids { OnOk result (held.new.ids ≡ ids_after held.old.ids opening.now) }
    ensures unchanged { OnErr result (held.new ≡ held.old) }
{
    let answer = held.prepare(opening, None)?;
    drop(answer);
    held.commit();
    Ok(())
}

/// Sends a message on a comm that is open.
fn send_message<T: Target>(held: &mut Held<T>, message: &Event) -> Result<Answer, TargetFault>
    requires unstaged { held.old.staged ≡ None }
    requires message { is_message message.now ≡ true }
    requires opened { is_open held.old (id_of message.now) ≡ true }
    ensures unstaged { held.new.staged ≡ None }
    ensures ids { held.new.ids ≡ held.old.ids }
{
    let answer = held.prepare(message, None)?;
    held.commit();
    Ok(answer)
}

// The words of a copy of an answer, which is let go first, or of a fault.
fn append_answer_copy(
    alloc: Global,
    answer: Result<Answer, TargetFault>,
    text: &mut Vec<u8>,
) -> Result<(), TestFault> {
    match answer {
        Ok(answer) => {
            let copy = answer.copy(alloc);
            drop(answer);
            let copy = copy?;
            let done = append_target_answer(alloc, &copy, text);
            drop(copy);
            Ok(done?)
        }
        Err(fault) => Ok(text.extend_from_slice(format!(in alloc; "{fault:?}\n")?.as_bytes())?),
    }
}

// An opening that is taken back. Tells whether it was staged, and then was no longer.
fn is_taken_back<T: Target>(held: &mut Held<T>, opening: &Event) -> bool
    requires idle { IsIdle held.old }
    requires askable { IsAskable held.old opening.now }
    ensures { held.new ≡ held.old }
{
    let Ok(answer) = held.prepare(opening, None) else {
        return false;
    };
    drop(answer);
    let is_staged = !held.idle();
    held.abandon();
    is_staged && held.idle()
}

/// Opens a comm, sends the same message twice, closes the comm and ends the target. Tells whether an opening before
/// is taken back, both answers and the notes.
fn talk<T: Target>(
    alloc: Global,
    target: T,
    opening: &Event,
    message: &Event,
    text: &mut Vec<u8>,
) -> Result<(), TestFault>
    requires idle { IsIdle (T.means target) }
    requires askable { IsAskable (T.means target) opening.now }
    requires opens { ids_after [] opening.now ≡ id_of message.now ∷ [] }
    requires message { is_message message.now ≡ true }
{
    let mut held = Held::new(target);
    let is_back = is_taken_back(&mut held, opening);
    if let Err(fault) = open_comm(&mut held, opening) {
        held.end();
        return append_answer_copy(alloc, Err(fault), text);
    }
    let first = send_message(&mut held, message);
    let second = send_message(&mut held, message);
    let notes = held.notes();
    held.close(message.id().as_str());
    held.end();
    let done = append_answer_copy(alloc, first, text);
    append_answer_copy(alloc, second, text)?;
    done?;
    let end = format!(in alloc; "taken back {is_back}, notes {notes}\n")?;
    Ok(text.extend_from_slice(end.as_bytes())?)
}

/// A conversation about the comm `a` with a target of one's own.
fn conversation<T: Target>(
    alloc: Global,
    target: T,
    opening: Body,
    message: Body,
    text: &mut Vec<u8>,
) -> Result<(), TestFault>
    requires { IsIdle (T.means target) }
{
    let id = Text::copy_of(alloc, "a")?;
    let again = id.copy()?;
    let opening = Event::Open {
        id,
        version: None,
        body: opening,
    };
    let message = Event::Msg {
        id: again,
        body: message,
    };
    let end = talk(alloc, target, &opening, &message, text);
    drop(opening);
    drop(message);
    end
}

/// Reads `TARGET OPENING MESSAGE BUFFER..`, of the data of an opening and of a message. At the end stands what a
/// scripted target noted.
struct Conversations;

impl Subject for Conversations {
    fn answer(&self, alloc: Global, line: &str, text: &mut Vec<u8>) -> Result<(), TestFault> {
        let (name, words) = split_word(line);
        let (opening, message) = split_word(words);
        let log = CallLog::new(alloc)?;
        let again = log.share()?;
        let opening = body_of(alloc, opening)?;
        let message = body_of(alloc, message)?;
        if name == "echo" {
            conversation(alloc, Echo::new(alloc), opening, message, text)?;
        } else if name == "counter" {
            conversation(alloc, Counter::new(alloc), opening, message, text)?;
        } else if name == "plain" {
            conversation(alloc, PlainTarget::new(alloc), opening, message, text)?;
        } else if name == "latest" {
            conversation(alloc, Latest::new(alloc), opening, message, text)?;
        } else {
            let scripted = ScriptedTarget::with_log(alloc, "", again);
            conversation(alloc, scripted, opening, message, text)?;
        }
        log.take(text)?;
        Ok(append_words(&["\n"], text)?)
    }
}

const TALKS: [Case; 6] = [
    Case {
        name: "an echo sends each message back",
        lines: r#"echo {} {"n":1} 0102"#,
        want: r#"given message {"n":1} 0102
given message {"n":1} 0102
taken back true, notes 0

"#,
    },
    Case {
        name: "a counter counts the messages",
        lines: "counter {} {}",
        want: r#"given message {"count":1}
given message {"count":2}
taken back true, notes 2

"#,
    },
    Case {
        name: "a plain target hands each message on whole",
        lines: r#"plain {} {"n":1} 0102"#,
        want: r#"given custom {"n":1} 0102
given custom {"n":1} 0102
taken back true, notes 0

"#,
    },
    Case {
        name: "a latest keeps the data that came last",
        lines: r#"latest {"n":1} {"n":5} 0102"#,
        want: r#"given state {"n":5} []
given state {"n":5} []
taken back true, notes 0

"#,
    },
    Case {
        name: "a target ends once after its comms, where it answers and where it refuses",
        lines: r#"scripted {} {"n":1} 0102
scripted {} {"code":7} 0102
scripted {"code":7} {}"#,
        want: r#"taken back true, notes 0
 open:a abandon open:a commit message:a commit message:a commit close:a stop
Other(7)
Other(7)
taken back true, notes 0
 open:a abandon open:a commit message:a message:a close:a stop
Other(7)
 open:a open:a stop
"#,
    },
    Case {
        name: "an answer and its copy are the same",
        lines: r#"scripted {} {"state":{},"first":{"n":3},"custom":null} 0102"#,
        want: r#"given state {} []
given message {"n":3}
given custom null 0102
given state {} []
given message {"n":3}
given custom null 0102
taken back true, notes 0
 open:a abandon open:a commit message:a commit message:a commit close:a stop
"#,
    },
];

#[test]
fn targets_answer_by_themselves(rt: HostRuntime) -> Result<(), Fail> {
    Ok(run_cases(&rt, rt.alloc(), &Conversations, &TALKS)?)
}
