//! What is tried, and what must come of it, in words.
use crate::tests::line_cases::LineCase;
use comm_core::Limits;
use comm_targets::Kind;
use std::alloc::{AllocError, Global};
use test_harness::{ManagerKind, split_word};
use test_support::{refuse, was_refused};

/// Which call meets the refusal.
#[derive(Clone, Copy, Debug, PartialEq, Eq, Drop)]
pub enum RefusedStep {
    /// The whole change.
    Step,
    /// A change is prepared, and then withdrawn.
    Begin,
    /// The entry of a change that stands ready.
    Entry,
    /// The row of a change that stands ready.
    Row,
    /// A change that stands ready is made.
    Finish,
    /// A change that stands ready is withdrawn.
    Withdraw,
    /// A read.
    Read,
    /// No call: the line is several lines, which a target refuses with Memory, but for the last.
    Lines,
    /// `ManagerBuilder::new` and `Manager::open`.
    Opening,
    /// A shutdown.
    Shutdown,
    /// A shutdown of a long history that was taken, with room for what wasn't.
    ShutdownTaken,
    /// A client hears a stamp, the publisher takes an entry, and the manager is discarded.
    Discard,
}

/// What is tried: the case's line, of this kind of target, with so many comms open beside one.
#[derive(Drop)]
pub struct Trial {
    pub over: ManagerKind,
    pub step: RefusedStep,
    pub kind: Kind,
    pub more: usize,
    pub case: &'static LineCase,
}

/// Room for more comms than any test here opens.
pub const LIMITS: Limits = Limits {
    clients: 2,
    comms: 128,
    history: 1_000,
    outbox: 128,
};

/// What is said where memory runs out: that of `thread_harness`, and the line's end.
pub const MEMORY: &str = "no_memory\n";

/// What is said of a change that is withdrawn.
pub const READY: &str = "ready\n";

/// What is said of a target that a change takes out.
pub const ENDED: &str = "ended\n";

/// How often a client closes what isn't there, for a long history.
pub const MANY: usize = 600;

/// Asks for a refusal, where the number isn't 0.
pub fn refuse_at(alloc: Global, number: u32) {
    let _is_heard = number > 0 && refuse(alloc, number);
}

/// Whether the allocation of this number was refused.
pub fn was_refused_at(alloc: Global, number: u32) -> bool {
    number > 0 && was_refused(alloc)
}

/// Whether the line's change was made, or the line's read answered, by the call that met the refusal.
pub fn is_made(step: RefusedStep, is_refused: bool) -> bool {
    !is_refused && step != RefusedStep::Begin && step != RefusedStep::Withdraw
}

// How many changes were made before.
fn front_of(trial: &Trial) -> usize {
    match trial.over {
        ManagerKind::OneThread => 0,
        ManagerKind::Shared => trial.more.saturating_add(2),
    }
}

// What a manager has: how many comms, and the state of `a`.
fn look_of(alloc: Global, trial: &Trial) -> Result<String, AllocError> {
    let (front, comms) = (front_of(trial), trial.more.saturating_add(1));
    let state = match trial.kind {
        Kind::Echo | Kind::Counter => "no_state",
        _ =>
            r#"{"buffer_paths":[],"buffers":[],"state":{"other":[null,"text",{"k":2}],"value":1}}"#,
    };
    match trial.over {
        ManagerKind::OneThread => format!(in alloc;
            "settled\ncomms {comms}\nstate {front} {state}\n"
        ),
        ManagerKind::Shared => format!(in alloc;
            "seen {front}\ncomms {comms}\nstate {front} {state}\n"
        ),
    }
}

// What the line is answered.
fn answer_of(alloc: Global, trial: &Trial) -> Result<String, AllocError> {
    let LineCase {
        line,
        words,
        outs,
        ..
    } = trial.case;
    let front = front_of(trial);
    let next = front.saturating_add(1);
    match split_word(line) {
        ("infos" | "listing" | "count", _) => format!(in alloc; "{words}\n"),
        ("state", _) => format!(in alloc; "state {front} {words}\n"),
        _ if trial.over == ManagerKind::Shared => format!(in alloc; "reply {next} {words}\n"),
        _ => format!(in alloc; "reply 1 {words}\n{outs}"),
    }
}

// What is said before the answer.
fn before_answer(trial: &Trial, is_refused: bool) -> &'static str {
    match trial.step {
        RefusedStep::Lines => "no_memory\nno_memory\nno_memory\n",
        _ if is_refused => MEMORY,
        RefusedStep::Begin | RefusedStep::Withdraw => READY,
        _ => "",
    }
}

// What is said of the target that a change takes out, where what stood ready is made.
fn end_word(trial: &Trial, is_refused: bool) -> &'static str {
    let words = trial.case.words;
    let takes_out = words.starts_with("unregistered") || words.starts_with("replaced");
    if takes_out
        && !is_refused
        && matches!(
            trial.step,
            RefusedStep::Finish | RefusedStep::Entry | RefusedStep::Row
        )
    {
        ENDED
    } else {
        ""
    }
}

fn expected_change(alloc: Global, trial: &Trial, is_refused: bool) -> Result<String, AllocError> {
    let look = look_of(alloc, trial)?;
    let answer = answer_of(alloc, trial)?;
    let before = before_answer(trial, is_refused);
    if trial.step == RefusedStep::Lines || is_made(trial.step, is_refused) {
        let end = end_word(trial, is_refused);
        return format!(in alloc; "{look}{before}{answer}{end}");
    }
    format!(in alloc; "{look}{before}{look}{answer}")
}

// How a shared manager ends after so many changes.
fn end_of(alloc: Global, changes: usize, untaken: usize) -> Result<String, AllocError> {
    let (all, untaken) = (changes.saturating_add(1), untaken.saturating_add(1));
    format!(in alloc; "history {all} untaken {untaken} end true\n")
}

fn expected_of_shared(
    alloc: Global,
    trial: &Trial,
    is_refused: bool,
) -> Result<String, AllocError> {
    let front = front_of(trial);
    match trial.step {
        RefusedStep::Opening if is_refused => format!(in alloc; "{MEMORY}"),
        RefusedStep::Opening | RefusedStep::Shutdown => {
            let (look, end) = (look_of(alloc, trial)?, end_of(alloc, front, front)?);
            let before = before_answer(trial, is_refused);
            format!(in alloc; "{look}{before}{end}")
        }
        RefusedStep::ShutdownTaken => {
            let changes = front.saturating_add(MANY);
            let (look, end) = (look_of(alloc, trial)?, end_of(alloc, changes, 0)?);
            format!(in alloc; "{look}{end}")
        }
        RefusedStep::Discard => {
            let look = look_of(alloc, trial)?;
            let heard = front.saturating_add(1);
            format!(in alloc; "{look}heard {heard}\nseen {heard}\nid 1\ntaken 1\n")
        }
        _ => {
            let made = if trial.step == RefusedStep::Read {
                front
            } else {
                front.saturating_add(1)
            };
            let (change, end) = (
                expected_change(alloc, trial, is_refused)?,
                end_of(alloc, made, made)?,
            );
            format!(in alloc; "{change}{end}")
        }
    }
}

/// What must be said, where an allocation was refused and where none was.
pub fn expected_text(alloc: Global, trial: &Trial, is_refused: bool) -> Result<String, AllocError> {
    match trial.over {
        ManagerKind::OneThread => expected_change(alloc, trial, is_refused),
        ManagerKind::Shared => expected_of_shared(alloc, trial, is_refused),
    }
}
