//! Whether what came of a scenario is as it should be.
use crate::expected::text_of;
use crate::flags::Flags;
use crate::history::{HistoryText, history_text};
use crate::replay::{Replay, replay_history};
use crate::report::Reports;
use crate::scenario::Scenario;
use comm_manager::Farewell;
use comm_targets::Target;
use std::alloc::{AllocError, Global};
use test_harness::{TestFault, TextBuilder};

/// What came of a scenario.
#[derive(Drop)]
pub struct Judgement {
    /// What isn't as it should be, in lines; nothing where all is.
    pub wrong: Vec<u8>,
    /// The history's replies and its messages; nothing after a discard.
    pub history: Vec<u8>,
}

fn note(is: bool, words: &str, wrong: &mut TextBuilder) {
    if !is {
        wrong.push(words);
        wrong.push("\n");
    }
}

// What each text came to; and no target waited in vain, or ended with an open comm.
fn judge_reports(reports: &Reports, flags: &Flags, wrong: &mut TextBuilder) {
    wrong.push_bytes(reports.wrong.as_bytes());
    for report in &reports.list {
        wrong.push_bytes(report.wrong.as_bytes());
        let is_said = report.is_well == report.wrong.as_bytes().is_empty();
        note(is_said, "no memory to say what is wrong", wrong);
    }
    note(flags.late() == 0, "a target waited in vain", wrong);
    let (_, ended_open) = flags.ended();
    note(ended_open == 0, "a target ended with an open comm", wrong);
}

// The history is what the clients were answered, and what was taken or wasn't.
fn judge_history(
    alloc: Global,
    reports: &Reports,
    text: &HistoryText,
    untaken: &HistoryText,
    wrong: &mut TextBuilder,
) {
    for client in 0..4u8 {
        let is_answered = match text.replies.of(client) {
            Some(replies) => replies.is_whole()
                && reports.has_replies(alloc, client, replies.as_bytes()),
            None => false,
        };
        note(
            is_answered,
            "a client was answered what isn't in the history",
            wrong,
        );
    }
    let are_all = text.entries.is_whole()
        && untaken.entries.is_whole()
        && reports.has_taken(alloc, untaken.entries.as_bytes(), text.entries.as_bytes());
    note(
        are_all,
        "what was taken and what wasn't aren't the history",
        wrong,
    );
    note(
        text.are_numbered,
        "a client's changes aren't numbered from 1",
        wrong,
    );
    note(text.is_ended, "no end stands last", wrong);
}

fn push_sum(word: &str, number: u64, sums: &mut TextBuilder) {
    sums.push_counted(word, number);
    sums.push("\n");
}

// How many changes each client has.
fn push_counts(counts: &[u64; 4], sums: &mut TextBuilder) {
    let [first, second, third, fourth] = *counts;
    push_sum("of 0", first, sums);
    push_sum("of 1", second, sums);
    push_sum("of 2", third, sums);
    push_sum("of 3", fourth, sums);
}

// Each line that is wanted is one of the sums.
fn judge_sums(sums: &[u8], wanted: &str, wrong: &mut TextBuilder) {
    for line in wanted.lines() {
        if !text_of(sums).lines().any(|sum| sum == line) {
            wrong.push(line);
            wrong.push("\nisn't among these:\n");
            wrong.push_bytes(sums);
        }
    }
}

// A manager of one thread answers the history's calls as the clients were, and leaves as many targets.
fn judge_replay<T: Target>(
    replayed: &Result<Replay<T>, TestFault>,
    text: &HistoryText,
    left: usize,
    sums: &mut TextBuilder,
    wrong: &mut TextBuilder,
) {
    match replayed {
        Ok(replay) => {
            let is_same = text.whole.is_whole()
                && replay.whole.is_whole()
                && replay.whole.as_bytes() == text.whole.as_bytes()
                && replay.targets.len() == left;
            note(is_same, "a manager of one thread answers otherwise", wrong);
            push_sum("most", replay.most as u64, sums);
        }
        Err(TestFault(why)) => note(false, why, wrong),
    }
}

// The history, and what it is when it is played again. Gives its replies and messages.
fn judge_farewell<T: Target>(
    alloc: Global,
    scenario: &Scenario,
    reports: &Reports,
    farewell: Farewell,
    left: usize,
    fresh: Vec<T>,
    sums: &mut TextBuilder,
    wrong: &mut TextBuilder,
) -> TextBuilder {
    let text = history_text(alloc, &farewell.history.entries);
    let untaken = history_text(alloc, &farewell.untaken);
    judge_history(alloc, reports, &text, &untaken, wrong);
    push_sum("history", farewell.history.entries.len() as u64, sums);
    push_sum("untaken", farewell.untaken.len() as u64, sums);
    push_counts(&text.counts, sums);
    let replayed = replay_history(alloc, scenario.limits(), &farewell.history.entries, fresh);
    judge_replay(&replayed, &text, left, sums, wrong);
    drop(replayed);
    drop(farewell);
    let HistoryText { whole, .. } = text;
    whole
}

// The words of a judgement, where there was memory for them.
fn finish_judgement(wrong: TextBuilder, history: TextBuilder) -> Result<Judgement, AllocError> {
    Ok(Judgement {
        wrong: wrong.finish()?,
        history: history.finish()?,
    })
}

/// What came of a scenario, of whose targets so many are left. `fresh` are as many targets as it had, which play its
/// history again.
pub(crate) fn judge_run<T: Target>(
    alloc: Global,
    scenario: &Scenario,
    reports: Reports,
    farewell: Option<Farewell>,
    left: usize,
    fresh: Vec<T>,
    flags: &Flags,
) -> Result<Judgement, TestFault> {
    let mut wrong = TextBuilder::new(alloc);
    let mut sums = TextBuilder::new(alloc);
    judge_reports(&reports, flags, &mut wrong);
    let (ended, _) = flags.ended();
    push_sum("ends", ended, &mut sums);
    // Nobody waits when the history is played again.
    flags.release();
    let history = match farewell {
        Some(farewell) => judge_farewell(
            alloc, scenario, &reports, farewell, left, fresh, &mut sums, &mut wrong,
        ),
        None => TextBuilder::new(alloc),
    };
    judge_sums(sums.as_bytes(), scenario.sums, &mut wrong);
    drop(reports);
    drop(sums);
    Ok(finish_judgement(wrong, history)?)
}
