//! Scripts that are cut after each of their bytes: the whole lines are answered, and a part of a line isn't JSON.
use super::harness::{ScriptRun, expect_answers, program_limits};
use super::{ScriptCase, decimal_cases, echo_cases, frontend_cases, kernel_cases, widget_cases};
use comm_value::Numbers;
use std::alloc::{AllocError, Global};
use std::io::Eprint;
use std::sync::Wait;
use std::test::Fail;
use test_harness::{BOTH_MANAGERS, ManagerKind, TestFault, holds};

/// A line of a script: where it begins, the answers to what stands before it, and those to the line too.
#[derive(Drop)]
struct CutLine<'a> {
    number: usize,
    start: usize,
    bytes: &'a [u8],
    before: &'a [u8],
    answered: &'a [u8],
}

fn is_blank(bytes: &[u8]) -> bool {
    bytes
        .iter()
        .all(|byte| matches!(*byte, b' ' | b'\t' | b'\r' | b'\n'))
}

/// Whether this goes out with the reply before it. What answers an info request stands alone, and has no `call`.
fn goes_with_a_reply(answer: &[u8]) -> bool {
    answer.starts_with(b"out ") && !answer.starts_with(b"out {\"buffers\":[],\"client\":")
}

/// How long the answer is that stands first: a line, and what goes out with it.
fn first_answer(answers: &[u8]) -> usize {
    let mut length = 0usize;
    for answer in answers.split_inclusive(|byte| *byte == b'\n') {
        if length > 0 && !goes_with_a_reply(answer) {
            return length;
        }
        length = length.saturating_add(answer.len());
    }
    length
}

/// What must be written where the line is cut between these parts: the answers before it, and one to the part that is
/// left.
fn expected_answers(
    alloc: Global,
    line: &CutLine<'_>,
    part: &[u8],
    rest: &[u8],
) -> Result<Vec<u8>, AllocError> {
    let mut text = Vec::new(alloc);
    if is_blank(rest) {
        text.extend_from_slice(line.answered)?;
    } else {
        text.extend_from_slice(line.before)?;
        if !is_blank(part) {
            let number = line.number;
            text.extend_from_slice(format!(in alloc; "bad {number} not_json\n")?.as_bytes())?;
        }
    }
    Ok(text)
}

/// The line is cut before each of its bytes.
fn cut_each<R: Eprint + Wait>(
    rt: &R,
    alloc: Global,
    case: &ScriptCase,
    numbers: Numbers,
    over: ManagerKind,
    line: &CutLine<'_>,
) -> Result<(), TestFault> {
    let (name, number) = (case.name, line.number);
    for at in 0..line.bytes.len() {
        let name = format!(in alloc; "{name}, line {number} cut at {at}")?;
        let end = line.start.saturating_add(at);
        let script = ScriptRun {
            limits: program_limits(case.comms),
            numbers,
            ..ScriptRun::over(over, case.script.get(..end).unwrap_or(case.script))
        };
        let (part, rest) = line.bytes.split_at(at);
        let text = expected_answers(alloc, line, part, rest)?;
        expect_answers(rt, alloc, name.as_str(), &script, Ok(()), &text)?;
    }
    Ok(())
}

/// Each line of the case in turn.
fn cut_case<R: Eprint + Wait>(
    rt: &R,
    alloc: Global,
    case: &ScriptCase,
    numbers: Numbers,
    over: ManagerKind,
) -> Result<(), TestFault> {
    let mut start = 0usize;
    let mut answered = 0usize;
    for (before, bytes) in case
        .script
        .split_inclusive(|byte| *byte == b'\n')
        .enumerate()
    {
        let rest = case.answers.get(answered..).unwrap_or(b"");
        let own = if is_blank(bytes) {
            0
        } else {
            first_answer(rest)
        };
        let line = CutLine {
            number: before.saturating_add(1),
            start,
            bytes,
            before: case.answers.get(..answered).unwrap_or(b""),
            answered: case
                .answers
                .get(..answered.saturating_add(own))
                .unwrap_or(b""),
        };
        cut_each(rt, alloc, case, numbers, over, &line)?;
        start = start.saturating_add(bytes.len());
        answered = answered.saturating_add(own);
    }
    holds(case.answers.len() == answered, "answers are left over")
}

fn cut_all<R: Eprint + Wait>(
    rt: &R,
    alloc: Global,
    numbers: Numbers,
    cases: &[ScriptCase],
) -> Result<(), Fail> {
    for case in cases {
        for over in BOTH_MANAGERS {
            cut_case(rt, alloc, case, numbers, over)?;
        }
    }
    Ok(())
}

#[test]
fn cut_scripts_of_frontends_give_their_whole_lines(rt: HostRuntime) -> Result<(), Fail> {
    cut_all(&rt, rt.alloc(), Numbers::Whole, &frontend_cases::ROWS)
}

#[test]
fn cut_scripts_of_kernels_give_their_whole_lines(rt: HostRuntime) -> Result<(), Fail> {
    cut_all(&rt, rt.alloc(), Numbers::Whole, &kernel_cases::ROWS)
}

#[test]
fn cut_scripts_of_widgets_give_their_whole_lines(rt: HostRuntime) -> Result<(), Fail> {
    cut_all(&rt, rt.alloc(), Numbers::Whole, &widget_cases::ROWS)
}

#[test]
fn cut_scripts_of_widgets_that_echo_give_their_whole_lines(rt: HostRuntime) -> Result<(), Fail> {
    cut_all(&rt, rt.alloc(), Numbers::Whole, &echo_cases::ROWS)
}

#[test]
fn cut_scripts_of_widgets_that_echo_as_others_give_their_whole_lines(
    rt: HostRuntime,
) -> Result<(), Fail> {
    cut_all(&rt, rt.alloc(), Numbers::Whole, &echo_cases::AS_OTHERS)
}

#[test]
fn cut_scripts_of_decimals_give_their_whole_lines(rt: HostRuntime) -> Result<(), Fail> {
    cut_all(&rt, rt.alloc(), Numbers::Any, &decimal_cases::ROWS)
}
