//! Tables of texts.
use crate::comparison::expect_text;
use crate::test_fault::TestFault;
use std::alloc::Global;
use std::io::Eprint;

/// A case: what it shows, the lines that are read, and the text that is wanted for them.
#[derive(Clone, Copy)]
pub struct Case {
    pub name: &'static str,
    pub lines: &'static str,
    pub want: &'static str,
}

/// What the lines of a table are tried on, each by itself.
pub trait Subject {
    /// Appends what comes of a line.
    fn answer(&self, alloc: Global, line: &str, text: &mut Vec<u8>) -> Result<(), TestFault>;
}

fn answers_to<S: Subject>(alloc: Global, subject: &S, lines: &str) -> Result<Vec<u8>, TestFault> {
    let mut text = Vec::new(alloc);
    for line in lines.lines() {
        subject.answer(alloc, line, &mut text)?;
    }
    Ok(text)
}

/// Whether a case came to the text that is wanted. Another text, or why there is none, is printed to standard error
/// behind the case's name.
pub fn is_expected<E: Eprint>(rt: &E, case: &Case, came: Result<Vec<u8>, TestFault>) -> bool {
    match came {
        Ok(text) => expect_text(rt, case.name, &text, case.want.as_bytes()).is_ok(),
        Err(TestFault(what)) => {
            let name = case.name;
            let _is_printed = eprintln!(rt; "{name}: {what}");
            false
        }
    }
}

/// Tries each case of a table. Err where one isn't as wanted: each such case is printed to standard error.
pub fn run_cases<E: Eprint, S: Subject>(
    rt: &E,
    alloc: Global,
    subject: &S,
    cases: &[Case],
) -> Result<(), TestFault> {
    let mut all = true;
    for case in cases {
        let is = is_expected(rt, case, answers_to(alloc, subject, case.lines));
        all = all && is;
    }
    if all {
        Ok(())
    } else {
        Err(TestFault("a case differs"))
    }
}
