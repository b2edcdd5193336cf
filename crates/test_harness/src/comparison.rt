//! How a case of a table fails.
use crate::test_fault::TestFault;
use std::io::Eprint;

fn print_difference<R: Eprint>(rt: &R, name: &str, line: usize, came: &str, wanted: &str) {
    let _is_printed = eprintln!(rt; "{name}: line {line}\n  came   {came}\n  wanted {wanted}");
}

const NOTHING: &str = "(nothing)";

// The first line that differs.
fn print_first_difference<R: Eprint>(rt: &R, name: &str, got: &str, want: &str) {
    let mut wanted = want.lines();
    let mut number = 1_usize;
    for came in got.lines() {
        match wanted.next() {
            Some(line) if line == came => number = number.saturating_add(1),
            Some(line) => return print_difference(rt, name, number, came, line),
            None => return print_difference(rt, name, number, came, NOTHING),
        }
    }
    match wanted.next() {
        Some(line) => print_difference(rt, name, number, NOTHING, line),
        None => print_difference(
            rt,
            name,
            number,
            "the same lines",
            "another end of the text",
        ),
    }
}

/// Compares the text of a case with the one that is wanted. Err where they differ: then the case's name, the first line
/// that differs, what came and what was wanted are printed to standard error.
pub fn expect_text<R: Eprint>(
    rt: &R,
    name: &str,
    got: &[u8],
    want: &[u8],
) -> Result<(), TestFault> {
    if got == want {
        return Ok(());
    }
    match (std::str::from_utf8(got), std::str::from_utf8(want)) {
        (Ok(got), Ok(want)) => print_first_difference(rt, name, got, want),
        _ => print_difference(
            rt,
            name,
            0,
            "what is no text",
            "a text, or the other way round",
        ),
    }
    Err(TestFault("a text differs"))
}
