ghost use Rattle.std.specs.Prelude.{◌≡◌, ◌==◌, ◌<◌, length, IsTrue, IfSome, Some, None, option_map, slice_index};
ghost use Rattle.std.specs.Prelude.{false, true};
ghost use Rattle.serde_json.specs.Data.{unsigned};
ghost use Rattle.serde_json.specs.View.{number_view};
ghost use Rattle.serde_json.specs.Find.{as_integer};
ghost use Rattle.serde_json.specs.Read.{number_of, number_from};
ghost use Rattle.comm_json.specs.Behind.{number_ref_text, whole_of, Fits, is_decimal};

use fast_float::Numeral;
use serde_json::Number;

/// A JSON number: one that `serde_json` made, or the text that one has in a line.
#[derive(Clone, Copy)]
pub enum NumberRef<'v> {
    Read(Number),
    Written(&'v str),
}

impl<'v> NumberRef<'v> {
    /// The whole number that it is. None: it has a fraction or an exponent, is `-0`, or lies beyond 64 bits.
    pub fn whole(self) -> Option<i128>
        ensures value { result ≡ whole_of (number_ref_text self.entry) }
        ensures within { IfSome result (λ z. Fits z) }
    {
        match self {
            NumberRef::Read(number) => whole_in(&number),
            NumberRef::Written(text) => match few_digits(text) {
                Some(n) => Some(n as i128),
                None => match number_in(text) {
                    Some(number) => whole_in(&number),
                    None => None,
                },
            },
        }
    }

    /// The text of a number that isn't whole, as it stands in the line. It is empty for a float that `serde_json` made,
    /// which has lost its text.
    pub fn other_text(self) -> &'v str
        requires { whole_of (number_ref_text self) ≡ None }
        ensures { result.now ≡ number_ref_text self.entry }
    {
        match self {
            NumberRef::Read(number) => {
                // A float: there is no whole number in it.
                whole_in(&number);
                ""
            }
            NumberRef::Written(text) => text,
        }
    }
}

fn whole_in(number: &Number) -> Option<i128>
    ensures value { result ≡ as_integer (number_view number.now) }
    ensures within { IfSome result (λ z. Fits z) }
{
    match number.as_u64() {
        Some(n) => Some(n as i128),
        None => match number.as_i64() {
            Some(n) => Some(n as i128),
            None => None,
        },
    }
}

/// Whether it is the text of a JSON number (RFC 8259, 6) that isn't whole, within a float's range.
pub fn is_decimal(text: &str) -> bool
    ensures { result ≡ is_decimal text.now }
{
    json::is_number(text)
        && match number_in(text) {
            Some(number) => number.as_u64().is_none() && number.as_i64().is_none(),
            None => false,
        }
}

/// The number that a text of one to 18 digits denotes, as nearly every number of a message does. None: another text.
#[inline]
pub fn few_digits(text: &str) -> Option<u64>
    ensures { IfSome result (λ n. number_of text.now ≡ Some (unsigned n)) }
{
    let digits = text.as_bytes();
    if digits.is_empty() || digits.len() > 18 {
        return None;
    }
    let mut value = 0;
    for digit in digits {
        if !digit.is_ascii_digit() {
            return None;
        }
        value = value * 10 + (*digit - b'0') as u64;
    }
    Some(value)
}

/// The number that a text denotes (RFC 8259, 6), where it is in `serde_json`'s range.
pub fn number_in(text: &str) -> Option<Number>
    ensures { option_map number_view result ≡ number_of text.now }
{
    let bytes = text.as_bytes();
    if has_minus(bytes) {
        below_zero(&Numeral::scan(&bytes[1..]))
    } else {
        above_zero(&Numeral::scan(bytes))
    }
}

fn has_minus(bytes: &[u8]) -> bool
    ensures minus { result ≡ (slice_index bytes.now 0 == 45) }
    ensures some { IsTrue result → 0 < length bytes.now }
{
    !bytes.is_empty() && bytes[0] == b'-'
}

fn above_zero(numeral: &Numeral<'_>) -> Option<Number>
    ensures { option_map number_view result ≡ number_from false numeral.now }
{
    match numeral.to_u64() {
        Some(n) => Some(Number::from(n)),
        None => Number::from_f64(numeral.to_float::<f64>(false)),
    }
}

fn below_zero(numeral: &Numeral<'_>) -> Option<Number>
    ensures { option_map number_view result ≡ number_from true numeral.now }
{
    match numeral.to_i64(true) {
        Some(n) if n < 0 => Some(Number::from(n)),
        _ => Number::from_f64(numeral.to_float::<f64>(true)),
    }
}
