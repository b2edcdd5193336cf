ghost use Rattle.std.specs.Str.{bytes_eq};
ghost use Rattle.std.specs.Prelude.{◌≡◌, ◌<◌, ◌∷◌, [], ℕ, length, true, Some, IfSome, OnSome};
ghost use Rattle.std.specs.Str.{IsUtf8};
ghost use Rattle.json.specs.Json.{string, value};
ghost use Rattle.json.specs.Lex.{tokens};
ghost use Rattle.json.specs.Token.{begin_object};
ghost use Rattle.json.specs.Value.{value_view};
ghost use Rattle.comm_json.specs.Behind.{in_range};

use bumpalo::Bump;
use comm_json::{LineValue, TextScratch, numbers_are_in_range};
use json::{Reader, Token, Value};

/// A reader of the tokens of a text in UTF-8; what of it has escapes is written to the scratch. None: it isn't UTF-8,
/// or memory ran out.
#[inline(always)]
pub fn reader_of<'a>(bytes: &'a [u8], scratch: &'a mut TextScratch) -> Option<Reader<'a>>
    ensures utf8 { OnSome result (IsUtf8 bytes.now) }
    ensures tokens { IfSome result (λ r. r ≡ tokens bytes.now) }
{
    let text = simdutf8::compat::from_utf8(bytes).ok()?;
    scratch.reader(text).ok()
}

/// Reads the brace that begins an object. None: another token is next.
#[inline(always)]
pub fn enter(reader: &mut Reader<'_>) -> Option<()>
    ensures { OnSome result (reader.old ≡ begin_object ∷ reader.new) }
{
    match reader.next()? {
        Token::BeginObject => Some(()),
        _ => None,
    }
}

/// Reads the end of the text. None: a token is next.
#[inline(always)]
pub fn end(reader: &mut Reader<'_>) -> Option<()>
    ensures { OnSome result (reader.old ≡ []) }
{
    match reader.next() {
        None => Some(()),
        Some(_) => None,
    }
}

/// Reads a string. None: another token is next.
#[inline(always)]
pub fn read_string<'a>(reader: &mut Reader<'a>) -> Option<&'a str>
    ensures value { IfSome result (λ s. (depth : ℕ)
        → value depth reader.old ≡ Some (string s.now, reader.new)) }
    ensures shorter { OnSome result (length reader.new < length reader.old) }
{
    match reader.next()? {
        Token::String(text) => Some(text),
        _ => None,
    }
}

/// Reads the next value, which nests at most so deep. None: it is none, a number in it is out of range, or memory ran
/// out.
pub fn read_value<'a>(
    reader: &mut Reader<'a>,
    lists: &'a Bump,
    depth: usize,
) -> Option<LineValue<'a>>
    ensures value { IfSome result (λ v. value depth reader.old ≡ Some (value_view v, reader.new)) }
    ensures fits { IfSome result (λ v. in_range (value_view v) ≡ true) }
    ensures shorter { OnSome result (length reader.new < length reader.old) }
{
    let value = Value::read(lists, reader, depth).ok()?;
    if numbers_are_in_range(&value) {
        Some(value)
    } else {
        None
    }
}

/// Whether the key is this name. For a name that is a constant, the bytes are compared where this is called; `==` of
/// texts is a call.
#[inline(always)]
pub fn is_named(key: &str, name: &str) -> bool
    ensures { result ≡ bytes_eq key.now name.now }
{
    key.len() == name.len() && has_same_bytes(key.as_bytes(), name.as_bytes())
}

// Whether two texts of one length have the same bytes.
#[inline(always)]
fn has_same_bytes(key: &[u8], name: &[u8]) -> bool
    requires { length key.now ≡ length name.now }
    ensures { result ≡ bytes_eq key.now name.now }
{
    let mut at = 0;
    while at < name.len() {
        if key[at] != name[at] {
            return false;
        }
        at += 1;
    }
    true
}
