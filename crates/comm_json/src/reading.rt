ghost use Rattle.std.specs.Prelude.{◌≡◌, Some, None, IfOk, IfErr};
ghost use Rattle.json.specs.Json.{object, no_members};
ghost use Rattle.json.specs.Lex.{tokens};
ghost use Rattle.json.specs.Value.{value_view};
ghost use Rattle.comm_json.specs.declared.reading.JsonFault.TheVariants.{NotJson};
ghost use Rattle.comm_json.specs.Behind.{tidy, text_value, line_value};

use crate::json_ref::LineValue;
use crate::ranges::numbers_are_in_range;
use bumpalo::Bump;
use json::{Error as ReadError, Reader, Scratch, Value};
use std::alloc::{AllocError, Global};
use thiserror::Error;

/// The memory that the strings of a text are parsed into: keep one from text to text. It holds as much as the longest
/// text so far needed.
#[derive(Drop)]
pub struct TextScratch {
    inner: Scratch,
}

impl TextScratch {
    /// An empty one, which has allocated nothing.
    pub fn new(alloc: Global) -> TextScratch {
        TextScratch {
            inner: Scratch::new(alloc),
        }
    }

    /// A reader of the tokens of a text, for what reads it without a tree. Strings are slices of the text, or of the
    /// scratch where they have escapes. Err: out of memory.
    #[inline(always)]
    pub fn reader<'a>(&'a mut self, text: &'a str) -> Result<Reader<'a>, AllocError>
        ensures { IfOk result (λ reader. reader ≡ tokens text.now) }
    {
        Reader::new(text, &mut self.inner)
    }
}

/// The memory that [`read_line`] parses into. Keep one from line to line: it holds as much as the longest line and the
/// largest tree so far needed.
#[derive(Drop)]
pub struct ParseArena {
    texts: TextScratch,
    lists: Bump,
}

impl ParseArena {
    /// An empty arena, which has allocated nothing.
    pub fn new(alloc: Global) -> ParseArena {
        ParseArena {
            texts: TextScratch::new(alloc),
            lists: Bump::new(alloc),
        }
    }
}

/// Why [`read_line`] gave no value.
#[derive(Clone, Copy, Debug, PartialEq, Eq, Drop, Error)]
pub enum JsonFault {
    /// The line isn't UTF-8, or isn't one JSON text that `serde_json` reads (RFC 8259; at most 127 levels deep).
    #[error("the line is not JSON")]
    NotJson,
    /// Out of memory.
    #[error("out of memory")]
    Memory,
}

// The levels of nesting that `serde_json` reads.
const DEPTH: usize = 127;

/// Parses a line as one JSON value (RFC 8259). Strings are slices of the line, or of the arena where they have escapes;
/// lists stand in the arena. Err: NotJson or Memory, after which the arena serves the next line as before.
pub fn read_line<'a>(line: &'a [u8], arena: &'a mut ParseArena) -> Result<LineValue<'a>, JsonFault>
    ensures value { IfOk result (λ v. line_value line.now ≡ Some (tidy (value_view v))) }
    ensures fault { IfErr result (λ e. e ≡ NotJson → line_value line.now ≡ None) }
{
    let ParseArena { texts, lists } = arena;
    // The lists of the last line were dropped. If one were left, the arena would grow instead of being emptied.
    let _ = lists.reset();
    read_among(line, texts, &*lists)
}

/// Parses a text as one JSON value (RFC 8259). Strings are slices of the text, or of the scratch where they have escapes;
/// lists stand in the arena, beside those of other values. So several texts can be read, each with a scratch of its own,
/// while the values of the others are in use. Err: NotJson or Memory.
pub fn read_among<'a>(
    line: &'a [u8],
    scratch: &'a mut TextScratch,
    lists: &'a Bump,
) -> Result<LineValue<'a>, JsonFault>
    ensures value { IfOk result (λ v. line_value line.now ≡ Some (tidy (value_view v))) }
    ensures fault { IfErr result (λ e. e ≡ NotJson → line_value line.now ≡ None) }
{
    match simdutf8::compat::from_utf8(line) {
        Ok(text) => read_text(text, scratch, lists),
        Err(_) => Err(JsonFault::NotJson),
    }
}

fn no_members<'a>(lists: &'a Bump) -> LineValue<'a>
    ensures { value_view result ≡ object no_members }
{
    Value::Object(Vec::new(lists))
}

fn read_text<'a>(
    text: &'a str,
    scratch: &'a mut TextScratch,
    lists: &'a Bump,
) -> Result<LineValue<'a>, JsonFault>
    ensures value { IfOk result (λ v. text_value text.now ≡ Some (tidy (value_view v))) }
    ensures fault { IfErr result (λ e. e ≡ NotJson → text_value text.now ≡ None) }
{
    // A message by parts has such metadata nearly always.
    if text == "{}" {
        return Ok(no_members(lists));
    }
    let Ok(mut reader) = scratch.reader(text) else {
        return Err(JsonFault::Memory);
    };
    match Value::read(lists, &mut reader, DEPTH) {
        Ok(value) => if reader.next().is_none() && numbers_are_in_range(&value) {
            Ok(value)
        } else {
            Err(JsonFault::NotJson)
        },
        Err(ReadError::OutOfMemory) => Err(JsonFault::Memory),
        Err(_) => Err(JsonFault::NotJson),
    }
}
