//! Texts that were met before.
ghost use Rattle.std.specs.Prelude.{◌≡◌, ◌≤◌, [], IfOk, length};
ghost use Rattle.comm_value.specs.KnownTexts.{AreFewAndShort};

use crate::text::Text;
use std::alloc::{AllocError, Global};
use std::marker::Model;

/// How many short texts are kept at most, and as many longer ones; two to the power of [`PLACE_BITS`].
const PLACES: usize = 1024;

const PLACE_BITS: u32 = 10;

/// The longest of the short texts, as keys and the words of a protocol are.
const LONGEST_SHORT: usize = 24;

/// The longest text that is kept; an id as long as a UUID is.
const LONGEST: usize = 40;

/// Texts that were met before, so that the keys and the id of one message are shared with those of the last.
///
/// It is memory alone: [`KnownTexts::text`] gives what it is asked for, whatever is kept. At most 1,024 texts of up to
/// 24 bytes are kept, and 1,024 of up to 40, until the owner goes. Contracts see the texts that are kept.
#[derive(Drop)]
pub struct KnownTexts {
    // None, or one at each place: the empty text where no other was met.
    places: Vec<Text>,
    keeps: bool,
}

impl Model for KnownTexts {
    ghost use Rattle.std.specs.Prelude.{List, ℕ};
    ghost use Rattle.comm_value.specs.KnownTexts.{AreFewAndShort};

    ghost Value = { List (List ℕ) };

    ghost view = { λ t. t.places.items };

    ghost invariant = { λ t. AreFewAndShort t.places.items };
}

impl KnownTexts {
    /// None yet; it takes memory when it keeps its first text.
    pub fn new(alloc: Global) -> KnownTexts
        ensures { result ≡ [] }
    {
        KnownTexts {
            places: Vec::new(alloc),
            keeps: true,
        }
    }

    /// One that stays without any, for what is read once.
    pub fn none(alloc: Global) -> KnownTexts
        ensures { result ≡ [] }
    {
        KnownTexts {
            places: Vec::new(alloc),
            keeps: false,
        }
    }

    /// A text of these characters: the one that was met before, or else a copy, which is kept where it is no longer than
    /// 40 bytes. Err: out of memory, or a reference count at its maximum.
    #[inline(always)]
    pub fn text(&mut self, alloc: Global, text: &str) -> Result<Text, AllocError>
        ensures text { IfOk result (λ t. t ≡ text.now) }
        ensures kept { AreFewAndShort self.new }
    {
        let place = place_of(text.as_bytes());
        if let Some(known) = self.places.get(place) {
            if known.is(text) {
                return known.copy();
            }
        }
        self.unknown(alloc, text, place)
    }

    // A text that isn't at its place, where it is kept if it is short. Err: out of memory.
    #[inline(never)]
    fn unknown(&mut self, alloc: Global, text: &str, place: usize) -> Result<Text, AllocError>
        ensures text { IfOk result (λ t. t ≡ text.now) }
        ensures kept { AreFewAndShort self.new }
    {
        if text.len() > LONGEST || !self.keeps {
            return Text::copy_of(alloc, text);
        }
        let made = Text::copy_of(alloc, text)?;
        self.keep(alloc, place, made.copy()?)?;
        Ok(made)
    }

    // Keeps a text at a place, in that of the one that is there. Err: out of memory.
    fn keep(&mut self, alloc: Global, place: usize, text: Text) -> Result<(), AllocError>
        requires short { length text ≤ 40 }
        ensures kept { AreFewAndShort self.new }
    {
        if self.places.is_empty() {
            self.places = empty_places(alloc)?;
        }
        if let Some(at) = self.places.get_mut(place) {
            *at = text;
        }
        Ok(())
    }
}

// The empty text, at each place. Err: out of memory.
fn empty_places(alloc: Global) -> Result<Vec<Text>, AllocError>
    ensures { IfOk result (λ places. AreFewAndShort places.items) }
{
    let empty = Text::copy_of(alloc, "")?;
    let mut places = Vec::with_capacity(alloc, 2 * PLACES)?;
    for _ in 0..2 * PLACES {
        places.push(empty.copy()?)?;
    }
    Ok(places)
}

// Where a text is kept, by its last four bytes, in which ids differ and numbered keys too, and by its length. The short
// ones, such as keys and the words of a protocol, have places of their own, which no ids take from them.
#[inline(always)]
fn place_of(bytes: &[u8]) -> usize {
    let end = match bytes.last_chunk::<4>() {
        Some(end) => spread(u32::from_be_bytes(*end)),
        None => match bytes.last() {
            Some(byte) => *byte as usize,
            None => 0,
        },
    };
    let place = end.wrapping_add(bytes.len().wrapping_mul(7)) % PLACES;
    if bytes.len() <= LONGEST_SHORT {
        place
    } else {
        PLACES + place
    }
}

// The highest bits of the product with the golden ratio: numbers that follow each other get places far apart.
fn spread(number: u32) -> usize {
    (number.wrapping_mul(0x9E37_79B1) >> (32 - PLACE_BITS)) as usize
}
