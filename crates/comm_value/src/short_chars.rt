// The characters of a short string.
ghost use Rattle.std.specs.Prelude.{◌≡◌, ◌↔◌, IsSome, IfSome, ◌≤◌, length};

use std::marker::Model;
use std::str;

/// The longest string that stands inline, in bytes.
const LONGEST: usize = 46;

/// The characters of a string of at most 46 bytes, with its length in one byte right before them: a block of 56 bytes
/// beside a reference count, and both are read from one line of the cache.
#[derive(Drop)]
pub(crate) struct ShortChars {
    len: u8,
    bytes: [u8; LONGEST],
}

impl Model for ShortChars {
    ghost use Rattle.std.specs.Prelude.{◌≡◌, ◌≤◌, List, ℕ, take, IsUtf8};

    ghost Value = { List ℕ };

    ghost view = { λ s. take s.len s.bytes };

    ghost invariant = { λ s. (s.len ≤ 46) × ∥ IsUtf8 (take s.len s.bytes) ∥₁ };
}

impl ShortChars {
    /// A copy of these characters. None: they are more than 46 bytes.
    #[inline(always)]
    pub(crate) fn copy_of(text: &str) -> Option<ShortChars>
        ensures some { IsSome result ↔ (length text.now ≤ 46) }
        ensures value { IfSome result (λ s. s ≡ text.now) }
    {
        let len = text.len();
        if len > LONGEST {
            return None;
        }
        let mut bytes = [0; LONGEST];
        bytes[..len].copy_from_slice(text.as_bytes());
        Some(ShortChars {
            len: len as u8,
            bytes,
        })
    }

    /// The characters.
    #[inline]
    pub(crate) fn as_str(&self) -> &str
        ensures { result.now ≡ self.now }
    {
        unsafe { str::from_utf8_unchecked(&self.bytes[..self.len as usize]) }
    }
}
