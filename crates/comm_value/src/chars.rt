// The characters of a string.
ghost use Rattle.std.specs.Prelude.{◌≡◌, IfOk};
ghost use Rattle.comm_value.specs.Chars.{bytes_in};

use crate::short_chars::ShortChars;
use std::alloc::{AllocError, Global};

/// The characters of a string. Up to 46 bytes stand inline beside the reference count: one allocation instead of two.
#[derive(Drop)]
pub(crate) enum Chars {
    Short(ShortChars),
    Long(String),
}

impl Chars {
    /// A copy of these characters. Err: out of memory.
    pub(crate) fn copy_of(alloc: Global, text: &str) -> Result<Chars, AllocError>
        ensures { IfOk result (λ c. bytes_in c ≡ text.now) }
    {
        match ShortChars::copy_of(text) {
            Some(short) => Ok(Chars::Short(short)),
            None => Ok(Chars::Long(String::from_str(alloc, text)?)),
        }
    }

    /// The characters.
    pub(crate) fn as_str(&self) -> &str
        ensures { result.now ≡ bytes_in self.now }
    {
        match self {
            Chars::Short(short) => short.as_str(),
            Chars::Long(long) => long.as_str(),
        }
    }
}
