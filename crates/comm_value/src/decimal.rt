ghost use Rattle.std.specs.Prelude.{◌≡◌, true, false, IfOk, MatchOption};
ghost use Rattle.comm_json.specs.Behind.{is_decimal};

use crate::text::Text;
use comm_json::is_decimal;
use std::alloc::{AllocError, Global};
use std::marker::Model;

/// A number that isn't whole, kept as the text that it has in its JSON (RFC 8259, 6): it has a fraction or an exponent,
/// is `-0`, or is no [`crate::Whole`]. Contracts see the text. Copies share it.
#[derive(Drop)]
pub struct Decimal {
    text: Text,
}

impl Model for Decimal {
    ghost use Rattle.std.specs.Prelude.{◌≡◌, true, List, ℕ};
    ghost use Rattle.comm_json.specs.Behind.{is_decimal};

    ghost Value = { List ℕ };

    ghost view = { λ d. d.text };

    ghost invariant = { λ d. is_decimal d.text ≡ true };
}

impl Decimal {
    /// The number of this text. None: the text is no such number. Err: out of memory.
    pub fn copy_of(alloc: Global, text: &str) -> Result<Option<Decimal>, AllocError>
        ensures { IfOk result (λ o. MatchOption o (is_decimal text.now ≡ false)
            (λ d. (d ≡ text.now) × (is_decimal text.now ≡ true))) }
    {
        if is_decimal(text) {
            let text = Text::copy_of(alloc, text)?;
            Ok(Some(Decimal { text }))
        } else {
            Ok(None)
        }
    }

    /// A copy that shares the text. Err: the reference count is at its maximum.
    pub fn copy(&self) -> Result<Decimal, AllocError>
        ensures { IfOk result (λ d. d ≡ self.now) }
    {
        Ok(Decimal {
            text: self.text.copy()?,
        })
    }

    /// The text.
    pub fn as_str(&self) -> &str
        ensures text { result.now ≡ self.now }
        ensures number { is_decimal self.now ≡ true }
    {
        self.text.as_str()
    }
}
