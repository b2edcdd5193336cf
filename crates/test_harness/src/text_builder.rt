//! A text that is put together without a test at each step.
ghost use Rattle.std.specs.Prelude.{◌≡◌, ◌++◌, [], true, IfOk, IsOk};

use std::alloc::{AllocError, Global};

/// A text that is appended to. Where memory runs out, the words are left out and `finish` fails, so what appends needs
/// no test of its own, and drops nothing in haste.
#[derive(Drop)]
pub struct TextBuilder {
    text: Vec<u8>,
    is_whole: bool,
}

impl TextBuilder {
    /// An empty text.
    pub fn new(alloc: Global) -> TextBuilder
        ensures { (result.text.items ≡ []) × (result.is_whole ≡ true) }
    {
        TextBuilder {
            text: Vec::new(alloc),
            is_whole: true,
        }
    }

    /// Makes room for `count` bytes more, which no append up to these takes memory for then. Err: memory.
    pub fn reserve(&mut self, count: usize) -> Result<(), AllocError> {
        self.text.reserve(count)
    }

    /// Begins anew, with the room that there is.
    pub fn clear(&mut self)
        ensures { (self.new.text.items ≡ []) × (self.new.is_whole ≡ true) }
    {
        self.text.clear();
        self.is_whole = true;
    }

    /// Appends words.
    pub fn push(&mut self, words: &str)
        ensures appended { self.new.is_whole ≡ true
            → self.new.text.items ≡ self.old.text.items ++ words.now }
        ensures kept { self.new.is_whole ≡ true → self.old.is_whole ≡ true }
    {
        self.push_bytes(words.as_bytes());
    }

    /// Appends bytes.
    pub fn push_bytes(&mut self, bytes: &[u8])
        ensures appended { self.new.is_whole ≡ true
            → self.new.text.items ≡ self.old.text.items ++ bytes.now }
        ensures kept { self.new.is_whole ≡ true → self.old.is_whole ≡ true }
    {
        let done = self.text.extend_from_slice(bytes);
        self.note(done);
    }

    /// Appends a word, a space, and the number in decimal digits.
    pub fn push_counted(&mut self, word: &str, number: u64) {
        self.push(word);
        self.push(" ");
        self.push_number(number);
    }

    /// Appends a number in decimal digits.
    pub fn push_number(&mut self, number: u64) {
        let mut digits = itoa::Buffer::new();
        self.push(digits.format(number));
    }

    /// The bytes, for a function that appends to them itself. What it returns is for `note`.
    pub fn bytes_mut(&mut self) -> &mut Vec<u8> {
        &mut self.text
    }

    /// Notes whether an append ran out of memory.
    pub fn note(&mut self, done: Result<(), AllocError>)
        ensures kept { self.new.text ≡ self.old.text }
        ensures whole { self.new.is_whole ≡ true → (self.old.is_whole ≡ true) × IsOk done }
    {
        self.is_whole = self.is_whole && done.is_ok();
    }

    /// What was appended so far.
    pub fn as_bytes(&self) -> &[u8]
        ensures { result.now ≡ self.now.text.items }
    {
        &self.text
    }

    /// Whether memory sufficed so far.
    pub fn is_whole(&self) -> bool
        ensures { result ≡ self.now.is_whole }
    {
        self.is_whole
    }

    /// The text. Err: memory ran out on the way.
    pub fn finish(self) -> Result<Vec<u8>, AllocError>
        ensures { IfOk result (λ text. (text.items ≡ self.text.items) × (self.is_whole ≡ true)) }
    {
        if self.is_whole {
            Ok(self.text)
        } else {
            Err(AllocError)
        }
    }
}
