//! The one history, which exists in proofs alone.
ghost use Rattle.std.specs.Prelude.{◌≡◌, []};
ghost use Rattle.comm_versions.specs.Known.{known, origin};

use crate::raw_front::RawFront;
use crate::stamp::Stamp;
use comm_core::Entry;
use logbook::{Gain, Plain, Play, Rule, Seen, Start, Word};
use std::alloc::Global;
use std::marker::{Brand, Model, PhantomData};
use std::sync::Arc;

/// Which history it is, and the limits by which it is legal. Each call of a function that makes versions picks them,
/// in its proof; no code looks at them.
pub trait History {
    ghost use Rattle.logbook.specs.Pages.{Book};
    ghost use Rattle.comm_core.specs.declared.limits.Limits.{Limits};

    ghost book: { Book };

    ghost limits: { Limits };
}

impl History for Brand {
    ghost book = { record { number = 0; log_name = 0; cells_name = 0 } };

    ghost limits = { record { clients = 1; comms = 1; history = 1; outbox = 1 } };
}

/// The rule of the history's book: what stands in it is a legal history.
pub struct HistoryRule;

impl Rule<Entry, u64> for HistoryRule {
    ghost use Rattle.std.specs.Prelude.{[]};
    ghost use base.Fml.{ftrue};
    ghost use Rattle.comm_versions.specs.Rules.{IsHistoryBook};

    ghost holds = { λ cells log. IsHistoryBook cells log };

    ghost first = { [] };

    ghost hinted = { λ n log. Unit {0} };

    ghost shows = { λ log. [] };

    ghost keeps = { λ names log. ftrue };

    ghost moves = { λ ask before after answer. Unit {0} };
}

/// A step of the book that trades nothing.
pub struct NoOffer;

impl Gain<Entry, u64> for NoOffer {
    ghost use base.Fml.{ftrue};

    ghost after = { λ names about answer. ftrue };
}

/// What tells an entry of the history. The entry itself needn't be made: the history exists in proofs alone.
pub trait EntrySource {
    ghost use Rattle.comm_core.specs.declared.entry.Entry.{Entry};

    ghost entry: { Self → Entry };
}

impl EntrySource for Arc<Entry, Global> {
    ghost use Rattle.std.specs.Arc.{arc_value};

    ghost entry = { λ shared. arc_value shared };
}

/// The step that appends an entry.
pub struct AppendStep;

impl Play<Entry, u64> for AppendStep {
    ghost use Rattle.comm_versions.specs.Rules.{Adds};

    ghost then = { Adds };
}

impl<X: EntrySource> Plain<X, Entry, u64> for AppendStep {
    ghost use Rattle.std.specs.Prelude.{None};

    ghost ask = { λ source. X.entry source };

    ghost state = { λ source. None };
}

/// An empty history that has no name yet. Contracts see what it is to be named by.
#[derive(Drop)]
pub struct BlankHistory {
    head: Word<Entry, u64, HistoryRule>,
    seen: Seen<Entry, u64, HistoryRule>,
}

impl Model for BlankHistory {
    ghost use Rattle.std.specs.Prelude.{◌≡◌, []};
    ghost use Rattle.logbook.specs.Pages.{Book, book_coded};
    ghost use Rattle.comm_versions.specs.Rules.{head_of};

    ghost Value = { Book };

    ghost coded = { book_coded };

    ghost view = { λ b. b.seen.book };

    ghost invariant = { λ b. (b.seen.log ≡ []) × (b.head ≡ head_of b.seen.book) };
}

impl BlankHistory {
    /// Opens a new book, with its length as a word. It takes no memory.
    pub fn new() -> BlankHistory {
        let (seen, mut first, _second) = Seen::open(Start::alone(), 0, 0);
        BlankHistory {
            head: Word::tracked(0, &mut first),
            seen,
        }
    }

    /// The word with the history's length, and the front that has seen nothing, where at most so many clients make
    /// changes, and so many comms are open at a time.
    pub fn open_raw(self, clients: usize, comms: usize) -> (RawHead, RawFront)
        ensures head { result.0 ≡ self }
        ensures front { result.1 ≡ known (origin self clients comms) [] }
    {
        let BlankHistory { head, seen } = self;
        (
            RawHead { word: head },
            RawFront::first(clients, comms, seen),
        )
    }

    /// Names the history: gives the word with its length, and the front that has seen nothing.
    pub(crate) fn open<M: History>(self, clients: u8, comms: usize) -> (Head<M>, Stamp<M>)
        requires book { self ≡ M.book }
        requires limits { (clients ≡ M.limits.clients) × (comms ≡ M.limits.comms) }
        ensures { result.1 ≡ [] }
    {
        let (raw, front) = self.open_raw(clients as usize, comms);
        let head = Head {
            raw,
            of: PhantomData,
        };
        (head, Stamp::from_raw(front))
    }
}

/// The one word of a history that a program has: its length, in entries. Contracts see which history it is.
#[derive(Drop)]
pub struct RawHead {
    pub(crate) word: Word<Entry, u64, HistoryRule>,
}

impl Model for RawHead {
    ghost use Rattle.std.specs.Prelude.{◌≡◌};
    ghost use Rattle.logbook.specs.Pages.{Book, book_coded};
    ghost use Rattle.comm_versions.specs.Rules.{head_of};

    ghost Value = { Book };

    ghost coded = { book_coded };

    ghost view = { λ h. h.word.book };

    ghost invariant = { λ h. h.word ≡ head_of h.word.book };
}

/// The word of the one history, which a type names.
#[derive(Drop)]
pub struct Head<M: History> {
    raw: RawHead,
    of: PhantomData<M>,
    ghost head_is: { raw ≡ M.book },
}

impl<M: History> Head<M> {
    /// The word without the type parameter.
    pub(crate) fn raw(&self) -> &RawHead
        ensures { result.now ≡ M.book }
    {
        &self.raw
    }
}
