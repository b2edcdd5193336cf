//! What readers are shown, and what is applied to the two copies of it.
ghost use Rattle.std.specs.Prelude.{◌≡◌, IfOk};
ghost use Rattle.std.specs.Arc.{arc_value};
ghost use Rattle.comm_core.specs.History.{replay};
ghost use Rattle.comm_core.specs.Row.{rows};
ghost use Rattle.comm_versions.specs.Listing.{ListsAlikeSince};

use crate::comm_table::CommTable;
use crate::raw_front::RawFront;
use atomic_table::{Join, Split};
use crossbeam_utils::rule::{Outcome, Protocol};
use left_right::Absorb;
use left_right::reader::Reader;
use left_right::writer::Writer;
use std::alloc::{AllocError, Global};
use std::sync::Arc;

/// The table of comms after a front, and that front. It is what is shown, and what is applied. The prefixes of more
/// than `listing_since` entries list the same comms.
#[derive(Drop)]
pub struct Version {
    pub root: Arc<CommTable, Global>,
    pub listing_since: u64,
    pub front: RawFront,
    pub ghost kept: { (arc_value root ≡ rows (replay front.origin.limit front.entries))
        × ListsAlikeSince front.origin.limit listing_since front.entries },
}

impl Version {
    /// A version whose listing is taken for new.
    pub fn new(root: Arc<CommTable, Global>, front: RawFront) -> Version
        requires { arc_value root ≡ rows (replay front.origin.limit front.entries) }
        ensures front { result.front ≡ front }
        ensures root { result.root ≡ root }
    {
        let listing_since = front.len();
        Version::with_listing_since(root, listing_since, front)
    }

    /// A version whose listing is the same after each prefix of more than so many entries.
    pub fn with_listing_since(
        root: Arc<CommTable, Global>,
        listing_since: u64,
        front: RawFront,
    ) -> Version
        requires root { arc_value root ≡ rows (replay front.origin.limit front.entries) }
        requires settled { ListsAlikeSince front.origin.limit listing_since front.entries }
        ensures front { result.front ≡ front }
        ensures root { result.root ≡ root }
        ensures listing_since { result.listing_since ≡ listing_since }
    {
        Version {
            root,
            listing_since,
            front,
        }
    }

    /// A copy that shares the root. Err: its count can't be raised.
    pub fn try_clone(&self) -> Result<Version, AllocError>
        ensures front { IfOk result (λ v. v.front ≡ self.now.front) }
        ensures root { IfOk result (λ v. arc_value v.root ≡ arc_value self.now.root) }
    {
        let root = Arc::try_clone(&self.root)?;
        Ok(Version {
            root,
            listing_since: self.listing_since,
            front: self.front.copy(),
        })
    }
}

// A version is replaced by another.
impl Absorb<Version> for Version {
    type State = RawFront;

    ghost state = { λ s. s.front };

    ghost applied = { λ s op. op.front };

    fn absorb_first(&mut self, op: &Version, _other: &Version) -> Result<(), AllocError> {
        *self = op.try_clone()?;
        Ok(())
    }

    fn absorb_second(&mut self, op: Version, _other: &Version) -> Result<(), Version> {
        *self = op;
        Ok(())
    }
}

/// The rule of what is shown: each seat has seen a prefix of the front that is shown.
pub struct PublishRule;

/// What the rule knows of a seat: whether it has seen anything, and which front. No value of it is made.
pub type SeatView = (bool, RawFront);

impl Protocol<Version, SeatView> for PublishRule {
    ghost use Rattle.comm_versions.specs.Seats.{IsShown, stranger};

    ghost holds = { λ x views. IsShown x.front views };

    ghost first = { stranger };
}

/// The step after which a seat has seen what is shown: a read, or a publish.
pub struct SeeStep;

impl Outcome<Version, SeatView> for SeeStep {
    ghost use Rattle.std.specs.Prelude.{◌≡◌, true};
    ghost use Rattle.comm_versions.specs.Seats.{Knows};

    ghost then = { λ v x y w. (w ≡ (true, y.front)) × Knows y.front v };
}

/// The step that gives a new reader what the writer knows.
pub struct JoinStep;

impl Split<SeatView> for JoinStep {
    ghost left = { λ v. v };

    ghost right = { λ v. v };
}

impl Join<SeatView> for JoinStep {
    ghost use Rattle.comm_versions.specs.Seats.{stranger};

    ghost both = { λ v w. w };

    ghost spent = { stranger };
}

/// The writer of `left_right` over versions.
pub type SnapshotWriter = Writer<Version, Version, SeatView, PublishRule>;

/// A reader of `left_right` over versions.
pub type SnapshotReader = Reader<Version, SeatView, PublishRule>;
