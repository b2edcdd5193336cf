//! The queue between the two sides, its rule, and what its steps tell.
ghost use Rattle.std.specs.Prelude.{◌≡◌, [], true, false};
ghost use Rattle.crossbeam_queue.specs.Passes.{view, IsPassOf, IsSamePass};
ghost use Rattle.comm_outbox.specs.Order.{bounds, pass_view};

use comm_core::Entry;
use crossbeam_queue::protocol::{Join, Lesson, Outcome, Protocol, Split};
use crossbeam_queue::{Pass, RuledArrayQueue};
use std::alloc::Global;
use std::collections::LinkedList;
use std::marker::{Brand, PhantomData};
use std::sync::Arc;

/// The limits by which a list of entries is legal.
pub struct Bounds {
    pub clients: u8,
    pub comms: usize,
}

/// What the rule knows of a pass: whether it may put and take, by which limits entries are legal, what it has put,
/// and what it has taken. No value of it is made.
pub struct PassView {
    pub puts: bool,
    pub takes: bool,
    pub bounds: Bounds,
    pub sent: LinkedList<Entry>,
    pub got: LinkedList<Entry>,
}

/// The rule of the queue: what was put is legal, and is what was taken followed by what the queue holds.
pub struct QueueRule;

impl Protocol<Arc<Entry, Global>, PassView> for QueueRule {
    ghost use Rattle.std.specs.Prelude.{true, []};
    ghost use Rattle.comm_outbox.specs.Order.{bounds, pass_view, KeepsOrder};

    ghost holds = { KeepsOrder };

    ghost first = { pass_view true true (bounds 0 0) [] [] };
}

/// The bounded queue of `crossbeam_queue`, under the rule.
pub type EntryQueue = RuledArrayQueue<Arc<Entry, Global>, PassView, QueueRule>;

/// What a side has to use the queue.
pub(crate) type QueuePass = Pass<Arc<Entry, Global>, PassView>;

/// By which limits entries are legal. Each call of `outbox` picks them, in its proof.
pub(crate) trait Limited {
    ghost use Rattle.comm_outbox.specs.declared.entry_queue.Bounds.{Bounds};

    ghost bounds: { Bounds };
}

impl Limited for Brand {
    ghost use Rattle.comm_outbox.specs.Order.{bounds as by};

    ghost bounds = { by 0 0 };
}

/// The step that parts one pass into two: one may put, and the other take. From now on the limits are known.
pub struct Roles<L> {
    limit: PhantomData<L>,
}

impl<L: Limited> Split<PassView> for Roles<L> {
    ghost use Rattle.std.specs.Prelude.{true, false, []};
    ghost use Rattle.comm_outbox.specs.Order.{pass_view};

    ghost left = { λ v. pass_view true false L.bounds v.sent [] };

    ghost right = { λ v. pass_view false true L.bounds [] v.got };
}

/// The step that makes both passes one again, which may put and take.
pub struct Rejoin;

impl Join<PassView> for Rejoin {
    ghost use Rattle.std.specs.Prelude.{true, false, []};
    ghost use Rattle.comm_outbox.specs.Order.{bounds, pass_view};

    ghost both = { λ v w. pass_view true true v.bounds v.sent w.got };

    ghost spent = { pass_view false false (bounds 0 0) [] [] };
}

/// The step that puts an entry.
pub struct PutStep;

impl Outcome<Arc<Entry, Global>, PassView> for PutStep {
    ghost use Rattle.comm_outbox.specs.Order.{HasPut};

    ghost then = { λ v x w. HasPut v x w };
}

impl Lesson<Arc<Entry, Global>, PassView> for PutStep {
    ghost use Rattle.std.specs.Prelude.{⊤};

    ghost fact = { λ v items. ⊤ };
}

/// The step that takes an entry.
pub struct TakeStep;

impl Outcome<Arc<Entry, Global>, PassView> for TakeStep {
    ghost use Rattle.comm_outbox.specs.Order.{HasTaken};

    ghost then = { λ v x w. HasTaken v x w };
}

impl Lesson<Arc<Entry, Global>, PassView> for TakeStep {
    ghost use Rattle.std.specs.Prelude.{⊤};

    ghost fact = { λ v items. ⊤ };
}

/// What a count of the waiting entries tells: they are the last that were put.
pub struct CountWaiting;

impl Lesson<Arc<Entry, Global>, PassView> for CountWaiting {
    ghost use Rattle.comm_outbox.specs.Order.{Leaves};

    ghost fact = { λ v items. Leaves v.sent items };
}

/// The step of the rejoined pass, which knows what was put and what was taken: the queue holds the rest.
pub struct DrainStep;

impl Outcome<Arc<Entry, Global>, PassView> for DrainStep {
    ghost use Rattle.comm_outbox.specs.Order.{HasDrained};

    ghost then = { λ v x w. HasDrained v x w };
}

impl Lesson<Arc<Entry, Global>, PassView> for DrainStep {
    ghost use Rattle.comm_outbox.specs.Order.{Divides};

    ghost fact = { λ v items. Divides v items };
}

/// Parts the pass in two, and gives the one of the side that takes. The limits are fixed from now on.
pub(crate) fn split<L: Limited>(
    queue: &EntryQueue,
    pass: &mut QueuePass,
    clients: u8,
    comms: usize,
) -> QueuePass
    requires queue { IsPassOf queue.now pass.old }
    requires first { view pass.old ≡ pass_view true true (bounds 0 0) [] [] }
    requires limits { L.bounds ≡ bounds clients comms }
    ensures puts { IsSamePass pass.old pass.new
        × (view pass.new ≡ pass_view true false (bounds clients comms) [] []) }
    ensures takes { IsPassOf queue.now result
        × (view result ≡ pass_view false true (bounds clients comms) [] []) }
{
    queue.another::<Roles<L>>(pass)
}
