//! Targets of comms: objects that comms are opened towards, and that answer their messages
//! ('Messaging in Jupyter' 5.3, "Custom Messages").
//!
//! A [`Target`] is asked by an [`Event`] and gives an [`Answer`], or a [`TargetFault`] that says why not. What it
//! means is its kind, a number, the ids of its open comms and what is staged (`specs/Meaning.antt`); what each kind
//! may answer is in `specs/Answers.antt`, that of widgets in `specs/Widget.antt`.
//!
//! [`Echo`], [`Counter`] and [`PlainTarget`] are targets of the kinds Echo, Counter and Plain, [`Latest`] is one of
//! kind Free. A target that is in use is [`Held`], and [`Held::end`] is the only way to drop it, so each target ends
//! after its comms.
//!
//! # A target of your own
//!
//! `src/latest.rt` is a whole one, proved with no proof file. Copy it into a crate that has `comm_targets`,
//! `comm_messages` and `comm_value` in `crates.txt`, with `use comm_targets::{..}` in place of `use crate::..`. Copy
//! `specs/Latest.antt` too, which says what it answers, and name it in your `specs/Lib.antt`. Then change:
//!
//! 1. The fields: [`OpenComms`], which count the open comms and keep what is staged, and beside it what you need.
//! 2. `prepare`, where your work is. It is given the event and `now`, the state of the event's comm, and makes the
//!    answer: any state and messages, and to a message also `custom`. A free target is asked `Open` and `Msg` alone. To
//!    refuse, give `TargetFault::Other` with a code of your own; Memory comes by `?`, and the check refuses every other
//!    fault. Stage the event and its answer last, and change nothing before that `means` reads, so that an error leaves
//!    it.
//! 3. `commit`, for fields that follow the messages: ask `OpenComms::has_message` before their `commit`, as [`Counter`]
//!    does. It can't fail, and takes no memory. What is staged may be abandoned instead, so `prepare` is too early for
//!    them.
//! 4. `stop`, if something is to be done at the end. Then no comm is open.
//! 5. The clauses of `answer_to` and `prepare`, by words of your own in `specs/`. Or leave out those of `prepare`,
//!    whose callers are told by the trait's clauses no more than what a free target may answer, and let that of
//!    `answer_to` say just this; then `specs/` isn't needed:
//!
//!    ```text
//!    ghost use Rattle.std.specs.Prelude.{◌≡◌, ◌⊎◌, [], None, IfOk, IfErr};
//!    ghost use Rattle.comm_targets.specs.Answers.{IsFreeAnswer, IsFreeFault};
//!
//!    fn answer_to(alloc: Global, event: &Event) -> Result<Answer, TargetFault>
//!        ensures answers { IfOk result (IsFreeAnswer event.now) }
//!        ensures refuses { IfErr result (λ f. (f ≡ TargetFault.Memory) ⊎ IsFreeFault f) }
//!    ```
//!
//!    The other methods stay as they are, since a free target's notes never change.
//!
//! `rt check` in your crate's folder then proves that it keeps the contract of [`Target`], on which the comm manager
//! rests.
//!
//! # Using it
//!
//! A comm manager (`comm_core`) takes it by `register`. By itself: `Held::new`, and for each event `prepare`, then
//! `commit` or `abandon`; `close` for each comm that was opened, and `end`. The function `conversation` in
//! `unit_tests/src/tests/targets.rt` is an example.
//!
//! Types that hold targets are generic in `T: Target`. For objects of several kinds take `T` as `Box<dyn Target>`,
//! which is a target itself. A function that names no `T` can't make a `Held` of such a box, so it hands the box to
//! one that does:
//!
//! ```text
//! fn used<T: Target>(target: T)
//!     requires { IsIdle (T.means target) }
//! {
//!     Held::new(target).end();
//! }
//! ```
//!
//! Where a target is put into a box, the check asks that it may go to another thread. For a `Latest` of `src/latest.rt`
//! of your crate `mine`, put into a box by the function `serve` of `src/lib.rt`, write `proofs/serve/Hidden/Sent.antt`:
//!
//! ```text
//! use denote.Exit
//! use denote.Param.Send.{IsSend, arg_send, sendable}
//! use denote.Param.Sent.{Sends}
//! use Rattle.std.proofs.Crossing
//! use Rattle.std.proofs.alloc.Global.TheSendSync as global
//! use Rattle.comm_targets.proofs.Sends.{open_comms_sends}
//! use Rattle.mine.specs.contracts.latest.Latest as latest
//! use Rattle.mine.proofs.serve.OwnLists as own
//!
//! latest_sends : IsSend latest.the_row
//! latest_sends = search (open_comms_sends, global.the_field_send, Crossing.crosses, sendable) depth 60 fits 20000
//!
//! pub sends-part-1-1 : Sends own.part-1-1
//! sends-part-1-1 i = arg_send _ Exit.no _ latest_sends
//! ```
//!
//! A second box in the same function is `part-1-2`. The check names what it asks for.
#![tactic(auto)]

mod answer;
mod boxed;
mod counter;
mod echo;
mod event;
mod fault;
mod held;
mod kind;
mod latest;
mod open_comms;
mod open_ids;
mod plain;
mod shared_custom;
mod staged;
mod staged_event;
mod target;

pub use answer::{Answer, Bodies, Custom};
pub use counter::Counter;
pub use echo::Echo;
pub use event::Event;
pub use fault::TargetFault;
pub use held::Held;
pub use kind::Kind;
pub use latest::Latest;
pub use open_comms::OpenComms;
pub use plain::PlainTarget;
pub use shared_custom::SharedCustom;
pub use staged_event::StagedEvent;
pub use target::Target;
