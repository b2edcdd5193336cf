//! A comm manager for one thread: targets by name, comms by id, and each call one step of a machine.
//!
//! A [`Core`] holds the targets that are registered and the comms that are open. A [`Call`] goes through `prepare`,
//! which takes all memory and asks the target, and then through `commit`, which makes the change and can't fail, or
//! `abort`, which takes everything back. `begin`, `finish` and `withdraw` are these of a change that keeps its call:
//! the [`Ready`]. `record`, `commit_recorded` and `abort_recorded` are these of a change whose [`Entry`] and [`Row`] in
//! a history are made before it is: the [`Recording`]. `specs/Machine` and `specs/Step` say what each call does,
//! `specs/History` what a run of calls is, and `specs/Reads` what a read gives.
#![tactic(auto)]

mod apply;
mod ask;
mod call;
mod comm;
mod comms;
mod entry;
mod evaluate;
mod evaluation;
mod ids;
mod infos;
mod judge;
mod kept_answer;
mod laws;
mod limits;
mod manager;
mod outgoing;
mod prepared_change;
mod reads;
mod recorded_change;
mod reply;
mod row;
mod staged_request;
mod table_update;
mod target_request;
mod target_table;
mod unavailable;

pub use call::Call;
pub use comm::Comm;
pub use entry::{Entry, Outgoings};
pub use ids::Ids;
pub use kept_answer::KeptAnswer;
pub use laws::{
    an_end_comes_last, comms_are_listed_in_the_order_of_ids,
    comms_have_the_state_that_they_were_given_last, comms_in_order_are_the_comms,
    comms_that_are_listed_were_left_open, exact_machines_leave_no_choice, legal_histories_grow,
    no_decimal_goes_out_where_none_came_in, nothing_follows_an_end,
    prefixes_of_legal_histories_are_legal, refused_calls_change_nothing, replays_are_consistent,
    replays_grow, rows_are_what_entries_change, some_kinds_have_no_states,
    steps_keep_machines_exact, widgets_have_their_opening_state_merged_with_their_updates,
};
pub use limits::{BadCommsLimit, Limits, MOST_COMMS, NewFault};
pub use manager::Core;
pub use outgoing::comm_id;
pub use prepared_change::{Finished, PreparedChange, Ready};
pub use recorded_change::{RecordedChange, Recording};
pub use reply::{Refusal, Reply, StateAnswer};
pub use row::{OpenComm, Row};
pub use target_request::TargetRequest;
pub use unavailable::Unavailable;
