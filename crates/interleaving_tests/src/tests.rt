//! What threads and single callers see of one manager. `each_call` makes each call once, `counted_history` is of a
//! manager that keeps none, `reads` has what clients have seen, `limits` each limit, `many_changes` as many entries as
//! may wait, `one_history` what threads do at once, and `target_ends` how a manager ends, by `harness`. `versions` is of
//! `comm_versions`, and `new_queue` of `comm_outbox`.
mod counted_history;
mod each_call;
mod harness;
mod limits;
mod many_changes;
mod new_queue;
mod one_history;
mod reads;
mod target_ends;
mod versions;
