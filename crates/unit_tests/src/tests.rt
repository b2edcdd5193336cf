//! A file or a few for each crate that has tests, named after it: `json_reading` is of `comm_json`, `value`,
//! `messages`, `targets` and `widget` of the crates of these names, `core_calls`, `core_entries` and `core_scripted`
//! of `comm_core`, by `core_scenes`, `core_figures` of it too, and `refusing_heap` of `test_support`. `faults` has what the faults of all say.
mod core_calls;
mod core_entries;
mod core_figures;
mod core_scenes;
mod core_scripted;
mod faults;
mod json_reading;
mod messages;
mod refusing_heap;
mod targets;
mod value;
mod widget;
