//! What the crates of tests share: calls from lines of words, what came of them as text, a target that does what its
//! messages say, a player of lines over the one-thread manager, and tables of cases with how one of them fails.
#![tactic(auto)]

mod body_words;
mod call_log;
mod call_words;
mod cases;
mod comparison;
mod core_of_limit;
mod core_player;
mod entry_text;
mod manager_kind;
mod reply_text;
mod scripted_target;
mod test_fault;
mod text_builder;
mod value_text;

pub use body_words::{body_of, buffers_of, dict_of, dict_with};
pub use call_log::CallLog;
pub use call_words::{call_of, split_word};
pub use cases::{Case, Subject, is_expected, run_cases};
pub use comparison::expect_text;
pub use core_player::{CorePlayer, play_over_core};
pub use entry_text::append_target_answer;
pub use manager_kind::{BOTH_MANAGERS, ManagerKind};
pub use reply_text::append_answer;
pub use scripted_target::ScriptedTarget;
pub use test_fault::{TestFault, holds};
pub use text_builder::TextBuilder;
pub use value_text::{append_body, append_buffers, append_state, append_words};
