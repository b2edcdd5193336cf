//! Plays scripts of comm messages and commands over a manager: a script is lines of JSON, and what is said to it is a
//! text.
//!
//! [`run_with`] plays a script with a stock of targets of one type, [`run`] with boxes; [`push_target`] puts an idle
//! target into a stock, [`boxed_stock!`] makes that of a program, a [`RunFault`] says why a script wasn't played to
//! its end, and [`exit_status`] is what a program ends with then. The law [`scripts_make_legal_histories`] ties what
//! a script does to the laws that `comm_core` has of whole runs.
//!
//! A [`Backend`] is what a script is played over: [`play_script`] plays a whole script over any, [`play_line`] a
//! line, and [`execute`] what a line asks for. `shared_script` has one over the manager that threads share.
//! [`split_line`] and [`is_blank`] find lines, [`parse_line`] reads one, a [`Stock`] has the targets, `append_*` are
//! the lines that are written, and [`write_all_and_flush`] writes them. [`launch_with`], [`push_with`] and
//! [`send_with`] read these commands from their parts, without a line.
#![tactic(auto)]

mod asked;
mod backend;
mod command;
mod fault;
mod fault_words;
mod kernel_parts;
mod laws;
mod line;
mod lines;
mod player;
mod reads;
mod running;
mod session;
mod status;
mod stock;
mod stream;
mod wording;

pub use asked::{Key, LineFault, Request};
pub use backend::Backend;
pub use fault::RunFault;
pub use kernel_parts::{launch_with, push_with, send_with};
pub use laws::scripts_make_legal_histories;
pub use line::{LineMemory, asked_by_message, asked_from, parse_line, parse_line_among};
pub use lines::{is_blank, split_line};
pub use player::{append_fault, play_line};
pub use running::{run, run_with};
pub use status::exit_status;
pub use stock::{Stock, StockKind, push_target};
pub use stream::{play_script, write_all_and_flush};
pub use wording::{
    append, append_bad, append_counted, append_infos, append_number, append_out, append_outs,
    append_reply, append_state_content, append_state_line,
};
