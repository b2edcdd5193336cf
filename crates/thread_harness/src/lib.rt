//! Texts that the clients of one manager play, alone or in threads, and what their history must be then.
//!
//! A [`Scenario`] is a test: the limits, what is played before, at once by four threads, and after, and how the
//! manager ends. [`play_scenario`] plays it over a manager of any targets, and says what isn't as it should be.
//! Whatever the threads did, each line has one of the answers that it names; what each client was answered is what
//! the history has of it; what was taken, and then what wasn't, is the history in its order; and the history's calls
//! give its replies and messages again on a manager of one thread.
//!
//! A text is lines, in blocks with a blank line between them. A block that begins with `times N` is played so many
//! times, and with `times N until WORDS` until its last line is answered so. `#` is the number of the round.
//!
//! | Line | Asks for | Answer |
//! |---|---|---|
//! | `C CALL`, `C ask CALL` | a change of the client C, by its own function or by `ask` | the words of the reply |
//! | `C register NAME` | the next target is registered | the same |
//! | `C refusing N LINE` | what `C LINE` asks for, while the heap is asked to refuse the allocation N | the same |
//! | `C infos`, `C infos NAME` | which comms are open | `infos FRONT ID TARGET ..`, or `no_version` |
//! | `C count`, `C count NAME` | how many comms are open | `comms N`, or `no_version` |
//! | `C state ID` | a comm's state | `state FRONT WORDS`, or `no_version` |
//! | `C hear` | hears the last stamp that the same text had, by a change or a full history | `heard N` |
//! | `C seen`, `C id` | how much it has seen, its number | `seen N`, `id N` |
//! | `C keeps_up` | a read, which is at no front before what was taken | `keeps_up`, or what it read |
//! | `take`, `whole` | the next entry; with what goes out | `took C K`, `took end` or `none`; then the messages |
//! | `taken` | how many were taken | `taken N` |
//! | `set F`, `wait F`, `is_set F` | flags of threads and targets | nothing; `set` or `late`; `set` or `unset` |
//! | `yield` | other threads have their turn | that of the line before |
//!
//! A CALL is a line of `call_of`. A change that isn't made is answered `history_full N`, `outbox_full N` or
//! `no_memory`; an entry that is taken is change K of client C, and its messages are the lines of `append_outs`. A
//! wait ends after some seconds.
//!
//! A line ends in ` => ` and the answers that may come, with ` | ` between them, of which one that ends in `*` stands
//! for all that begin so. After ` ~ ` stand answers at which it is asked again. A line that begins with `after WORDS:
//! ` is left out where the line before wasn't answered so.
#![tactic(auto)]

mod block;
mod entry_line;
mod expected;
mod flags;
mod gated_target;
mod harness;
mod history;
mod judge;
mod player;
mod replay;
mod report;
mod scenario;
mod threads;

pub use flags::Flags;
pub use gated_target::{GatedTarget, Gates, TestTarget, targets_of};
pub use harness::play_scenario;
pub use judge::Judgement;
pub use player::{ClientPlayer, NO_MEMORY};
pub use scenario::{Ending, Scenario};
