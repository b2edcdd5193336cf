//! What holds of calls one after another.
ghost use Rattle.comm_c.specs.Legal.{CallsMakeLegalHistories};
ghost use Rattle.comm_c.specs.Scripts.{CallsPlayScripts, LinesPlayScripts};

use comm_core::{
    exact_machines_leave_no_choice, legal_histories_grow, replays_grow, steps_keep_machines_exact,
};

/// What a new manager says to lines one after another is what the script of these lines gives, over any stock
/// that has as many targets of each kind as the lines register.
pub fn lines_play_scripts()
    ensures { LinesPlayScripts }
{
    exact_machines_leave_no_choice();
    steps_keep_machines_exact();
    replays_grow();
}

/// What it says to calls that ask for anything, as lines, as messages by their parts or as the kernel's own, is what a
/// script says to lines that were read so.
pub fn calls_play_scripts()
    ensures { CallsPlayScripts }
{
    exact_machines_leave_no_choice();
    steps_keep_machines_exact();
    replays_grow();
}

/// The changes of a manager since it was made are a legal history, to which each call adds one change or none. So the
/// laws that the core has of whole runs hold of it, whatever its targets answer.
pub fn calls_make_legal_histories()
    ensures { CallsMakeLegalHistories }
{
    legal_histories_grow();
    replays_grow();
}
