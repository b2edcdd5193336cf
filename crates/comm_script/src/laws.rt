//! Laws of the definitions. Each is the contract of a function that does nothing.
ghost use Rattle.std.specs.Prelude.{ℕ, List};
ghost use Rattle.comm_value.specs.declared.from_json.Numbers.{Numbers};
ghost use Rattle.comm_core.specs.declared.limits.Limits.{Limits};
ghost use Rattle.comm_core.specs.Limits.{AreAllowed};
ghost use Rattle.comm_core.specs.Machine.{Registered};
ghost use Rattle.comm_core.specs.History.{IsLegal};
ghost use Rattle.comm_script.specs.Played.{history_of};

use comm_core::legal_histories_grow;

/// The changes that a script makes, whatever it is, are a legal history. So comm_core's laws over whole runs hold of
/// each script: after it those comms are listed that it left open, with the states that it gave them last.
pub fn scripts_make_legal_histories()
    ensures { (numbers : Numbers) (limits : Limits) (stock : List Registered) (input : List ℕ)
        → AreAllowed limits
        → IsLegal limits.clients limits.comms (history_of numbers limits stock input) }
{
    legal_histories_grow();
}
