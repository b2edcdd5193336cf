//! What a script is played over.
ghost use Rattle.std.specs.Prelude.{◌≡◌, ℕ};
ghost use Rattle.comm_core.specs.declared.limits.Limits.{Limits};
ghost use Rattle.comm_script.specs.Played.{Standing};
ghost use Rattle.comm_script.specs.declared.fault.RunFault.{RunFault};
ghost use Rattle.comm_script.specs.declared.fault.RunFault.TheVariants.{Memory};

/// A manager with its stock of targets, as contracts of the player see it. What it does for a request of a line is a
/// function that the player is handed beside it (`Executes` of `specs/Player.antt`).
///
/// What is promised depends on what is known of the backend: where `stands` says how it stands, a line comes to what
/// the definition of scripts says (`specs/Played.antt`).
pub trait Backend {
    // It has so many clients, and can play lines. This is kept, whatever comes.
    ghost is_sound: { ℕ → Self → Type 0 };

    // It stands so, within these limits.
    ghost stands: { Limits → Standing → Self → Type 0 };

    // What each request keeps of the backend as it was, whatever comes.
    ghost follows: { Self → Self → Type 0 };

    // At least as many as the changes that it counts for one client or for all.
    ghost change_count: { Self → ℕ };

    // Why it can't play on.
    ghost stops_by: { RunFault → Type 0 };

    ghost stops_by_memory: { stops_by Memory };

    ghost follows_itself: { (s : Self) → follows s s };

    ghost has_clients: { (clients : ℕ) (limits : Limits) (now : Standing) (s : Self)
        → is_sound clients s → stands limits now s → limits.clients ≡ clients };
}
