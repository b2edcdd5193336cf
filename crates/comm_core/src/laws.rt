//! Laws of the definitions. Each is the contract of a function that does nothing.
ghost use Rattle.std.specs.Prelude.{◌≡◌, ℕ, List, [], ◌∷◌, ◌++◌, Option, Some, map, true, false};
ghost use Rattle.std.specs.List.{AllByRecursion};
ghost use Rattle.std.specs.List.Sorted.{IsStrictlySortedBy};
ghost use Rattle.std.specs.Map.{keys_of};
ghost use Rattle.std.specs.Ordering.{nat_cmp};
ghost use Rattle.std.specs.Cmp.Lexicographic.{slice_cmp};
ghost use Rattle.comm_messages.specs.declared.infos.Info.{Info};
ghost use Rattle.comm_core.specs.Machine.{Machine, Name, AreDistinct, IsConsistent, at};
ghost use Rattle.comm_core.specs.Step.{Outcome, Stepped, Allowed, asks, is_done, step};
ghost use Rattle.comm_core.specs.Exact.{is_exact, exact_outcome, registers_free};
ghost use Rattle.comm_core.specs.History.{Follows, IsLegal, applied, has_end, replay};
ghost use Rattle.comm_core.specs.declared.entry.Entry.{Entry};
ghost use Rattle.comm_core.specs.Row.{row_of, rows, with_row};
ghost use Rattle.comm_core.specs.Reads.{in_order, infos};
ghost use Rattle.comm_core.specs.RunLaws.{ListsThoseLeftOpen, HasStatesGivenLast, HasNoOtherStates};
ghost use Rattle.comm_core.specs.Integers.{AsksForIntegers, HoldsIntegers, SendsIntegers};
ghost use Rattle.comm_core.specs.RunLaws.{MergesUpdates, LeavesSomeStateless};
ghost use Rattle.comm_core.specs.declared.call.Call.{Call};

/// Where no target is Free, the only outcome that is allowed is that of the definitions of the other kinds.
pub fn exact_machines_leave_no_choice()
    ensures { (comms : ℕ) (m : Machine) (c : Call) (o : Option Outcome) → is_exact m ≡ true
        → Allowed m (asks comms m c) o → o ≡ exact_outcome comms m c }
{}

/// A step keeps a machine without Free targets so, unless it registers one.
pub fn steps_keep_machines_exact()
    ensures { (comms : ℕ) (m : Machine) (c : Call) (o : Option Outcome) (s : Stepped)
        → is_exact m ≡ true → registers_free c ≡ false → step comms m c o ≡ Some s
        → is_exact s.next ≡ true }
{}

/// A call that is refused leaves the machine as it was.
pub fn refused_calls_change_nothing()
    ensures { (comms : ℕ) (m : Machine) (c : Call) (o : Option Outcome) (s : Stepped)
        → step comms m c o ≡ Some s → is_done s.reply ≡ false → s.next ≡ m }
{}

/// What comes before in a legal history is a legal history.
pub fn prefixes_of_legal_histories_are_legal()
    ensures { (clients comms : ℕ) (es fs : List Entry) → IsLegal clients comms (es ++ fs)
        → IsLegal clients comms es }
{}

/// A legal history stays legal with an entry that may come after it.
pub fn legal_histories_grow()
    ensures { (clients comms : ℕ) (es : List Entry) (e : Entry) → IsLegal clients comms es
        → Follows clients comms es e → IsLegal clients comms (es ++ e ∷ []) }
{}

/// Replaying a history and one more entry is applying that entry to what the history gives.
pub fn replays_grow()
    ensures { (comms : ℕ) (es : List Entry) (e : Entry)
        → replay comms (es ++ e ∷ []) ≡ applied comms (replay comms es) e }
{}

/// After a legal history no name and no id stands twice, and each comm's target is registered.
pub fn replays_are_consistent()
    ensures { (clients comms : ℕ) (es : List Entry) → IsLegal clients comms es
        → IsConsistent (replay comms es) }
{}

/// Nothing may come after an end.
pub fn nothing_follows_an_end()
    ensures { (clients comms : ℕ) (es : List Entry) (e : Entry) → has_end es ≡ true
        → Follows clients comms es e → ⊥ }
{}

/// An end comes last: what comes before another entry in a legal history has none.
pub fn an_end_comes_last()
    ensures { (clients comms : ℕ) (es : List Entry) (e : Entry) (fs : List Entry)
        → IsLegal clients comms (es ++ e ∷ fs) → has_end es ≡ false }
{}

/// After a legal history the comms that are listed are just those that were opened and that nothing ended since, each
/// with the target towards which it was opened.
pub fn comms_that_are_listed_were_left_open()
    ensures { (clients comms : ℕ) (h : List Entry) → IsLegal clients comms h
        → ListsThoseLeftOpen h (replay comms h) }
{}

/// Comms are listed in the byte order of their ids, each id once.
pub fn comms_are_listed_in_the_order_of_ids()
    ensures { (m : Machine) (asked : Option Name)
        → IsStrictlySortedBy (slice_cmp nat_cmp) (map (λ (i : Info). i.id) (infos m asked)) }
{}

/// Comms put in the byte order of their ids are the same comms.
pub fn comms_in_order_are_the_comms()
    ensures order { (m : Machine) → IsStrictlySortedBy (slice_cmp nat_cmp)
        (keys_of (in_order m.comms)) }
    ensures same { (m : Machine) (id : Name) → AreDistinct m.comms
        → at (in_order m.comms) id ≡ at m.comms id }
{}

/// After a legal history a comm that was left open has the state that it was given last, and no other comm has one.
pub fn comms_have_the_state_that_they_were_given_last()
    ensures given { (clients comms : ℕ) (h : List Entry) → IsLegal clients comms h
        → HasStatesGivenLast h (replay comms h) }
    ensures other { (clients comms : ℕ) (h : List Entry) → IsLegal clients comms h
        → HasNoOtherStates h (replay comms h) }
{}

/// The comm of a widget has the state that it was opened with, merged with each update and push that was delivered
/// since, in order ('Jupyter widgets messaging protocol' 2.1.0).
pub fn widgets_have_their_opening_state_merged_with_their_updates()
    ensures { (clients comms : ℕ) (h : List Entry) → IsLegal clients comms h
        → MergesUpdates h (replay comms h) }
{}

/// The comms of an Echo, a Counter, a Plain or an Opaque target have no state.
pub fn some_kinds_have_no_states()
    ensures { (clients comms : ℕ) (h : List Entry) → IsLegal clients comms h
        → LeavesSomeStateless h (replay comms h) }
{}

/// The row of the next entry of a legal history is what that changes in what readers see.
pub fn rows_are_what_entries_change()
    ensures { (clients comms : ℕ) (es : List Entry) (e : Entry)
        → IsLegal clients comms (es ++ e ∷ [])
        → with_row (row_of (replay comms es) e) (rows (replay comms es))
        ≡ rows (replay comms (es ++ e ∷ [])) }
{}

/// A manager of integers sends no decimal: where no call brings one and no Free target is registered, no message that
/// goes out has one, and no comm's state.
pub fn no_decimal_goes_out_where_none_came_in()
    ensures sent { (clients comms : ℕ) (h : List Entry) → IsLegal clients comms h
        → AllByRecursion AsksForIntegers h → AllByRecursion SendsIntegers h }
    ensures states { (clients comms : ℕ) (h : List Entry) → IsLegal clients comms h
        → AllByRecursion AsksForIntegers h → HoldsIntegers (replay comms h) }
{}
