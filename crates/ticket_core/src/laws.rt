//! What holds of both locks, as the contracts of functions that do nothing.
//!
//! The laws hold for every list of events, of any places in any order. The events of a run up to any one of them are
//! such a list. So what a law says of the state after every list of events holds after each single event of every run.

ghost use Rattle.std.specs.Prelude.{◌≡◌, ℕ, ◌≤◌, List, [], ◌∷◌, ◌++◌, map};
ghost use Rattle.ticket_core.specs.ArrayLock.{ArrayState, IsLawfulArrayState, ticket_phase, ticket_state};
ghost use Rattle.ticket_core.specs.ArraySteps.{array_after_all, array_answer, array_answers, new_array_lock};
ghost use Rattle.ticket_core.specs.Order.{IsTicketOrder, array_entries, entries};
ghost use Rattle.ticket_core.specs.Reading.{IsTicketRun, ticket_run};
ghost use Rattle.ticket_core.specs.TicketLock.{AtMostOneInside, IsLawful, LockState};
ghost use Rattle.ticket_core.specs.TicketSteps.{after_all, answer, answers, new_lock};
ghost use Rattle.ticket_core.specs.declared.array_lock.ArrayEvent.{ArrayEvent};
ghost use Rattle.ticket_core.specs.declared.ticket_lock.Event.{Event};

/// The ticket lock: after each event the state is lawful, for any number of places.
///
/// The contract says it this way: a new lock is in a lawful state after every list of events. Each beginning of a list
/// of events is a list of events too, so it holds after each event of a list. The same holds of a run that begins in
/// any lawful state.
pub fn stays_lawful()
    ensures lawful { (s : LockState) (events : List Event) → IsLawful s → IsLawful (after_all s events) }
    ensures new { (places : ℕ) (events : List Event) → IsLawful (after_all (new_lock places) events) }
{}

/// The ticket lock: at most one place is inside, in every lawful state, and so after each event.
pub fn at_most_one_inside()
    ensures lawful { (s : LockState) → IsLawful s → AtMostOneInside s.phases }
    ensures new { (places : ℕ) (events : List Event) → AtMostOneInside (after_all (new_lock places) events).phases }
{}

/// The ticket lock: places enter in the order of their tickets. The k-th `Enters` of a run of a
/// new lock, counted from 0, has ticket k.
pub fn enters_in_ticket_order()
    ensures { (places : ℕ) (events : List Event) → IsTicketOrder (entries (answers (new_lock places) events)) }
{}

/// The ticket lock: one more event at the end of a run is one more step, from the state that the run has reached.
pub fn runs_step_by_step()
    ensures state { (s : LockState) (events : List Event) (event : Event)
        → after_all s (events ++ event ∷ []) ≡ (answer (after_all s events) event).0 }
    ensures outcomes { (s : LockState) (events : List Event) (event : Event)
        → answers s (events ++ event ∷ []) ≡ answers s events ++ (answer (after_all s events) event).1 ∷ [] }
{}

/// The array lock: after each event the state is lawful, for at most 64 places.
///
/// As for the ticket lock, that is said of the state after every list of events.
pub fn array_stays_lawful()
    ensures lawful { (s : ArrayState) (events : List ArrayEvent) → IsLawfulArrayState s → IsLawfulArrayState (array_after_all s events) }
    ensures new { (places : ℕ) (events : List ArrayEvent) → places ≤ 64
        → IsLawfulArrayState (array_after_all (new_array_lock places) events) }
{}

/// The array lock: at most one place is inside or leaving, in every lawful state, and so after
/// each event.
pub fn array_at_most_one_inside()
    ensures lawful { (s : ArrayState) → IsLawfulArrayState s → AtMostOneInside (map ticket_phase s.phases) }
    ensures new { (places : ℕ) (events : List ArrayEvent) → places ≤ 64
        → AtMostOneInside (map ticket_phase (array_after_all (new_array_lock places) events).phases) }
{}

/// The array lock: places enter in the order of their tickets. The k-th `Enters` of a run of a new
/// lock, counted from 0, has ticket k.
pub fn array_enters_in_ticket_order()
    ensures { (places : ℕ) (events : List ArrayEvent) → places ≤ 64
        → IsTicketOrder (array_entries (array_answers (new_array_lock places) events)) }
{}

/// The array lock: one more event at the end of a run is one more step, from the state that the run has reached.
pub fn array_runs_step_by_step()
    ensures state { (s : ArrayState) (events : List ArrayEvent) (event : ArrayEvent)
        → array_after_all s (events ++ event ∷ []) ≡ (array_answer (array_after_all s events) event).0 }
    ensures outcomes { (s : ArrayState) (events : List ArrayEvent) (event : ArrayEvent)
        → array_answers s (events ++ event ∷ [])
        ≡ array_answers s events ++ (array_answer (array_after_all s events) event).1 ∷ [] }
{}

/// Each run of the array lock can be read as a run of the ticket lock. So whatever holds of all runs of the ticket lock
/// holds of those of the array lock.
///
/// A leaving place is read as inside. A `Pass` with the outcome `Passes` is read as a `Leave` with the outcome
/// `Leaves`. Each `Shut`, and each other `Pass`, is read as no event.
pub fn array_run_is_a_ticket_run()
    ensures lawful { (s : ArrayState) (events : List ArrayEvent) → IsLawfulArrayState s → let after = array_after_all s events in
        IsTicketRun (ticket_state s.next s.phases) (ticket_run events (array_answers s events))
        (ticket_state after.next after.phases) }
    ensures new { (places : ℕ) (events : List ArrayEvent) → places ≤ 64 →
        let new = new_array_lock places in let after = array_after_all new events in
        IsTicketRun (new_lock places) (ticket_run events (array_answers new events))
        (ticket_state after.next after.phases) }
{}
