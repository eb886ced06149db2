//! What holds of the desk's definitions.
//!
//! A law is a function that does nothing. Its contract is what is proved.

ghost use Rattle.std.specs.Prelude.{◌≡◌, ℕ, List, ◌++◌};
ghost use Rattle.work_registry.specs.History.{IsHistory};
ghost use Rattle.work_registry.specs.Replay.{made};
ghost use Rattle.registry_desk.specs.Events.{DrawIsEvent, EnterIsEvent, PassIsEvent, ShowsLawfulLock, ShutIsEvent, WaitIsEvent};
ghost use Rattle.registry_desk.specs.Runs.{KeepsRoom, OpensAsNew, RunsHaveOneInside, ShowsRun};
ghost use Rattle.registry_desk.specs.Steps.{EachStepIsEvent, ViewsFixLock};
ghost use Rattle.registry_desk.specs.World.{World, WorldEvent, added_in, run_world};

/// Over every run of the lock and of calls, of any places in any order, the history stays one of one registry.
pub fn stays_a_history()
    ensures { (w : World) (events : List WorldEvent) → IsHistory w.history → IsHistory (run_world w events).history }
{
    work_registry::laws::histories_grow();
}

/// Over every run the entries of a session grow by those that the calls of its own place add, in order, and by no
/// others.
pub fn grows_by_its_own_calls()
    ensures { (w : World) (events : List WorldEvent) (session : ℕ) → made (run_world w events).history session ≡ made w.history session ++ added_in w session events }
{}

/// Between any two atomic steps the lock that the desk shows is lawful, so at most one seat is inside.
pub fn shows_a_lawful_lock()
    ensures { ShowsLawfulLock }
{}

/// A run of the desk, by any steps of any seats in any order, shows a run of the pure lock from a new one. So at most
/// one seat is inside, by that lock's own law.
///
/// Such a run needs two things of the rule: that tickets are left before each step, and, for the last claim, that there
/// are at most 64 seats. The rule keeps both.
pub fn shows_a_run_of_the_lock()
    ensures run { ShowsRun }
    ensures one_inside { RunsHaveOneInside }
    ensures opening { OpensAsNew }
    ensures room { KeepsRoom }
{
    ticket_core::laws::array_at_most_one_inside();
}

/// Each step of the running desk, of whatever kind, is its event of the lock, or leaves the lock that is shown as it
/// was. If a seat is given, the lock has one more place, which is away.
///
/// Drawing a ticket is a Draw. Looking at a flag is a Look, which enters exactly if the flag is open. Closing a flag is
/// a Shut, and opening the next one a Pass.
pub fn steps_are_events()
    ensures draw { DrawIsEvent }
    ensures enter { EnterIsEvent }
    ensures wait { WaitIsEvent }
    ensures shut { ShutIsEvent }
    ensures pass { PassIsEvent }
    ensures each { EachStepIsEvent }
    ensures determined { ViewsFixLock }
{}
