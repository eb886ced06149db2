//! Laws of runs of any number of jobs.
//!
//! A law is a function that does nothing. Its contract is what is proved.

ghost use Rattle.std.specs.Prelude.{◌≡◌, ◌≤◌, ◌++◌, List, true, false, length};
ghost use Rattle.cwr_record.specs.Stamp.{StampParts};
ghost use Rattle.work_registry.specs.BookValue.{BookValue};
ghost use Rattle.work_registry.specs.History.{IsHistory};
ghost use Rattle.work_registry.specs.Replay.{is_opening};
ghost use Rattle.cwr_engine.specs.Account.{JobAccount};
ghost use Rattle.cwr_engine.specs.declared.jobs.Job.{Job};
ghost use Rattle.cwr_engine.specs.declared.outcome.FileOutcome.{FileOutcome};
ghost use Rattle.group_runs.specs.Chain.{Chained, GroupRun, all_outcomes, jobs_after, jobs_before};
ghost use Rattle.group_runs.specs.LongRun.{IsLongRun};

use byte_streams::{Sink, Source};
use work_registry::laws::one_register_one_history;

/// A run of any number of jobs that goes on from the book of another one is, with that one, a run of all their jobs.
pub fn long_runs_follow_one_another<R: Source, W: Sink>()
    ensures { (stamp : StampParts) (opening between kept : BookValue) (js js' ks ks' : List (Job R W)) (os os' : List FileOutcome)
        → IsLongRun (JobAccount R.Source W.Sink stamp false) opening between js ks os → IsLongRun (JobAccount R.Source W.Sink stamp false) between kept js' ks' os'
        → IsLongRun (JobAccount R.Source W.Sink stamp false) opening kept (js ++ js') (ks ++ ks') (os ++ os') }
{}

/// What a chain of runs leaves, each from the register that the one before has written, is what one run of all their
/// jobs leaves.
pub fn chains_are_long_runs<R: Source, W: Sink>()
    ensures { (stamp : StampParts) (opening kept : BookValue) (runs : List (GroupRun (Job R W))) → is_opening opening.history ≡ true → IsHistory opening.history
        → length opening.history ≤ opening.limit → Chained (JobAccount R.Source W.Sink stamp false) opening kept runs
        → IsLongRun (JobAccount R.Source W.Sink stamp false) opening kept (jobs_before runs) (jobs_after runs) (all_outcomes runs) }
{
    one_register_one_history();
}
