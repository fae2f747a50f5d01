//! A chain of calls is one history.

ghost use Rattle.std.specs.Prelude.{◌≡◌, ◌+◌, ◌⊎◌, List, length};
ghost use Rattle.nv_base.specs.Streams.{Stream};
ghost use Rattle.kernel_model.specs.Events.{Event};
ghost use Rattle.set_model.specs.Sets.{TaskSet};
ghost use Rattle.kernel_core.specs.declared.open.How.{How as Way};
ghost use Rattle.kernel_core.specs.declared.open.How.TheVariants as How;
ghost use Rattle.simulation.specs.Stores.{Store, words_in};
ghost use Rattle.simulation.specs.Runs.{Stops};
ghost use Rattle.simulation.specs.declared.halt.Halt.{Halt};
ghost use Rattle.headline.specs.Runs.{Origin};
ghost use Rattle.sim_run.specs.Chains.{AreCalls, AreOneHistory, GoOn};
ghost use Rattle.sim_run.specs.Origins.{opened_on};
ghost use Rattle.sim_run.specs.Promises.{HasPromise, HasRun, HasRunAll};

use headline::laws::runs_are_one_history;
use task_model::laws::tasks_are_a_machine;

/// Where a call that was done has left a device, and a `resume` of the same set keeps what is promised of it there, that one
/// begins with the state that the first one's end part told, and what both list is one serial history, from where the first
/// one began. So any number of calls are.
pub fn calls_are_one_history()
    ensures { (how : Way) (set : TaskSet) (events more : List Event) (old new : Store)
        → (first : HasPromise how set events (words_in old))
        → (then : HasPromise How.Again set more (words_in new))
        → HasRunAll how set events old new → new.start ≡ old.start
        → AreOneHistory first.origin events then.origin more }
{}

/// Whatever a call has answered, a `resume` on what it has left goes on from some number of its events, and what these and
/// the `resume` list is one serial history, from where the first one began; but for a `run` that has written nothing. Where
/// the first call was stopped, it goes on from the events whose lines were put, or from one more.
pub fn stopped_calls_are_one_history()
    ensures any { (how : Way) (set : TaskSet) (events more : List Event) (old new : Store)
        → (o p : Origin) → AreCalls how set events more old new o p
        → HasRun how set events old new
        → ((how ≡ How.Fresh) × (words_in new ≡ words_in old))
        ⊎ GoOn o events p more 0 (length events) }
    ensures told { (how : Way) (set : TaskSet) (events more : List Event) (old new : Store)
        → (o p : Origin) → AreCalls how set events more old new o p
        → (sink now : Stream) (halt : Halt)
        → (s : Stops o events (opened_on how set old) new sink now halt)
        → GoOn o events p more s.lines (s.lines + 1) }
{
    runs_are_one_history();
    tasks_are_a_machine();
}
