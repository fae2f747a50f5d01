//! The headline holds of the event machine's own report, and the images of a device follow its events.

ghost use Rattle.std.specs.Prelude.{ℕ, ◌≡◌, ◌+◌, ◌++◌, List, Option, length, slice_get, take};
ghost use Rattle.kernel_model.specs.Items.{listing};
ghost use Rattle.kernel_model.specs.Events.{Event};
ghost use Rattle.kernel_model.specs.Durable.{event_writes, listed};
ghost use Rattle.kernel_model.specs.Fit.{HasIds, IsSetUp};
ghost use Rattle.device_model.specs.Words.{Change};
ghost use Rattle.recovery.specs.Images.{words_of};
ghost use Rattle.headline.specs.Runs.{Origin, after, first_state, state_read, world_from};
ghost use Rattle.headline.specs.Report.{report_text};
ghost use Rattle.headline.specs.Headline.{Headline};
ghost use Rattle.headline.specs.Chains.{Follows, GoesOn, IsSerial};
ghost use Rattle.headline.specs.Images.{Decodes, HasGrown, HasImages};

use kernel_model::event_by_event::{one_event_more, start_line_is_fresh, writes_only_grow};
use kernel_model::lines::{no_task_is_told_twice, report_tells_listing};
use kernel_model::machine::{listing_goes_on, listing_is_serial};
use rv_core::Machine;

/// Of each run with ids for the children of as many finishes as it has events, the event machine's report keeps what the headline promises.
pub fn report_keeps_headline()
    ensures { (o : Origin) (events : List Event) → IsSetUp (world_from o)
        → HasIds o.base (length events) → Headline o events (report_text o events) }
{
    listing_is_serial::<Machine>();
    report_tells_listing::<Machine>();
    no_task_is_told_twice::<Machine>();
    start_line_is_fresh::<Machine>();
}

/// A run goes on with what left its base; and two runs, the second on what the first left, list one history together.
pub fn runs_are_one_history()
    ensures goes_on { (o : Origin) (events : List Event) → IsSetUp (world_from o)
        → HasIds o.base (length events) → GoesOn o events }
    ensures together { (o p : Origin) (events more : List Event)
        → IsSetUp (world_from o) → HasIds o.base (length events)
        → IsSetUp (world_from p) → HasIds p.base (length more) → Follows o events p
        → let first = listing (listed (after o events)) in
        IsSerial o.device.set o.base (first ++ listing (listed (after p more))) (state_read p more) }
{
    listing_is_serial::<Machine>();
    listing_goes_on::<Machine>();
}

/// Words that hold what is durable before the first event have all images of no event; and with each event whose writes are
/// made, and after which the words hold what is durable then, they have those of one event more.
pub fn images_follow_events()
    ensures none { (o : Origin) (events : List Event) (start : List ℕ) (log : List Change)
        → Decodes o (words_of log start) (first_state o)
        → HasImages o events start log log 0 }
    ensures more { (o : Origin) (events : List Event) (start : List ℕ)
        → (before log grown : List Change) (n : ℕ) (e : Event)
        → HasImages o events start before log n → slice_get events n ≡ Option.Some e
        → HasGrown log grown (event_writes (after o (take n events)) e)
        → Decodes o (words_of grown start) (after o (take (n + 1) events))
        → HasImages o events start before grown (n + 1) }
{
    one_event_more::<Machine>();
    writes_only_grow::<Machine>();
}
