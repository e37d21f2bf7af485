//! What holds of every replay, by the laws of runs. Each law is the contract of a function that does nothing.

ghost use Rattle.std.specs.Prelude.{ℕ, ◌≤◌, List, map};
ghost use Rattle.model_graph.specs.Walk.{Among};
ghost use Rattle.echo_links.specs.Links.{LinkFile};
ghost use Rattle.echo_filed.specs.declared.key.Key.{Key};
ghost use Rattle.model_run.specs.{declared.event.Event.Event, Event.RunEvent, Event.run_event, Fits.FilesFit, Orderly.Orderly, Orderly.count, Run.run_of, Tidy.Tidy};
ghost use Rattle.model_steps.specs.SystemState.{SystemState};
ghost use Rattle.echo_net.specs.Worlds.{IsWorldOf, WorldState};

use model_run::{each_message_is_filed_once, every_run_of_a_tidy_area_is_orderly};

/// On every net no replay shows a message twice in a base. On a net with a tidy area each replay is that of an orderly
/// run, so it cannot show what `check` excludes.
pub fn replay_laws()
    ensures filed_once { (files : List LinkFile) → FilesFit files → (events : List RunEvent) (world : WorldState) → IsWorldOf world (run_of files events) →
        (s : SystemState) → Among s world.systems → (key : Key) → count key s.base ≤ 1 }
    ensures orderly { (files : List LinkFile) (tag : List ℕ) → Tidy files tag → FilesFit files →
        (events : List Event) → Orderly (run_of files (map run_event events)) tag }
{
    each_message_is_filed_once();
    every_run_of_a_tidy_area_is_orderly();
}
