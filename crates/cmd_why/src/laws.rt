//! Laws about the runs that are shown. Each law is the contract of a function that does nothing.

ghost use Rattle.std.specs.Prelude.{ℕ, List};
ghost use Rattle.{echo_links.specs.Links.LinkFile, model_run.specs.{Harms.Harm, Orderly.Orderly}};
ghost use Rattle.cmd_why.specs.{declared.shown.Shown.Shown, Found.{BreaksIt, IsShown}, Shown.shown_run};

use echo_filed::stub_laws;
use model_run::{bases_are_what_was_filed, harms_break_the_promise};

/// A shown run does harm, unless it shows only a message that never comes to rest. So it is not orderly.
pub fn shown_runs_break_the_promise()
    ensures harm { (files : List LinkFile) (tag : List ℕ) (shown : Shown) → IsShown files tag shown → BreaksIt shown.harm →
        Harm (shown_run files shown.poster tag shown.moves) tag }
    ensures breaks { (files : List LinkFile) (tag : List ℕ) (shown : Shown) → IsShown files tag shown → BreaksIt shown.harm →
        ¬ Orderly (shown_run files shown.poster tag shown.moves) tag }
{
    harms_break_the_promise();
    bases_are_what_was_filed();
    stub_laws();
}
