// What Write gives of a store straight after a collection.
#![tactic(auto)]

ghost use Rattle.run_images.specs.Saved.{FinishedRunsAreSaved};

use cells::leaves::LeafKind;

// Straight after an accepted Finish, Write is refused for too few bytes alone and gives an image; of two runs the images are
// equal exactly when the plain graphs are alike.
pub fn finished_runs_are_saved<V: LeafKind>()
    ensures { FinishedRunsAreSaved V.lawful V.tidied V.word V.alike V.number }
{}
