// What is true of a store over whole runs of its calls.
#![tactic(auto)]

ghost use Rattle.runs.specs.Kept.{CallsKeepSound};
ghost use Rattle.runs.specs.Law.{LawOverRuns};

mod edits;
mod keepers;
pub mod replays;
pub mod rigs;
pub mod scripts;

use cells::leaves::LeafKind;

// A store stays sound with the plain graph, whatever calls are made on it outside a collection.
pub fn calls_keep_the_store_sound<V: LeafKind>()
    ensures { CallsKeepSound V.lawful V.tidied }
{}

// The law over runs: what holds at every call of every run, straight after an accepted Finish, and between two of them.
pub fn law_over_runs<V: LeafKind>()
    ensures { LawOverRuns V.tidied V.alike }
{}
