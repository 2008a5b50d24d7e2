// What a collection counts.
ghost use Rattle.std.specs.Prelude.{◌≡◌};
ghost use Rattle.store.specs.Record.{view};
ghost use Rattle.collector.specs.Collections.{steps_of, copied_of, marks_of};

use store::Mode;
use store::record::Record;

#[derive(Clone, Copy, PartialEq, Eq, Debug)]
pub struct Counts {
    pub steps: u32,
    pub copied: u16,
    pub marks: u32,
}

impl Counts {
    // The counts of a store; one that does not collect counts nothing.
    pub fn of(store: &Record) -> Self
        ensures steps { result.steps ≡ steps_of (view store.now).mode }
        ensures copied { result.copied ≡ copied_of (view store.now).mode }
        ensures marks { result.marks ≡ marks_of (view store.now).mode }
    {
        match store.mode() {
            Mode::Collecting {
                steps,
                copied,
                marks,
            } => Counts {
                steps,
                copied,
                marks,
            },
            Mode::Settled | Mode::Working => Counts {
                steps: 0,
                copied: 0,
                marks: 0,
            },
        }
    }
}
