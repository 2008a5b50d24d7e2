// How what a store does turns into something else.
ghost use Rattle.std.specs.Prelude.{◌≡◌};
ghost use Rattle.store.specs.Turns.{turn_answer, view, turned_model};

use crate::Mode;
use crate::turning::{Event, Record};
use cells::causes::Cause;

impl Record {
    // Takes an event in, or refuses it and stays as it was.
    pub fn turn(&mut self, event: Event) -> Result<(), Cause>
        ensures answer { result ≡ turn_answer (view self.old).mode event }
        ensures after { view self.new ≡ turned_model (view self.old) event }
    {
        match (&mut self.mode, event) {
            (
                Mode::Collecting {
                    steps,
                    copied,
                    marks,
                },
                Event::Stepped {
                    steps: s,
                    copied: c,
                    marks: m,
                },
            ) => {
                *steps = s;
                *copied = c;
                *marks = m;
            }
            (Mode::Collecting { .. }, Event::Edited | Event::Begun) => return Err(
                Cause::Collecting,
            ),
            (Mode::Collecting { .. }, Event::Finished | Event::Abandoned) => self.mode =
                Mode::Settled,
            (_, Event::Edited) => self.mode = Mode::Working,
            (_, Event::Begun) => self.mode = Mode::Collecting {
                steps: 0,
                copied: 0,
                marks: 0,
            },
            (_, _) => return Err(Cause::NotCollecting),
        }
        Ok(())
    }
}
