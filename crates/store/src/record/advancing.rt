// How what a store does turns into something else.
ghost use Rattle.std.specs.Prelude.{◌≡◌};
ghost use Rattle.store.specs.Advances.{advance_answer, advanced_model, hold_answer, held_model};
ghost use Rattle.store.specs.Record.{view};

use crate::Mode;
use crate::free::FreeList;
use crate::hands::Hands;
use crate::record::{Record, is_past};
use crate::turns::Happening;
use cells::Field;
use cells::causes::Cause;

impl Record {
    // Takes a happening in, or refuses it and stays as it was.
    pub fn advance(&mut self, happening: Happening) -> Result<(), Cause>
        ensures answer { result ≡ advance_answer (view self.old) happening }
        ensures after { view self.new ≡ advanced_model (view self.old) happening }
    {
        match (&mut self.mode, happening) {
            (
                Mode::Collecting {
                    steps,
                    copied,
                    marks,
                },
                Happening::Stepped {
                    copies,
                    marks: marked,
                },
            ) => {
                if *steps >= 16 + 2 * *copied as u32 || copies && *copied >= self.size {
                    return Err(Cause::Spoiled);
                }
                *steps += 1;
                *copied += copies as u16;
                *marks += marked as u32;
            }
            (Mode::Collecting { .. }, Happening::Placed { hand, field }) => return self.hold(
                hand, field,
            ),
            (Mode::Collecting { copied, .. }, Happening::Finished) => {
                self.mark = *copied;
                self.free = FreeList::new();
                self.mode = Mode::Settled;
            }
            (Mode::Collecting { .. }, Happening::Abandoned) => {
                self.mark = 0;
                self.hands = Hands::new();
                self.free = FreeList::new();
                self.mode = Mode::Settled;
            }
            (Mode::Collecting { .. }, Happening::Edited | Happening::Begun) => return Err(
                Cause::Collecting,
            ),
            (_, Happening::Edited) => self.mode = Mode::Working,
            (_, Happening::Begun) => self.mode = Mode::Collecting {
                steps: 0,
                copied: 0,
                marks: 0,
            },
            (_, _) => return Err(Cause::NotCollecting),
        }
        Ok(())
    }

    // Puts a field into a hand that there is, and none past the size.
    fn hold(&mut self, hand: u16, field: Field) -> Result<(), Cause>
        ensures answer { result ≡ hold_answer (view self.old) hand field }
        ensures after { view self.new ≡ held_model (view self.old) hand field }
    {
        if hand > 15 {
            return Err(Cause::NoSuchHand);
        }
        if is_past(self.size, field) {
            return Err(Cause::Spoiled);
        }
        self.hands.set(hand as usize, field);
        Ok(())
    }
}
