// A record whose counts come from outside, and how its mode turns into something else. No call of a store stands on it.
ghost use Rattle.std.specs.Prelude.{◌≡◌, ◌≤◌, true, length};
ghost use Rattle.store.specs.Bounds.{hands_below, listed_below};

use crate::Mode;
use crate::free::FreeList;
use crate::hands::Hands;

mod making;
mod turn;

// What happens to a store, as far as its mode follows it. Steps bring the counts as they stand after them.
#[derive(Clone, Copy, PartialEq, Eq, Debug)]
pub enum Event {
    Edited,
    Begun,
    Stepped { steps: u32, copied: u16, marks: u32 },
    Finished,
    Abandoned,
}

#[derive(Drop)]
pub struct Record {
    size: u16,
    mark: u16,
    hands: Hands,
    free: FreeList,
    mode: Mode,
    ghost some: { 1 ≤ size },
    ghost fits: { size ≤ 32768 },
    ghost marked: { mark ≤ size },
    ghost held: { hands_below size hands.fields ≡ true },
    ghost few: { length free ≤ 16 },
    ghost below: { listed_below size free ≡ true },
}
