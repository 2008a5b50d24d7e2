// The free list of a store: at most sixteen addresses, the top last.
ghost use Rattle.std.specs.Prelude.{◌≡◌, [], length, ◌==◌};
ghost use Rattle.store.specs.Fields.{below_top};
ghost use Rattle.store.specs.Bounds.{pushed, top_of, listed_at};

use arrayvec::ArrayVec;
use std::marker::Model;

#[derive(Drop)]
pub struct FreeList {
    at: ArrayVec<u16, 16>,
}

impl Model for FreeList {
    ghost use Rattle.std.specs.Prelude.{ℕ, List};

    ghost Value = { List ℕ };

    ghost view = { λ f. f.at.items };
}

impl FreeList {
    pub fn new() -> Self
        ensures { result ≡ [] }
    {
        FreeList {
            at: ArrayVec::new(),
        }
    }

    pub fn is_empty(&self) -> bool
        ensures { result ≡ (length self.now == 0) }
    {
        self.at.is_empty()
    }

    // Lists an address on top. A full list stays as it was, and the cell is abandoned.
    pub fn push(&mut self, address: u16)
        ensures { self.new ≡ pushed address self.old }
    {
        let _ = self.at.try_push(address);
    }

    // Takes the top off, or nothing where nothing is listed.
    pub fn pop(&mut self) -> Option<u16>
        ensures answer { result ≡ top_of self.old }
        ensures after { self.new ≡ below_top self.old }
    {
        self.at.pop()
    }

    // The listed address with an index from the bottom, none from the end on.
    pub fn get(&self, i: u8) -> Option<u16>
        ensures { result ≡ listed_at self.now i }
    {
        self.at.as_slice().get(i as usize).copied()
    }
}
