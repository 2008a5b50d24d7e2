// Taking an address, and placing a new cell there for a hand.
ghost use Rattle.std.specs.Prelude.{◌≡◌, ◌<◌, true, false, OnErr};
ghost use Rattle.cells.specs.Banks.{storable};
ghost use Rattle.store.specs.Fields.{past, made_sticky, taking};
ghost use Rattle.store.specs.Model.{hand_of};
ghost use Rattle.store.specs.Calls.{full};
ghost use Rattle.store.specs.Called.{state_at};
ghost use Rattle.store.specs.Record.{view, field_let_go};
ghost use Rattle.store.specs.Parts.{roomy, taken_model, changed, place_answer, placed_state};

use crate::Mode;
use crate::record::Record;
use cells::banks::{Bank, cell_at};
use cells::causes::Cause;
use cells::leaves::LeafKind;
use cells::{Cell, Field, Reference, Tag};

// The same reference, STICKY; nil stays nil.
pub fn made_sticky(field: Field) -> Field
    ensures { result ≡ made_sticky field }
{
    match field {
        Field::To(r) => Field::To(Reference {
            tag: Tag::Sticky,
            address: r.address,
        }),
        Field::Nil => Field::Nil,
    }
}

impl Record {
    // Refuses a new cell in a hand for want of room: nothing is listed, the mark is at the size, the hand is not UNIQUE.
    fn room(&self, h: u16) -> Result<(), Cause>
        ensures { result ≡ place_answer (view self.now) h }
    {
        if self.free.is_empty()
            && self.mark >= self.size
            && !matches!(self.hand(h), Field::To(r) if r.tag == Tag::Unique)
        {
            return Err(Cause::NoRoom);
        }
        Ok(())
    }

    // Puts a field into a hand; the store works from then on.
    pub fn change(&mut self, h: u16, field: Field)
        requires { past (view self.old).size field ≡ false }
        ensures { view self.new ≡ changed (view self.old) h field }
    {
        self.hands.set(h as usize, field);
        self.mode = Mode::Working;
    }

    // Lets go of what a hand holds, and puts a field into it.
    pub(crate) fn replace(&mut self, h: u16, field: Field)
        requires { past (view self.old).size field ≡ false }
        ensures { view self.new ≡ changed (field_let_go (view self.old) (hand_of (view self.old) h)) h field }
    {
        self.let_go(self.hand(h));
        self.change(h, field);
    }

    // Takes the top of the list, and lets go of what a pair in that cell held; or the mark, where nothing is listed.
    fn take<V: LeafKind, B: Bank<V>>(&mut self, bank: &B) -> u16
        requires { roomy (view self.old) ≡ true }
        ensures address { result ≡ (taking (B.cells bank.now) (view self.old).mark (view self.old).free).address }
        ensures after { view self.new ≡ taken_model (view self.old) (taking (B.cells bank.now) (view self.old).mark (view self.old).free) }
        ensures inside { result < (view self.old).size }
    {
        let Some(at) = self.take_top() else {
            let at = self.mark;
            self.mark += 1;
            return at;
        };
        match cell_at(bank, at) {
            Cell::Pair { left, right } => {
                self.let_go(left);
                self.let_go(right);
            }
            Cell::Blank | Cell::Leaf(_) | Cell::Moved { .. } => {}
        }
        at
    }

    // Lets go of a hand and gives it a new cell, or refuses for want of room.
    pub fn place<V: LeafKind, B: Bank<V>>(
        &mut self,
        bank: &mut B,
        h: u16,
        cell: &Cell<V>,
    ) -> Result<(), Cause>
        requires { storable V.lawful cell.now ≡ true }
        ensures answer { result ≡ place_answer (view self.old) h }
        ensures after { state_at (view self.new) (B.cells bank.new) ≡ placed_state (view self.old) (B.cells bank.old) h cell.now }
        ensures refused { OnErr result ((full (view self.old) h ≡ true) × (state_at (view self.new) (B.cells bank.new) ≡ state_at (view self.old) (B.cells bank.old))) }
        ensures rooted { B.root bank.new ≡ B.root bank.old }
    {
        self.room(h)?;
        self.let_go(self.hand(h));
        let address = self.take(bank);
        let _ = bank.put(address, cell);
        self.change(
            h,
            Field::To(Reference {
                tag: Tag::Unique,
                address,
            }),
        );
        Ok(())
    }
}
