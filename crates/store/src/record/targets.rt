// What the calls ask before they change anything: whether a bank and hands are admitted, and which pair a hand refers to.
ghost use Rattle.std.specs.Prelude.{◌≡◌, if◌then◌else◌, Ok, Err, IfOk, IfErr, slice_set};
ghost use Rattle.cells.specs.declared.causes.Cause.TheVariants.{Spoiled};
ghost use Rattle.store.specs.Fields.{past};
ghost use Rattle.store.specs.Model.{hand_of};
ghost use Rattle.store.specs.Record.{view};
ghost use Rattle.store.specs.Parts.{admitted, target_of, side_in, with_in, Aims, Misses};

use crate::Mode;
use crate::record::{Record, is_past};
use cells::banks::{Bank, cell_at};
use cells::causes::Cause;
use cells::leaves::LeafKind;
use cells::{Cell, Field, Side};

// A pair and its address.
#[derive(Clone, Copy, PartialEq, Eq, Debug)]
pub struct Target {
    pub address: u16,
    left: Field,
    right: Field,
}

impl Target {
    pub fn side(self, side: Side) -> Field
        ensures { result ≡ side_in side self }
    {
        match side {
            Side::Left => self.left,
            Side::Right => self.right,
        }
    }

    // The field on a side; one past the mark is refused.
    pub(crate) fn sound(self, side: Side, mark: u16) -> Result<Field, Cause>
        ensures { result ≡ (if past mark (side_in side self) then Err Spoiled else Ok (side_in side self)) }
    {
        let field = self.side(side);
        if is_past(mark, field) {
            return Err(Cause::Spoiled);
        }
        Ok(field)
    }

    // The pair with one side set.
    pub fn with<V: LeafKind>(self, side: Side, field: Field) -> Cell<V>
        ensures { result ≡ with_in side field self }
    {
        match side {
            Side::Left => Cell::Pair {
                left: field,
                right: self.right,
            },
            Side::Right => Cell::Pair {
                left: self.left,
                right: field,
            },
        }
    }

    // Sets one side of the pair in the bank.
    pub(crate) fn put<V: LeafKind, B: Bank<V>>(self, bank: &mut B, side: Side, field: Field)
        ensures after { B.cells bank.new ≡ slice_set (B.cells bank.old) self.address (with_in side field self) }
        ensures rooted { B.root bank.new ≡ B.root bank.old }
    {
        let _ = bank.put(self.address, &self.with(side, field));
    }
}

impl Record {
    // Refuses a bank of another size, a hand above 15, and any call while the store collects.
    pub fn admit(&self, size: usize, h: u16, g: u16) -> Result<(), Cause>
        ensures { result ≡ admitted (view self.now) size h g }
    {
        if size != self.size as usize {
            return Err(Cause::OtherSize);
        }
        if h > 15 || g > 15 {
            return Err(Cause::NoSuchHand);
        }
        match self.mode {
            Mode::Collecting { .. } => Err(Cause::Collecting),
            Mode::Settled | Mode::Working => Ok(()),
        }
    }

    // The pair that a hand refers to.
    pub fn target<V: LeafKind, B: Bank<V>>(&self, bank: &B, g: u16) -> Result<Target, Cause>
        ensures answer { result ≡ target_of (view self.now).mark (B.cells bank.now) (hand_of (view self.now) g) }
        ensures aims { IfOk result (Aims (view self.now).mark (B.cells bank.now) (hand_of (view self.now) g)) }
        ensures misses { IfErr result (Misses (view self.now).mark (B.cells bank.now) (hand_of (view self.now) g)) }
    {
        let Field::To(r) = self.hand(g) else {
            return Err(Cause::NilHand);
        };
        match cell_at(bank, r.address) {
            Cell::Leaf(_) => Err(Cause::LeafCell),
            Cell::Pair { left, right } if r.address < self.mark => Ok(Target {
                address: r.address,
                left,
                right,
            }),
            _ => Err(Cause::Spoiled),
        }
    }
}
