// What a store keeps beside its bank. Whatever a record holds lies inside the bank.
ghost use Rattle.std.specs.Prelude.{◌≡◌, ◌<◌, ◌≤◌, true, false, ◌⊎◌, length, IfSome, IfOk, IfErr, Ok, Err};
ghost use Rattle.cells.specs.declared.causes.Cause.TheVariants.{SizeOutOfRange};
ghost use Rattle.store.specs.Fields.{past};
ghost use Rattle.store.specs.Bounds.{hands_below, listed_below, listed_at, counts_within, top_of};
ghost use Rattle.store.specs.Calls.{unless, size_cause};

use crate::Mode;
use crate::free::FreeList;
use crate::hands::Hands;
use cells::causes::Cause;
use cells::{Field, Tag};

mod advancing;
mod calls;
mod placing;
mod targets;

#[derive(Drop)]
pub struct Record {
    size: u16,
    mark: u16,
    hands: Hands,
    free: FreeList,
    mode: Mode,
    ghost some: { 1 ≤ size },
    ghost fits: { size ≤ 32768 },
    ghost marked: { mark ≤ size },
    ghost held: { hands_below size hands.fields ≡ true },
    ghost few: { length free ≤ 16 },
    ghost below: { listed_below size free ≡ true },
    ghost counted: { counts_within size mode ≡ true },
}

// The size of a bank over which a store can be made, or its refusal.
pub fn checked_size(size: usize) -> Result<u16, Cause>
    ensures answer { result ≡ unless (size_cause size) size Err Ok }
    ensures fits { IfOk result (λ n. (n ≡ size) × (1 ≤ size) × (size ≤ 32768)) }
    ensures refused { IfErr result (λ cause. (cause ≡ SizeOutOfRange) × ((size ≡ 0) ⊎ (32768 < size))) }
{
    match size {
        1..=32768 => Ok(size as u16),
        _ => Err(Cause::SizeOutOfRange),
    }
}

// A function, since `Field` is a type of another crate, and a trait for it would be no plainer.
fn is_past(bound: u16, field: Field) -> bool
    ensures { result ≡ past bound field }
{
    match field {
        Field::Nil => false,
        Field::To(r) => r.address >= bound,
    }
}

fn all_below(bound: u16, fields: &[Field]) -> bool
    ensures { result ≡ hands_below bound fields.now }
{
    fields.iter().all(|f| !is_past(bound, *f))
}

impl Record {
    ghost use Rattle.store.specs.Model.{hand_of};
    ghost use Rattle.store.specs.Record.{view, viewed, made, field_let_go, top_taken};
    ghost use Rattle.store.specs.Restoring.{restored_model};

    // A record over a bank of that size, or the refusal of a size that no store has.
    pub fn new(size: usize) -> Result<Record, Cause>
        ensures { viewed result ≡ made size }
    {
        Ok(Record {
            size: checked_size(size)?,
            mark: 0,
            hands: Hands::new(),
            free: FreeList::new(),
            mode: Mode::Settled,
        })
    }

    // A settled record over a bank of that size, with these hands and the cells below the mark kept.
    pub fn restored(size: usize, mark: u16, hands: &[Field; 16]) -> Result<Record, Cause>
        ensures { viewed result ≡ restored_model size mark hands.now }
    {
        let size = checked_size(size)?;
        if mark > size {
            return Err(Cause::NoRoom);
        }
        if !all_below(size, hands) {
            return Err(Cause::NotAnImage);
        }
        Ok(Record {
            size,
            mark,
            hands: Hands::of(*hands),
            free: FreeList::new(),
            mode: Mode::Settled,
        })
    }

    pub fn size(&self) -> u16
        ensures value { result ≡ (view self.now).size }
        ensures most { result ≤ 32768 }
    {
        self.size
    }

    pub fn mark(&self) -> u16
        ensures value { result ≡ (view self.now).mark }
        ensures within { result ≤ (view self.now).size }
    {
        self.mark
    }

    pub fn mode(&self) -> Mode
        ensures value { result ≡ (view self.now).mode }
        ensures within { counts_within (view self.now).size result ≡ true }
    {
        self.mode
    }

    // What a hand holds. There is nothing in a hand past the last.
    #[tactic(auto, using(crate::proofs::Keeping::held_at))]
    pub fn hand(&self, h: u16) -> Field
        ensures value { result ≡ hand_of (view self.now) h }
        ensures inside { past (view self.now).size result ≡ false }
    {
        self.hands.get(h as usize)
    }

    // All sixteen hands, in order.
    pub fn hands(&self) -> [Field; 16]
        ensures held { result ≡ (view self.now).hands }
        ensures sixteen { length result ≡ 16 }
    {
        self.hands.all()
    }

    // The free list from its bottom on: the address with an index, none from its end on.
    pub fn listed(&self, i: u8) -> Option<u16>
        ensures { result ≡ listed_at (view self.now).free i }
    {
        self.free.get(i)
    }

    // Lists the address of a UNIQUE reference below the mark; anything else is dropped without a trace.
    fn let_go(&mut self, field: Field)
        ensures { view self.new ≡ field_let_go (view self.old) field }
    {
        if let Field::To(r) = field
            && r.tag == Tag::Unique
            && r.address < self.mark
        {
            self.free.push(r.address);
        }
    }

    // Takes the top off the free list.
    fn take_top(&mut self) -> Option<u16>
        ensures answer { result ≡ top_of (view self.old).free }
        ensures after { view self.new ≡ top_taken (view self.old) }
        ensures inside { IfSome result (λ a. a < (view self.old).size) }
    {
        self.free.pop()
    }
}
