// The calls on a record and its ticket.
ghost use Rattle.std.specs.Prelude.{◌≡◌, true, false, List, length, is_ok, is_some};
ghost use Rattle.cells.specs.declared.Cell.{Cell};
ghost use Rattle.store.specs.Record.{view, made};
ghost use Rattle.collector.specs.Collections.{begin, slice, finish, abandon};
ghost use Rattle.collector.specs.Visits.{banks_at};
ghost use Rattle.runs.specs.Scripts.{Edited, Acts, idle_cause, exchanged_if};
ghost use Rattle.images.specs.Opening.{Opened};
ghost use Rattle.images.specs.Writing.{write_answer, bytes_after};
ghost use Rattle.runs.specs.Rigs.{kept_by, Replaced};

use crate::edits::edit;
use crate::keepers::Keeper;
use crate::scripts::{Answer, Edit};
use cells::banks::Bank;
use cells::causes::Cause;
use cells::leaves::LeafKind;
use collector::calls::{abandon, begin, both_sized, finish, slice};
use collector::tickets::Ticket;
use images::opening::open;
use images::writing::write;
use store::record::Record;

// A ticket cannot be let fall, so that it is kept only where there is none; a refusal hands it back by value.
fn keep(place: &mut Option<Ticket>, ticket: Ticket)
    requires { is_some place.old ≡ false }
    ensures { is_some place.new ≡ true }
{
    match place.replace(ticket) {
        None => {}
        Some(_) => unreachable(),
    }
}

impl Keeper {
    pub fn new(size: usize) -> Result<Keeper, Cause>
        ensures { kept_by result ≡ made size }
    {
        Ok(Keeper {
            store: Record::new(size)?,
            ticket: None,
        })
    }

    #[inline(always)]
    pub fn edit<V: LeafKind, W: Bank<V>>(
        &mut self,
        working: &mut W,
        call: Edit<V>,
    ) -> Result<Answer<V>, Cause>
        ensures edited { Edited V.tidied call (view self.old.store) (W.cells working.old) result (view self.new.store) (W.cells working.new) }
        ensures rooted { W.root working.new ≡ W.root working.old }
    {
        edit(&mut self.store, working, call)
    }

    pub fn begin<V: LeafKind, O: Bank<V>, N: Bank<V>>(
        &mut self,
        working: &O,
        spare: &N,
    ) -> Result<Answer<V>, Cause>
        ensures { Acts (begin (N.cells spare.now)) (banks_at (view self.old.store) (O.cells working.now) (N.cells spare.now)) result (banks_at (view self.new.store) (O.cells working.now) (N.cells spare.now)) }
    {
        let ticket = begin(&mut self.store, working, spare)?;
        keep(&mut self.ticket, ticket);
        Ok(Answer::Ready)
    }
}

// Why a collection's call is refused by a store that does not collect.
fn idle_cause(store: &Record, old: usize, new: usize) -> Cause
    ensures { result ≡ idle_cause (view store.now).size old new }
{
    both_sized(store, old, new)
        .err()
        .unwrap_or(Cause::NotCollecting)
}

impl Keeper {
    pub fn slice<V: LeafKind, O: Bank<V>, N: Bank<V>>(
        &mut self,
        old: &mut O,
        new: &mut N,
        budget: u32,
    ) -> Result<Answer<V>, Cause>
        ensures acts { Acts (slice budget) (banks_at (view self.old.store) (O.cells old.old) (N.cells new.old)) result (banks_at (view self.new.store) (O.cells old.new) (N.cells new.new)) }
        ensures old_rooted { O.root old.new ≡ O.root old.old }
        ensures new_rooted { N.root new.new ≡ N.root new.old }
    {
        let Some(ticket) = &self.ticket else {
            return Err(idle_cause(&self.store, old.size(), new.size()));
        };
        Ok(Answer::Stepped(slice(ticket, &mut self.store, old, new, budget)?))
    }

    pub fn finish<V: LeafKind, O: Bank<V>, N: Bank<V>>(
        &mut self,
        old: &mut O,
        new: &mut N,
    ) -> Result<Answer<V>, Cause>
        ensures acts { Acts finish (banks_at (view self.old.store) (O.cells old.old) (N.cells new.old)) result (exchanged_if (is_ok result) (view self.new.store) (O.cells old.new) (N.cells new.new)) }
        ensures old_rooted { O.root old.new ≡ O.root old.old }
        ensures new_rooted { N.root new.new ≡ N.root new.old }
    {
        let Some(ticket) = self.ticket.take() else {
            return Err(idle_cause(&self.store, old.size(), new.size()));
        };
        match finish(ticket, &mut self.store, old, new) {
            Ok((kept, marks)) => Ok(Answer::Kept { kept, marks }),
            Err((cause, ticket)) => {
                keep(&mut self.ticket, ticket);
                Err(cause)
            }
        }
    }

    pub fn abandon<V: LeafKind, O: Bank<V>>(&mut self, old: &O) -> Result<Answer<V>, Cause>
        ensures { (fresh : List (Cell V)) → Acts abandon (banks_at (view self.old.store) (O.cells old.now) fresh) result (banks_at (view self.new.store) (O.cells old.now) fresh) }
    {
        let Some(ticket) = self.ticket.take() else {
            return Err(idle_cause(&self.store, old.size(), old.size()));
        };
        match abandon(ticket, &mut self.store, old) {
            Ok(()) => Ok(Answer::Ready),
            Err((cause, ticket)) => {
                keep(&mut self.ticket, ticket);
                Err(cause)
            }
        }
    }

    // Replaces a store that does not collect by the one of an image, in the working bank.
    pub fn open<V: LeafKind, W: Bank<V>>(
        &mut self,
        working: &mut W,
        image: &[u8],
    ) -> Result<(), Cause>
        ensures replaced { (fresh : List (Cell V)) → Replaced (Opened V.lawful V.word V.taken V.number image.now) (banks_at (view self.old.store) (W.cells working.old) fresh) result (banks_at (view self.new.store) (W.cells working.new) fresh) }
        ensures rooted { W.root working.new ≡ W.root working.old }
    {
        if self.ticket.is_some() {
            return Err(Cause::Collecting);
        }
        self.store = open::<V, W>(working, image)?;
        Ok(())
    }

    pub fn write<V: LeafKind, W: Bank<V>>(
        &self,
        working: &W,
        bytes: &mut [u8],
    ) -> Result<usize, Cause>
        ensures answer { result ≡ write_answer (view self.now.store) (W.cells working.now) (length bytes.old) }
        ensures after { bytes.new ≡ bytes_after V.lawful V.word V.number (view self.now.store) (W.cells working.now) bytes.old }
    {
        write(&self.store, working, bytes)
    }

    pub fn store(&self) -> &Record
        ensures { result.now ≡ self.now.store }
    {
        &self.store
    }

    // Gives the store up; a collection that is under way is abandoned.
    pub fn end<V: LeafKind, W: Bank<V>>(self, working: &W)
        requires { length (W.cells working.now) ≡ (view self.store).size }
    {
        let Keeper { mut store, ticket } = self;
        if let Some(ticket) = ticket {
            match abandon(ticket, &mut store, working) {
                Ok(()) => {}
                Err(_) => unreachable(),
            }
        }
    }
}
