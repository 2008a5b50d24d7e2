// The calls of a collection. The first cause that applies refuses a call, and then nothing changes; a spoiled one keeps the steps
// completed.
ghost use Rattle.std.specs.Prelude.{◌≡◌, List};
ghost use Rattle.cells.specs.declared.Cell.{Cell};
ghost use Rattle.store.specs.Record.{view};
ghost use Rattle.collector.specs.Collections.{begin, slice, finish, abandon};
ghost use Rattle.collector.specs.Visits.{banks_at};
ghost use Rattle.collector.specs.Acts.{Acted, begun_reply, sliced_reply, finished_reply, abandoned_reply, settled_reply, renewed_reply, exchanged_by, both_sized, under_way};

use crate::counts::Counts;
use crate::marches::make_steps;
use crate::tickets::Ticket;
use cells::banks::Bank;
use cells::causes::Cause;
use cells::leaves::LeafKind;
use store::Mode;
use store::record::Record;
use store::turns::Happening;

// Refuses banks of another size.
pub fn both_sized(store: &Record, old: usize, new: usize) -> Result<(), Cause>
    ensures { result ≡ both_sized (view store.now) old new }
{
    let size = store.size() as usize;
    if old != size || new != size {
        return Err(Cause::OtherSize);
    }
    Ok(())
}

// Refuses banks of another size, and a store that does not collect.
fn under_way(store: &Record, old: usize, new: usize) -> Result<(), Cause>
    ensures { result ≡ under_way (view store.now) old new }
{
    both_sized(store, old, new)?;
    match store.mode() {
        Mode::Collecting { .. } => Ok(()),
        Mode::Settled | Mode::Working => Err(Cause::NotCollecting),
    }
}

// Makes the store collecting: the working bank is the old one from now on, and the spare the new one.
#[tactic(auto, unfolding(crate::specs::Collections::act_cause))]
pub fn begin<V: LeafKind, O: Bank<V>, N: Bank<V>>(
    store: &mut Record,
    working: &O,
    spare: &N,
) -> Result<Ticket, Cause>
    ensures { Acted (begin (N.cells spare.now)) (banks_at (view store.old) (O.cells working.now) (N.cells spare.now)) (begun_reply result) (banks_at (view store.new) (O.cells working.now) (N.cells spare.now)) }
{
    both_sized(store, working.size(), spare.size())?;
    store.advance(Happening::Begun)?;
    Ok(Ticket::new())
}

// Makes as many steps as the budget allows and as are left, and answers how many.
#[tactic(auto, unfolding(crate::specs::Collections::act_cause))]
pub fn slice<V: LeafKind, O: Bank<V>, N: Bank<V>>(
    _ticket: &Ticket,
    store: &mut Record,
    old: &mut O,
    new: &mut N,
    budget: u32,
) -> Result<u32, Cause>
    ensures acted { Acted (slice budget) (banks_at (view store.old) (O.cells old.old) (N.cells new.old)) (sliced_reply result) (banks_at (view store.new) (O.cells old.new) (N.cells new.new)) }
    ensures old_rooted { O.root old.new ≡ O.root old.old }
    ensures new_rooted { N.root new.new ≡ N.root new.old }
{
    under_way(store, old.size(), new.size())?;
    let before = Counts::of(store).steps;
    make_steps(store, old, new, budget)?;
    Ok(Counts::of(store).steps.saturating_sub(before))
}

// Makes the steps that are left, and settles.
#[tactic(auto, unfolding(crate::specs::Collections::act_cause))]
fn settle<V: LeafKind, O: Bank<V>, N: Bank<V>>(
    store: &mut Record,
    old: &mut O,
    new: &mut N,
) -> Result<(u32, u32), Cause>
    ensures acted { Acted finish (banks_at (view store.old) (O.cells old.old) (N.cells new.old)) (settled_reply result) (exchanged_by result (view store.new) (O.cells old.new) (N.cells new.new)) }
    ensures old_rooted { O.root old.new ≡ O.root old.old }
    ensures new_rooted { N.root new.new ≡ N.root new.old }
{
    under_way(store, old.size(), new.size())?;
    let most = (16 + 2 * store.size() as u32).saturating_sub(Counts::of(store).steps);
    make_steps(store, old, new, most)?;
    let counts = Counts::of(store);
    store.advance(Happening::Finished)?;
    Ok((counts.copied as u32, counts.marks))
}

// Makes the steps that are left, and settles: the new bank is the working one from then on. Answers the cells kept and the marks.
pub fn finish<V: LeafKind, O: Bank<V>, N: Bank<V>>(
    ticket: Ticket,
    store: &mut Record,
    old: &mut O,
    new: &mut N,
) -> Result<(u32, u32), (Cause, Ticket)>
    ensures acted { Acted finish (banks_at (view store.old) (O.cells old.old) (N.cells new.old)) (finished_reply result) (exchanged_by result (view store.new) (O.cells old.new) (N.cells new.new)) }
    ensures old_rooted { O.root old.new ≡ O.root old.old }
    ensures new_rooted { N.root new.new ≡ N.root new.old }
{
    ticket.spend_on(settle(store, old, new))
}

// Makes the store a new one.
#[tactic(auto, unfolding(crate::specs::Collections::act_cause))]
fn renew<V: LeafKind, O: Bank<V>>(store: &mut Record, old: &O) -> Result<(), Cause>
    ensures { (fresh : List (Cell V)) → Acted abandon (banks_at (view store.old) (O.cells old.now) fresh) (renewed_reply result) (banks_at (view store.new) (O.cells old.now) fresh) }
{
    both_sized(store, old.size(), old.size())?;
    store.advance(Happening::Abandoned)
}

// Leaves a new store on the old bank.
pub fn abandon<V: LeafKind, O: Bank<V>>(
    ticket: Ticket,
    store: &mut Record,
    old: &O,
) -> Result<(), (Cause, Ticket)>
    ensures { (fresh : List (Cell V)) → Acted abandon (banks_at (view store.old) (O.cells old.now) fresh) (abandoned_reply result) (banks_at (view store.new) (O.cells old.now) fresh) }
{
    ticket.spend_on(renew(store, old))
}
