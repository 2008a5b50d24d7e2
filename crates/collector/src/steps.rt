// One step of a collection. All of what spoils it is asked before the first write.
// A step is handed the record and both banks, each with a loan of its own: a struct of the three would name the three loans in
// every contract, and no contract would be shorter.
ghost use Rattle.std.specs.Prelude.{◌≡◌, ◌<◌, true, not, Some};
ghost use Rattle.cells.specs.Banks.{storable};
ghost use Rattle.cells.specs.declared.Tag.TheVariants.{Unique};
ghost use Rattle.cells.specs.declared.Field.TheVariants.{To};
ghost use Rattle.store.specs.Record.{view};
ghost use Rattle.collector.specs.Steps.{source_good, forward_spoiled, field_spoiled, step_spoiled, copied_over, second_met, forwarded, met_field, stepped};
ghost use Rattle.collector.specs.Places.{place_left};
ghost use Rattle.collector.specs.Visits.{banks_at, Visiting, Went, FindsSource, roomless};

use crate::counts::Counts;
use crate::places::{Place, cell_visited, field_visited};
use cells::banks::{Bank, cell_at};
use cells::causes::Cause;
use cells::leaves::LeafKind;
use cells::{Cell, Field, Reference, Source, Tag};
use store::record::Record;
use store::turns::Happening;

// The place of a source, or a refusal of a source that is none: it is a hand, or a side of a pair copied before.
fn place_of_source<V: LeafKind, N: Bank<V>>(
    new: &N,
    copied: u16,
    source: Source,
) -> Result<Place<V>, Cause>
    ensures { FindsSource copied (N.cells new.now) source result }
{
    match source {
        Source::Hand(h) if h < 16 => Ok(Place {
            at: source,
            cell: Cell::Blank,
        }),
        Source::Cell(a, _) if a < copied => {
            let cell = cell_at(new, a);
            match cell {
                Cell::Pair { .. } => Ok(Place { at: source, cell }),
                _ => Err(Cause::Spoiled),
            }
        }
        _ => Err(Cause::Spoiled),
    }
}

// A visit of a place that holds a reference, with the next unused new address.
#[derive(Drop)]
pub struct Visit<V> {
    pub copied: u16,
    pub place: Place<V>,
    pub met: Reference,
}

impl<V: LeafKind> Visit<V> {
    // Copies a cell to the next unused new address. An old cell that was met by a STICKY reference is marked.
    fn copy_over<O: Bank<V>, N: Bank<V>>(
        &self,
        store: &mut Record,
        old: &mut O,
        new: &mut N,
        cell: &Cell<V>,
    ) -> Result<(), Cause>
        requires visiting { Visiting (view store.old) (N.cells new.old) self.now }
        requires storable { storable V.lawful cell.now ≡ true }
        ensures went { Went roomless (λ t. copied_over t self.now.met cell.now) (banks_at (view store.old) (O.cells old.old) (N.cells new.old)) result (banks_at (view store.new) (O.cells old.new) (N.cells new.new)) }
        ensures old_rooted { O.root old.new ≡ O.root old.old }
        ensures new_rooted { N.root new.new ≡ N.root new.old }
    {
        let marks = self.met.tag == Tag::Sticky;
        store.advance(Happening::Stepped {
            copies: true,
            marks,
        })?;
        let forward = Reference {
            tag: Tag::Unique,
            address: self.copied,
        };
        let _ = new.put(self.copied, cell);
        self.place.put(store, new, Field::To(forward));
        if marks {
            let _ = old.put(
                self.met.address,
                &Cell::Moved {
                    forward,
                    source: self.place.at,
                },
            );
        }
        Ok(())
    }

    // Met a second time: the forward becomes STICKY at the old cell, at this place and at the source.
    fn meet_again<O: Bank<V>, N: Bank<V>>(
        &self,
        store: &mut Record,
        old: &mut O,
        new: &mut N,
        address: u16,
        source: Source,
    ) -> Result<(), Cause>
        requires visiting { Visiting (view store.old) (N.cells new.old) self.now }
        requires below { address < self.now.copied }
        ensures went { Went (λ t. not (source_good t.copied t.new source)) (λ t. second_met t self.now.met (record { tag = Unique; address = address }) source) (banks_at (view store.old) (O.cells old.old) (N.cells new.old)) result (banks_at (view store.new) (O.cells old.new) (N.cells new.new)) }
        ensures old_rooted { O.root old.new ≡ O.root old.old }
        ensures new_rooted { N.root new.new ≡ N.root new.old }
    {
        let place = place_of_source(new, self.copied, source)?;
        store.advance(Happening::Stepped {
            copies: false,
            marks: true,
        })?;
        let forward = Reference {
            tag: Tag::Sticky,
            address,
        };
        let field = Field::To(forward);
        let _ = old.put(self.met.address, &Cell::Moved { forward, source });
        self.place.put(store, new, field);
        place.since(&self.place, field).put(store, new, field);
        Ok(())
    }

    // Follows the forward of a moved cell.
    fn follow<O: Bank<V>, N: Bank<V>>(
        &self,
        store: &mut Record,
        old: &mut O,
        new: &mut N,
        forward: Reference,
        source: Source,
    ) -> Result<(), Cause>
        requires { Visiting (view store.old) (N.cells new.old) self.now }
        ensures went { Went (λ t. forward_spoiled t forward.tag forward source) (λ t. forwarded t self.now.met forward.tag forward source) (banks_at (view store.old) (O.cells old.old) (N.cells new.old)) result (banks_at (view store.new) (O.cells old.new) (N.cells new.new)) }
        ensures old_rooted { O.root old.new ≡ O.root old.old }
        ensures new_rooted { N.root new.new ≡ N.root new.old }
    {
        if forward.address >= self.copied {
            return Err(Cause::Spoiled);
        }
        match forward.tag {
            Tag::Unique => self.meet_again(store, old, new, forward.address, source),
            Tag::Sticky => {
                store.advance(Happening::Stepped {
                    copies: false,
                    marks: false,
                })?;
                self.place.put(store, new, Field::To(forward));
                Ok(())
            }
        }
    }

    // Goes on at the old cell that the place refers to.
    fn meet<O: Bank<V>, N: Bank<V>>(
        &self,
        store: &mut Record,
        old: &mut O,
        new: &mut N,
    ) -> Result<(), Cause>
        requires { Visiting (view store.old) (N.cells new.old) self.now }
        ensures went { Went (λ t. field_spoiled t (To self.now.met)) (λ t. met_field t (To self.now.met)) (banks_at (view store.old) (O.cells old.old) (N.cells new.old)) result (banks_at (view store.new) (O.cells old.new) (N.cells new.new)) }
        ensures old_rooted { O.root old.new ≡ O.root old.old }
        ensures new_rooted { N.root new.new ≡ N.root new.old }
    {
        if self.met.address >= store.mark() {
            return Err(Cause::Spoiled);
        }
        let cell = cell_at(old, self.met.address);
        match cell {
            Cell::Blank => Err(Cause::Spoiled),
            Cell::Moved { forward, source } => self.follow(store, old, new, forward, source),
            Cell::Pair { .. } | Cell::Leaf(_) => self.copy_over(store, old, new, &cell),
        }
    }
}

// Makes the next step of a collection, which visits this place.
pub fn step<V: LeafKind, O: Bank<V>, N: Bank<V>>(
    store: &mut Record,
    old: &mut O,
    new: &mut N,
    at: Source,
) -> Result<(), Cause>
    requires { place_left (view store.old).mode ≡ Some at }
    ensures went { Went step_spoiled stepped (banks_at (view store.old) (O.cells old.old) (N.cells new.old)) result (banks_at (view store.new) (O.cells old.new) (N.cells new.new)) }
    ensures old_rooted { O.root old.new ≡ O.root old.old }
    ensures new_rooted { N.root new.new ≡ N.root new.old }
{
    let cell = cell_visited(new, at)?;
    match field_visited(store, at, &cell) {
        Field::Nil => store.advance(Happening::Stepped {
            copies: false,
            marks: false,
        }),
        Field::To(met) => {
            let copied = Counts::of(store).copied;
            let place = Place { at, cell };
            Visit { copied, place, met }.meet(store, old, new)
        }
    }
}
