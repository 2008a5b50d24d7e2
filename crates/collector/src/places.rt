// The places that a collection visits: hands, and sides of new cells. A cell that was read once is not read again.
ghost use Rattle.std.specs.Prelude.{◌≡◌, ◌<◌, true, false, if◌then◌else◌, List, Ok, Err};
ghost use Rattle.cells.specs.declared.Cell.{Cell};
ghost use Rattle.cells.specs.declared.causes.Cause.TheVariants.{Spoiled};
ghost use Rattle.graph.specs.Places.{field_of};
ghost use Rattle.store.specs.Fields.{past, with_side};
ghost use Rattle.store.specs.Model.{is_collecting};
ghost use Rattle.store.specs.Record.{view};
ghost use Rattle.collector.specs.Steps.{source_at};
ghost use Rattle.collector.specs.Places.{place_left, cell_at_place, cells_at, with_hands_at, place_fits, visitable, field_there};

use cells::banks::{Bank, cell_at};
use cells::causes::Cause;
use cells::leaves::LeafKind;
use cells::{Cell, Field, Side, Source};
use store::Mode;
use store::record::Record;
use store::turns::Happening;

// The place of a step.
fn place_of(steps: u32) -> Source
    requires { steps < 131088 }
    ensures { result ≡ source_at steps }
{
    if steps < 16 {
        return Source::Hand(steps as u16);
    }
    let at = ((steps - 16) / 2) as u16;
    let side = if steps % 2 == 0 {
        Side::Left
    } else {
        Side::Right
    };
    Source::Cell(at, side)
}

// The place of the next step, where a collection has one left.
pub fn next_place(store: &Record) -> Option<Source>
    ensures { result ≡ place_left (view store.now).mode }
{
    match store.mode() {
        Mode::Collecting { steps, copied, .. } if steps < 16 + 2 * copied as u32 => Some(place_of(
            steps,
        )),
        _ => None,
    }
}

// A pair with one side set; any other cell as it is.
fn with_side<V: LeafKind>(cell: &Cell<V>, side: Side, field: Field) -> Cell<V>
    ensures { result ≡ with_side side field cell.now }
{
    match (*cell, side) {
        (Cell::Pair { right, .. }, Side::Left) => Cell::Pair { left: field, right },
        (Cell::Pair { left, .. }, Side::Right) => Cell::Pair { left, right: field },
        _ => *cell,
    }
}

fn field_of<V: LeafKind>(cell: &Cell<V>, side: Side) -> Field
    ensures { result ≡ field_of side cell.now }
{
    match (*cell, side) {
        (Cell::Pair { left, .. }, Side::Left) => left,
        (Cell::Pair { right, .. }, Side::Right) => right,
        _ => Field::Nil,
    }
}

// The new cell that a place belongs to, or a refusal of one that is neither a pair nor a leaf.
pub fn cell_visited<V: LeafKind, N: Bank<V>>(new: &N, at: Source) -> Result<Cell<V>, Cause>
    ensures { result ≡ (if visitable at (cell_at_place (N.cells new.now) at) then Ok (cell_at_place (N.cells new.now) at) else Err Spoiled) }
{
    let Source::Cell(a, _) = at else {
        return Ok(Cell::Blank);
    };
    let cell = cell_at(new, a);
    match cell {
        Cell::Pair { .. } | Cell::Leaf(_) => Ok(cell),
        Cell::Blank | Cell::Moved { .. } => Err(Cause::Spoiled),
    }
}

// What a place holds.
pub fn field_visited<V: LeafKind>(store: &Record, at: Source, cell: &Cell<V>) -> Field
    ensures { result ≡ field_there (view store.now).hands at cell.now }
{
    match at {
        Source::Nowhere => Field::Nil,
        Source::Hand(h) => store.hand(h),
        Source::Cell(_, side) => field_of(cell, side),
    }
}

// A place that takes a field: a hand up to 15, or a side of a pair.
#[derive(Drop)]
pub struct Place<V> {
    pub at: Source,
    // the new cell whose side the place is; a hand is in none
    pub cell: Cell<V>,
    ghost fits: { place_fits at cell ≡ true },
}

impl<V: LeafKind> Place<V> {
    // Puts a field there.
    pub fn put<N: Bank<V>>(&self, store: &mut Record, new: &mut N, field: Field)
        requires collects { is_collecting (view store.old).mode ≡ true }
        requires inside { past (view store.old).size field ≡ false }
        ensures model { view store.new ≡ with_hands_at (view store.old) self.now.at field }
        ensures cells { N.cells new.new ≡ cells_at self.now.at field self.now.cell (N.cells new.old) }
        ensures rooted { N.root new.new ≡ N.root new.old }
    {
        match self.at {
            Source::Nowhere => {}
            Source::Hand(hand) => {
                let _ = store.advance(Happening::Placed { hand, field });
            }
            Source::Cell(a, side) => {
                let _ = new.put(a, &with_side(&self.cell, side, field));
            }
        }
    }

    // The same place once a field was put into another: the two may be sides of one pair.
    pub fn since(self, other: &Place<V>, field: Field) -> Place<V>
        ensures at { result.at ≡ self.at }
        ensures cell { (new : List (Cell V)) → other.now.cell ≡ cell_at_place new other.now.at → self.cell ≡ cell_at_place new self.at → result.cell ≡ cell_at_place (cells_at other.now.at field other.now.cell new) self.at }
    {
        match (other.at, self.at) {
            (Source::Cell(a, side), Source::Cell(b, _)) if a == b => Place {
                at: self.at,
                cell: with_side(&other.cell, side, field),
            },
            _ => self,
        }
    }
}
