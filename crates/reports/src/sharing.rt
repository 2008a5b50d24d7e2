// Which cells of an image are shared, for its drawing.
ghost use Rattle.std.specs.Prelude.{◌≡◌};
ghost use Rattle.images.specs.Layout.{or_nil};
ghost use Rattle.reports.specs.Sharing.{marked_by, marked, marked_sides, marked_cells, is_marked};

use cells::leaves::LeafKind;
use cells::{Cell, Field, Tag};
use images::{cell_of, hand_of};

// A mark for each address to which a STICKY reference leads.
#[derive(Drop)]
pub struct Shared {
    marks: [bool; 32768],
}

impl Shared {
    // By index and no `get_mut`, of which no proof was found that the write reaches the mark.
    fn mark_address(&mut self, at: u16)
        ensures { self.new.marks ≡ marked_by Tag.Sticky self.old.marks at }
    {
        let a = at as usize;
        if a < self.marks.len() {
            self.marks[a] = true;
        }
    }

    fn mark(&mut self, field: Field)
        ensures { self.new.marks ≡ marked self.old.marks field }
    {
        match field {
            Field::To(r) if r.tag == Tag::Sticky => self.mark_address(r.address),
            _ => {}
        }
    }

    fn mark_sides<V: LeafKind>(&mut self, found: Option<Cell<V>>)
        ensures { self.new.marks ≡ marked_sides self.old.marks found }
    {
        if let Some(Cell::Pair { left, right }) = found {
            self.mark(left);
            self.mark(right);
        }
    }

    fn mark_hand(&mut self, found: Option<Field>)
        ensures { self.new.marks ≡ marked self.old.marks (or_nil found) }
    {
        if let Some(field) = found {
            self.mark(field);
        }
    }

    // Whether a cell is shared.
    pub fn has(&self, at: u16) -> bool
        ensures { result ≡ is_marked self.now.marks at }
    {
        self.marks.get(at as usize).copied().unwrap_or(false)
    }
}

// The shared cells among the first cells of an image. Loops, since a fold would move the marks at each cell.
pub fn shared_cells<V: LeafKind>(image: &[u8], count: u16) -> Shared
    ensures { result.marks ≡ marked_cells V.taken image.now count }
{
    let mut shared = Shared {
        marks: [false; 32768],
    };
    for i in 0..16 {
        shared.mark_hand(hand_of(image, i));
    }
    for at in 0..count {
        shared.mark_sides(cell_of::<V>(image, at));
    }
    shared
}
