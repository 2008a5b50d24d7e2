// What an image holds, counted.
ghost use Rattle.std.specs.Prelude.{◌≡◌, ◌<◌};
ghost use Rattle.reports.specs.Counts.{in_use, hands_used, with_found, tallied};

use cells::{Cell, Field};
use dumps::Tally;
use images::{cell_of, hand_of};
use texts::typed::TypedLeaf;

fn is_in_use(hand: Option<Field>) -> bool
    ensures { result ≡ in_use hand }
{
    matches!(hand, Some(Field::To(_)))
}

// How many of the sixteen hands refer to a cell.
pub fn hands_in_use(image: &[u8]) -> u8
    ensures { result ≡ hands_used image.now 16 }
{
    (0..16).filter(|&i| is_in_use(hand_of(image, i))).count() as u8
}

fn with_found<V: TypedLeaf>(tally: Tally, found: Option<Cell<V>>) -> Tally
    ensures { result ≡ with_found tally found }
{
    found.map_or(tally, |cell| tally.with(cell))
}

// How many of the first cells of an image there are of each kind.
pub fn tally_of<V: TypedLeaf>(image: &[u8], count: u16) -> Tally
    ensures { result ≡ tallied V.taken image.now count }
{
    (0..count).fold(Tally::NONE, |tally, at| {
        with_found(tally, cell_of::<V>(image, at))
    })
}
