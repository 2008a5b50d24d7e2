// A bank over lent cells. A lent leaf that is not lawful reads as blank.
ghost use Rattle.std.specs.Prelude.{◌≡◌, true, length};
ghost use Rattle.cells.specs.Banks.{cell_at, takes, after_put, leaf_lawful, found_lawful, storable};
ghost use Rattle.banks.specs.Open.{readable, found_readable, open_cells};

use cells::Cell;
use cells::banks::Bank;
use cells::leaves::LeafKind;

fn is_lawful<V: LeafKind>(v: V) -> bool
    ensures { result ≡ V.lawful v }
{
    v.to_word().is_some()
}

// Whether a bank takes the cell at an address below its size.
pub fn is_storable<V: LeafKind>(cell: &Cell<V>) -> bool
    ensures { result ≡ storable V.lawful cell.now }
{
    match *cell {
        Cell::Blank => false,
        Cell::Leaf(v) => is_lawful(v),
        Cell::Pair { .. } | Cell::Moved { .. } => true,
    }
}

fn as_read<V: LeafKind>(cell: &Cell<V>) -> Cell<V>
    ensures { result ≡ readable V.lawful cell.now }
{
    match *cell {
        Cell::Leaf(v) if !is_lawful(v) => Cell::Blank,
        _ => *cell,
    }
}

// The lent cell at an address as it reads, none at or past the end.
#[tactic(auto, using(crate::proofs::LentCells::cell_at_in, crate::proofs::LentCells::cell_at_past))]
pub fn read_open<V: LeafKind>(lent: &[Cell<V>], at: u16) -> Option<Cell<V>>
    ensures found { result ≡ found_readable V.lawful (cell_at lent.now at) }
{
    Some(as_read(lent.get(at as usize)?))
}

// Writes a pair, a moved cell or a lawful leaf at an address below the length, and answers yes.
// Anything else gets no, and no lent cell is altered.
pub fn put_open<V: LeafKind>(lent: &mut [Cell<V>], at: u16, cell: &Cell<V>) -> bool
    ensures answer { result ≡ takes V.lawful lent.old at cell.now }
    ensures after { lent.new ≡ after_put V.lawful lent.old at cell.now }
{
    let i = at as usize;
    if i >= lent.len() || !is_storable(cell) {
        return false;
    }
    // By index and no `get_mut`, of which no proof was found that the write reaches the cell.
    lent[i] = *cell;
    true
}

#[derive(Drop)]
pub struct OpenBank<'a, V> {
    lent: &'a mut [Cell<V>],
}

impl<'a, V: LeafKind> OpenBank<'a, V> {
    pub fn new(lent: &'a mut [Cell<V>]) -> Self
        ensures held { result.lent.now ≡ lent.old }
        ensures rooted { result.lent.ghost_name ≡ lent.entry.ghost_name }
    {
        OpenBank { lent }
    }
}

impl<'a, V: LeafKind> Bank<V> for OpenBank<'a, V> {
    ghost cells = { λ b. open_cells V.lawful b.lent.now };

    ghost root = { λ b. b.lent.ghost_name };

    fn size(&self) -> usize {
        self.lent.len()
    }

    #[tactic(auto, using(crate::proofs::LentCells::cell_at_open, crate::proofs::LentCells::readable_lawful))]
    fn read(&self, at: u16) -> Option<Cell<V>> {
        read_open(self.lent, at)
    }

    #[tactic(auto, using(crate::proofs::LentCells::takes_open, crate::proofs::LentCells::open_after))]
    fn put(&mut self, at: u16, cell: &Cell<V>) -> bool {
        put_open(self.lent, at, cell)
    }
}
