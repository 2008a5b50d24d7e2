// What a bank of cells promises. Store, collector and images know a bank by this trait alone.
ghost use Rattle.std.specs.Prelude.{◌≡◌, ℕ, true, List, length, slice_index_or};
ghost use Rattle.cells.specs.declared.Cell.{Cell as Stored};
ghost use Rattle.cells.specs.declared.Cell.TheVariants.{Blank};
ghost use Rattle.cells.specs.Banks.{cell_at, takes, after_put, leaf_lawful, found_lawful};

use crate::Cell;
use crate::leaves::LeafKind;

pub trait Bank<V: LeafKind> {
    // the cells, in the order of their addresses
    ghost cells: { Self → List (Stored V) };

    // the memory that was lent to the bank, by its name in the logic; a caller who lent it knows by this what it holds
    ghost root: { Self → ℕ };

    fn size(&self) -> usize
        ensures { result ≡ length (cells self.now) };

    // The cell at an address, none at or past the size. A leaf that is read is lawful.
    fn read(&self, at: u16) -> Option<Cell<V>>
        ensures found { result ≡ cell_at (cells self.now) at }
        ensures lawful { found_lawful V.lawful result ≡ true };

    // Writes a pair, a moved cell or a lawful leaf at an address below the size, and answers yes.
    // Anything else gets no, and no cell is altered. A bool, as of a set's `insert`: a caller in the core has asked before.
    fn put(&mut self, at: u16, cell: &Cell<V>) -> bool
        ensures answer { result ≡ takes V.lawful (cells self.old) at cell.now }
        ensures after { cells self.new ≡ after_put V.lawful (cells self.old) at cell.now }
        ensures rooted { root self.new ≡ root self.old };
}

// The cell at an address. Past the size there is as little as in a blank cell.
pub fn cell_at<V: LeafKind, B: Bank<V>>(bank: &B, at: u16) -> Cell<V>
    ensures found { result ≡ slice_index_or (B.cells bank.now) at Blank }
    ensures lawful { leaf_lawful V.lawful result ≡ true }
{
    bank.read(at).unwrap_or(Cell::Blank)
}
