// Memory lent to code that knows a bank by its trait alone: the lender knows after what the memory holds.
ghost use Rattle.std.specs.Prelude.{◌≡◌, true};
ghost use Rattle.cells.specs.Banks.{takes, after_put};
ghost use Rattle.banks.specs.Open.{open_cells};
ghost use Rattle.banks.specs.Packed.{nine_at, left_over, packed_cells, packed_takes};
ghost use Rattle.packing.specs.Cells.{pack_cell};

use crate::open::OpenBank;
use crate::packed::{PackedBank, size_packed};
use cells::Cell;
use cells::banks::Bank;
use cells::leaves::LeafKind;

// Puts a cell into any bank.
pub fn put_through<V: LeafKind, B: Bank<V>>(bank: &mut B, at: u16, cell: &Cell<V>) -> bool
    ensures answer { result ≡ takes V.lawful (B.cells bank.old) at cell.now }
    ensures after { B.cells bank.new ≡ after_put V.lawful (B.cells bank.old) at cell.now }
    ensures rooted { B.root bank.new ≡ B.root bank.old }
{
    bank.put(at, cell)
}

// Puts a cell into lent cells.
pub fn put_into_cells<V: LeafKind>(lent: &mut [Cell<V>], at: u16, cell: &Cell<V>) -> bool
    ensures answer { result ≡ takes V.lawful (open_cells V.lawful lent.old) at cell.now }
    ensures after { open_cells V.lawful lent.new ≡ after_put V.lawful (open_cells V.lawful lent.old) at cell.now }
{
    let mut bank = OpenBank::new(lent);
    put_through(&mut bank, at, cell)
}

fn put_into_all<V: LeafKind>(bytes: &mut [u8], at: u16, cell: &Cell<V>) -> bool
    ensures answer { result ≡ takes V.lawful (packed_cells V.taken bytes.old) at cell.now }
    ensures after { packed_cells V.taken bytes.new ≡ after_put V.lawful (packed_cells V.taken bytes.old) at cell.now }
{
    let mut bank = PackedBank::new(bytes);
    put_through(&mut bank, at, cell)
}

// Puts a cell into lent bytes. A cell that was put has its own `nine`. Those left over are not lent, so they stay.
pub fn put_into_bytes<V: LeafKind>(bytes: &mut [u8], at: u16, cell: &Cell<V>) -> bool
    ensures answer { result ≡ packed_takes V.lawful bytes.old at cell.now }
    ensures after { packed_cells V.taken bytes.new ≡ after_put V.lawful (packed_cells V.taken bytes.old) at cell.now }
    ensures nine { result ≡ true → nine_at bytes.new at ≡ pack_cell V.lawful V.word cell.now }
    ensures rest { left_over bytes.new ≡ left_over bytes.old }
{
    let used = 9 * size_packed(bytes);
    put_into_all(&mut bytes[0..used], at, cell)
}
