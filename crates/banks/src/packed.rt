// A bank over lent bytes, nine to a cell. The bytes left over belong to no cell.
ghost use Rattle.std.specs.Prelude.{◌≡◌, ◌+◌, ◌*◌, ◌≤◌, true, false, length, MatchOption, nat_lt};
ghost use Rattle.cells.specs.Banks.{cell_at, takes, after_put, found_lawful};
ghost use Rattle.banks.specs.Packed.{size_of, nine_at, nine_set, cell_in, packed_cells, packed_takes, packed_after};
ghost use Rattle.packing.specs.Cells.{pack_cell, unpack_cell};

use crate::open::is_storable;
use cells::Cell;
use cells::banks::Bank;
use cells::leaves::LeafKind;
use packing::{pack_cell, unpack_cell};

// How many cells the bytes hold.
pub fn size_packed(bytes: &[u8]) -> usize
    ensures { result ≡ size_of bytes.now }
{
    bytes.len() / 9
}

// The nine bytes at an address, none at or past the size.
fn nine_at(bytes: &[u8], at: u16) -> Option<&[u8; 9]>
    ensures { MatchOption result (nat_lt at (size_of bytes.now) ≡ false) (λ nine. (nat_lt at (size_of bytes.now) ≡ true) × (nine.now ≡ nine_at bytes.now at)) }
{
    let p = 9 * at as usize;
    bytes.get(p..p + 9)?.first_chunk::<9>()
}

// The eight bytes of the body first: the compiler then joins them into one store, which it does not do with nine.
fn write_nine(bytes: &mut [u8], at: u16, nine: &[u8; 9])
    requires { 9 * at + 9 ≤ length bytes.old }
    ensures { bytes.new ≡ nine_set bytes.old at nine.now }
{
    let p = 9 * at as usize;
    bytes[p + 1..p + 9].copy_from_slice(&nine[1..9]);
    bytes[p] = nine[0];
}

// The cell of the nine bytes at an address, none at or past the size.
pub fn read_packed<V: LeafKind>(bytes: &[u8], at: u16) -> Option<Cell<V>>
    ensures found { result ≡ cell_in V.taken bytes.now at }
    ensures lawful { found_lawful V.lawful result ≡ true }
{
    Some(unpack_cell(*nine_at(bytes, at)?))
}

// Writes the nine bytes of a pair, a moved cell or a lawful leaf at an address below the size, and answers yes; else no, and
// nothing is altered.
pub fn put_packed<V: LeafKind>(bytes: &mut [u8], at: u16, cell: &Cell<V>) -> bool
    ensures answer { result ≡ packed_takes V.lawful bytes.old at cell.now }
    ensures back { result ≡ true → unpack_cell V.taken (pack_cell V.lawful V.word cell.now) ≡ cell.now }
    ensures after { bytes.new ≡ packed_after V.lawful V.word bytes.old at cell.now }
{
    if 9 * at as usize + 9 > bytes.len() || !is_storable(cell) {
        return false;
    }
    write_nine(bytes, at, &pack_cell(cell));
    true
}

#[derive(Drop)]
pub struct PackedBank<'a> {
    lent: &'a mut [u8],
}

impl<'a> PackedBank<'a> {
    pub fn new(lent: &'a mut [u8]) -> Self
        ensures held { result.lent.now ≡ lent.old }
        ensures rooted { result.lent.ghost_name ≡ lent.entry.ghost_name }
    {
        PackedBank { lent }
    }
}

impl<'a, V: LeafKind> Bank<V> for PackedBank<'a> {
    ghost cells = { λ b. packed_cells V.taken b.lent.now };

    ghost root = { λ b. b.lent.ghost_name };

    #[tactic(auto, using(crate::proofs::LentBytes::length_packed))]
    fn size(&self) -> usize {
        size_packed(self.lent)
    }

    #[tactic(auto, using(crate::proofs::LentBytes::cell_at_packed))]
    fn read(&self, at: u16) -> Option<Cell<V>> {
        read_packed(self.lent, at)
    }

    #[tactic(auto, using(crate::proofs::LentBytes::length_packed, crate::proofs::LentBytes::packed_after_lem))]
    fn put(&mut self, at: u16, cell: &Cell<V>) -> bool {
        put_packed(self.lent, at, cell)
    }
}
