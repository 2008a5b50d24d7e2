// Opening an image: the store that it is the image of, in a bank that has room for it.
ghost use Rattle.std.specs.Prelude.{◌≡◌, ℕ, ◌<◌, ◌≤◌, true, ◌++◌, length, drop};
ghost use Rattle.cells.specs.Banks.{storable};
ghost use Rattle.store.specs.Record.{viewed};
ghost use Rattle.images.specs.Layout.{stored_hand, or_nil, stored_hands, stored_cell, stored_cells};
ghost use Rattle.images.specs.Opening.{Opened, Rebuilt, WrittenBack};

use crate::read;
use crate::reading::Body;
use cells::Field;
use cells::banks::Bank;
use cells::causes::Cause;
use cells::leaves::LeafKind;
use std::array;
use store::record::{Record, checked_size};

// The hand with an index, nil where its bytes are no field.
fn hand_in(body: &Body, i: u8) -> Field
    requires { i < 16 }
    ensures { result ≡ or_nil (stored_hand body.now.bytes.now i) }
{
    body.hand(i).unwrap_or(Field::Nil)
}

fn hands_in(body: &Body) -> [Field; 16]
    ensures { result ≡ stored_hands body.now.bytes.now }
{
    array::from_fn(|i| hand_in(body, i as u8))
}

// Puts the cells of an image at the front of the bank, which takes them one by one, by address.
fn put_cells<V: LeafKind, B: Bank<V>>(bank: &mut B, body: &Body)
    requires room { body.now.count ≤ length (B.cells bank.old) }
    requires storables { (j : ℕ) → j < body.now.count → storable V.lawful (stored_cell V.taken body.now.bytes.now j) ≡ true }
    ensures after { B.cells bank.new ≡ stored_cells V.taken body.now.bytes.now body.now.count ++ drop body.now.count (B.cells bank.old) }
    ensures rooted { B.root bank.new ≡ B.root bank.old }
{
    for at in 0..body.count {
        let _ = bank.put(at, &body.cell::<V>(at));
    }
}

// The store that the bytes are the image of, its cells in the bank; or a refusal, and the bank stays as it was.
pub fn open<V: LeafKind, B: Bank<V>>(bank: &mut B, image: &[u8]) -> Result<Record, Cause>
    ensures opened { Opened V.lawful V.word V.taken V.number image.now (B.cells bank.old) (viewed result) (B.cells bank.new) }
    ensures rebuilt { Rebuilt V.lawful V.word V.taken V.number image.now (B.cells bank.old) (viewed result) (B.cells bank.new) }
    ensures rooted { B.root bank.new ≡ B.root bank.old }
{
    let size = checked_size(bank.size())?;
    let body = read::<V>(image)?;
    if body.count > size {
        return Err(Cause::NoRoom);
    }
    let hands = hands_in(&body);
    put_cells::<V, B>(bank, &body);
    Record::restored(size as usize, body.count, &hands)
}

// What Open leaves of an image is written as that image.
pub fn write_after_open<V: LeafKind>()
    ensures { WrittenBack V.lawful V.word V.taken V.number }
{}
