// Writing the image of a store: one pass over the kept cells to see that they are pairs and leaves, another to write them.
ghost use Rattle.std.specs.Prelude.{◌≡◌, ◌+◌, ◌*◌, ◌≤◌, ◌++◌, length, take};
ghost use Rattle.std.specs.List.{flat_map};
ghost use Rattle.std.specs.Result.{result_err};
ghost use Rattle.cells.specs.Banks.{cell_at};
ghost use Rattle.packing.specs.Cells.{pack_cell};
ghost use Rattle.store.specs.Record.{view};
ghost use Rattle.images.specs.Layout.{two_bytes, hand_bytes};
ghost use Rattle.images.specs.Writing.{node_found, all_nodes, length_for, pasted, write_cause, write_answer, bytes_after};

use cells::banks::Bank;
use cells::causes::Cause;
use cells::leaves::LeafKind;
use cells::{Cell, Field};
use packing::{pack_cell, pack_field};
use store::Mode;
use store::record::Record;

// Whether a pair or a leaf is at an address.
fn is_node_at<V: LeafKind, B: Bank<V>>(bank: &B, at: u16) -> bool
    ensures { result ≡ node_found (cell_at (B.cells bank.now) at) }
{
    matches!(bank.read(at), Some(Cell::Pair { .. } | Cell::Leaf(_)))
}

// Whether each of the first `count` cells is a pair or a leaf.
fn all_nodes<V: LeafKind, B: Bank<V>>(bank: &B, count: u16) -> bool
    requires { count ≤ length (B.cells bank.now) }
    ensures { result ≡ all_nodes (take count (B.cells bank.now)) }
{
    (0..count).all(|at| is_node_at::<V, B>(bank, at))
}

// Writes a part over the bytes from an offset on.
fn write_part(bytes: &mut [u8], at: usize, part: &[u8])
    requires { at + length part.now ≤ length bytes.old }
    ensures { bytes.new ≡ pasted bytes.old at part.now }
{
    bytes[at..at + part.len()].copy_from_slice(part);
}

fn write_heading<V: LeafKind>(bytes: &mut [u8], count: u16)
    requires { 4 ≤ length bytes.old }
    ensures { bytes.new ≡ pasted bytes.old 0 (two_bytes V.number ++ two_bytes count) }
{
    let [k0, k1] = V::kind_number().to_be_bytes();
    let [r0, r1] = count.to_be_bytes();
    write_part(bytes, 0, &[k0, k1, r0, r1]);
}

fn write_hands(hands: &[Field; 16], bytes: &mut [u8])
    requires { 68 ≤ length bytes.old }
    ensures { bytes.new ≡ pasted bytes.old 4 (flat_map hand_bytes hands.now) }
{
    for (i, hand) in hands.iter().enumerate() {
        write_part(bytes, 4 + 4 * i, &pack_field(*hand).to_be_bytes());
    }
}

// A bank gives its cells one by one, by address.
fn write_cells<V: LeafKind, B: Bank<V>>(bank: &B, count: u16, bytes: &mut [u8])
    requires held { count ≤ length (B.cells bank.now) }
    requires room { length_for count ≤ length bytes.old }
    ensures { bytes.new ≡ pasted bytes.old 68 (flat_map (pack_cell V.lawful V.word) (take count (B.cells bank.now))) }
{
    for at in 0..count {
        if let Some(cell) = bank.read(at) {
            write_part(bytes, 68 + 9 * at as usize, &pack_cell(&cell));
        }
    }
}

// Refuses a store whose image cannot be written to so many bytes.
#[tactic(auto, using(std::proofs::lemmas::Bool::Decides::nat_tests), unfolding(crate::specs::Writing::write_cause))]
fn check_writable<V: LeafKind, B: Bank<V>>(
    record: &Record,
    bank: &B,
    space: usize,
) -> Result<(), Cause>
    ensures { result_err result ≡ write_cause (view «record».now) (B.cells bank.now) space }
{
    if bank.size() != record.size() as usize {
        return Err(Cause::OtherSize);
    }
    let mode = record.mode();
    if let Mode::Collecting { .. } = mode {
        return Err(Cause::Collecting);
    }
    if !all_nodes::<V, B>(bank, record.mark()) {
        return Err(Cause::Spoiled);
    }
    if mode == Mode::Working {
        return Err(Cause::NotSettled);
    }
    if space < image_length(record.mark()) {
        return Err(Cause::TooFewBytes);
    }
    Ok(())
}

fn image_length(count: u16) -> usize
    ensures { result ≡ length_for count }
{
    68 + 9 * count as usize
}

// Writes the image of the store to the front of the bytes and answers its length, or refuses and writes nothing.
#[tactic(auto, using(crate::proofs::Written::none_tells))]
pub fn write<V: LeafKind, B: Bank<V>>(
    record: &Record,
    bank: &B,
    bytes: &mut [u8],
) -> Result<usize, Cause>
    ensures answer { result ≡ write_answer (view «record».now) (B.cells bank.now) (length bytes.old) }
    ensures after { bytes.new ≡ bytes_after V.lawful V.word V.number (view «record».now) (B.cells bank.now) bytes.old }
{
    check_writable::<V, B>(record, bank, bytes.len())?;
    let count = record.mark();
    write_heading::<V>(bytes, count);
    write_hands(&record.hands(), bytes);
    write_cells::<V, B>(bank, count, bytes);
    Ok(image_length(count))
}
