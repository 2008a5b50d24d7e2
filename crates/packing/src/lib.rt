// A field as a word of 32 bits, a cell as nine bytes, and back. Whatever is packed unpacks to itself, and nothing but its
// packing unpacks to it: every reserved bit is checked.
#![tactic(auto)]

ghost use Rattle.std.specs.Prelude.{◌≡◌, true, false, unwrap_or, Some, None, ◌≢◌, slice_index};
ghost use Rattle.cells.specs.declared.Cell.TheVariants.{Blank};
ghost use Rattle.cells.specs.Banks.{leaf_lawful};
ghost use Rattle.packing.specs.Fields.{pack_reference, unpack_reference, pack_field, unpack_field, pack_source, unpack_source, field_fits};
ghost use Rattle.packing.specs.Kinds.{kind_of};
ghost use Rattle.packing.specs.Cells.{nine_bytes, body_of, halves, kind_and_body, pack_cell, cell_of, unpack_cell, cell_fits, Alone};

use cells::leaves::LeafKind;
use cells::{Cell, Field, Reference, Side, Source, Tag};

// Which cell nine bytes hold: two bits of the first byte, before six zero bits.
#[derive(Clone, Copy, PartialEq, Eq, Debug)]
enum Kind {
    Blank = 0x00,
    Pair = 0x40,
    Leaf = 0x80,
    Moved = 0xC0,
}

impl Kind {
    // The kind that a byte says, if it says one.
    fn of(byte: u8) -> Option<Kind>
        ensures { result ≡ kind_of byte }
    {
        match byte {
            0x00 => Some(Kind::Blank),
            0x40 => Some(Kind::Pair),
            0x80 => Some(Kind::Leaf),
            0xC0 => Some(Kind::Moved),
            _ => None,
        }
    }
}

fn pack_reference(r: Reference) -> u32
    ensures packed { result ≡ pack_reference r }
    ensures back { unpack_reference result ≡ Some r }
{
    let mark = match r.tag {
        Tag::Unique => 0x8000,
        Tag::Sticky => 0xC000,
    };
    mark * 0x1_0000 + u32::from(r.address)
}

fn unpack_reference(w: u32) -> Option<Reference>
    ensures { result ≡ unpack_reference w }
{
    let tag = match w / 0x1_0000 {
        0x8000 => Tag::Unique,
        0xC000 => Tag::Sticky,
        _ => return None,
    };
    Some(Reference {
        tag,
        address: (w % 0x1_0000) as u16,
    })
}

// The word of a field; nil is zero. Functions and no `From` and `TryFrom`: neither type is of this crate.
pub fn pack_field(f: Field) -> u32
    ensures packed { result ≡ pack_field f }
    ensures fits { field_fits f ≡ true }
    ensures back { unpack_field result ≡ Some f }
{
    match f {
        Field::Nil => 0,
        Field::To(r) => pack_reference(r),
    }
}

// The field that has a word, or none.
pub fn unpack_field(w: u32) -> Option<Field>
    ensures unpacked { result ≡ unpack_field w }
    ensures only { elim result [ Some f ↦ pack_field f ≡ w | None ↦ Unit {0} ] }
    ensures fits { elim result [ Some f ↦ field_fits f ≡ true | None ↦ Unit {0} ] }
{
    if w == 0 {
        return Some(Field::Nil);
    }
    Some(Field::To(unpack_reference(w)?))
}

fn pack_source(s: Source) -> u32
    ensures packed { result ≡ pack_source s }
    ensures back { unpack_source result ≡ Some s }
{
    let (mark, number) = match s {
        Source::Nowhere => (0, 0),
        Source::Hand(h) => (0x4000, h),
        Source::Cell(a, Side::Left) => (0x8000, a),
        Source::Cell(a, Side::Right) => (0xC000, a),
    };
    mark * 0x1_0000 + u32::from(number)
}

fn unpack_source(w: u32) -> Option<Source>
    ensures unpacked { result ≡ unpack_source w }
    ensures only { elim result [ Some s ↦ pack_source s ≡ w | None ↦ Unit {0} ] }
{
    let number = (w % 0x1_0000) as u16;
    match w / 0x1_0000 {
        0 if number == 0 => Some(Source::Nowhere),
        0x4000 => Some(Source::Hand(number)),
        0x8000 => Some(Source::Cell(number, Side::Left)),
        0xC000 => Some(Source::Cell(number, Side::Right)),
        _ => None,
    }
}

// Two words as a body.
fn join(upper: u32, lower: u32) -> u64
    ensures { result ≡ halves upper lower }
{
    u64::from(upper) * 0x1_0000_0000 + u64::from(lower)
}

// The kind's byte and the body of a cell. A leaf that is not lawful has no word, and goes as a blank cell.
fn kind_and_body<V: LeafKind>(c: &Cell<V>) -> (u8, u64)
    ensures parted { result ≡ kind_and_body V.lawful V.word c.now }
    ensures fits { cell_fits c.now ≡ true }
{
    match *c {
        Cell::Blank => (Kind::Blank as u8, 0),
        Cell::Pair { left, right } => (Kind::Pair as u8, join(pack_field(left), pack_field(right))),
        Cell::Leaf(v) => match v.to_word() {
            Some(word) => (Kind::Leaf as u8, word),
            None => (Kind::Blank as u8, 0),
        },
        Cell::Moved { forward, source } => (
            Kind::Moved as u8,
            join(pack_reference(forward), pack_source(source)),
        ),
    }
}

fn nine_bytes(kind: u8, body: u64) -> [u8; 9]
    ensures { result ≡ nine_bytes kind body }
{
    let [a, b, c, d, e, f, g, h] = body.to_be_bytes();
    [kind, a, b, c, d, e, f, g, h]
}

// The nine bytes of a cell. `fits` holds of every cell in code. The bytes of a lawful cell give it `back`, and are its
// `alone`; a leaf that is not lawful is `lost`, and unpacks to a blank cell.
pub fn pack_cell<V: LeafKind>(c: &Cell<V>) -> [u8; 9]
    ensures packed { result ≡ pack_cell V.lawful V.word c.now }
    ensures fits { cell_fits c.now ≡ true }
    ensures back { leaf_lawful V.lawful c.now ≡ true → unpack_cell V.taken result ≡ c.now }
    ensures lost { leaf_lawful V.lawful c.now ≡ false → unpack_cell V.taken result ≡ Blank }
    ensures alone { Alone V.lawful V.word c.now result }
{
    let (kind, body) = kind_and_body(c);
    nine_bytes(kind, body)
}

// The cell of a kind's byte and a body, where they are those of one that is not blank.
fn full_cell<V: LeafKind>(kind: u8, body: u64) -> Option<Cell<V>>
    ensures { cell_of V.taken kind body ≡ unwrap_or result Blank }
{
    let upper = (body / 0x1_0000_0000) as u32;
    let lower = (body % 0x1_0000_0000) as u32;
    match Kind::of(kind)? {
        Kind::Blank => None,
        Kind::Pair => Some(Cell::Pair {
            left: unpack_field(upper)?,
            right: unpack_field(lower)?,
        }),
        Kind::Leaf => V::from_word(body).map(Cell::Leaf),
        Kind::Moved => Some(Cell::Moved {
            forward: unpack_reference(upper)?,
            source: unpack_source(lower)?,
        }),
    }
}

// The cell of a kind's byte and a body. A leaf is made in place: one of small parts is copied slowly in an `Option` of a cell. The arm
// of `full_cell` for it stays, since all other reads are slower without.
fn cell_of<V: LeafKind>(kind: u8, body: u64) -> Cell<V>
    ensures { result ≡ cell_of V.taken kind body }
{
    if kind == Kind::Leaf as u8 {
        return match V::from_word(body) {
            Some(v) => Cell::Leaf(v),
            None => Cell::Blank,
        };
    }
    full_cell(kind, body).unwrap_or(Cell::Blank)
}

// The kind's byte and the body that nine bytes hold.
fn split_bytes(bytes: [u8; 9]) -> (u8, u64)
    ensures { result ≡ (slice_index bytes 0, body_of bytes) }
{
    let [kind, a, b, c, d, e, f, g, h] = bytes;
    (kind, u64::from_be_bytes([a, b, c, d, e, f, g, h]))
}

// The cell that nine bytes hold. Bytes that fit no kind are a blank cell.
pub fn unpack_cell<V: LeafKind>(bytes: [u8; 9]) -> Cell<V>
    ensures unpacked { result ≡ unpack_cell V.taken bytes }
    ensures only { (result ≢ Blank) → pack_cell V.lawful V.word result ≡ bytes }
    ensures leaf { leaf_lawful V.lawful result ≡ true }
    ensures fits { cell_fits result ≡ true }
{
    let (kind, body) = split_bytes(bytes);
    cell_of(kind, body)
}
