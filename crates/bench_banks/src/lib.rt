// The work that the benchmark times: puts and reads over a whole packed bank of points, called from C.
#![tactic(auto)]

use banks::packed::PackedBank;
use cells::banks::Bank;
use cells::leaves::LeafKind;
use cells::{Cell, Field, Reference, Side, Source, Tag};
use kinds::points::Point;

// An address that depends on a turn, so that neighbours are not visited one after another.
fn address(turn: u16) -> u16 {
    turn.wrapping_mul(40_503) % 32_768
}

// A pair, a moved cell or a leaf, by the turn.
fn made_cell(turn: u16) -> Cell<Point> {
    let tag = if turn & 4 == 4 {
        Tag::Sticky
    } else {
        Tag::Unique
    };
    match turn % 4 {
        0 => Cell::Pair {
            left: Field::To(Reference { tag, address: turn }),
            right: Field::Nil,
        },
        1 => Cell::Moved {
            forward: Reference { tag, address: turn },
            source: Source::Cell(turn, Side::Right),
        },
        _ => Cell::Leaf(Point {
            load: turn as f32,
            reading: turn as f32 * 0.25,
        }),
    }
}

fn field_sum(f: &Field) -> u64 {
    match f {
        Field::Nil => 1,
        Field::To(r) => reference_sum(r),
    }
}

fn reference_sum(r: &Reference) -> u64 {
    match r.tag {
        Tag::Unique => 2 + r.address as u64,
        Tag::Sticky => 70_000 + r.address as u64,
    }
}

fn source_sum(s: &Source) -> u64 {
    match s {
        Source::Nowhere => 3,
        Source::Hand(h) => 4 + *h as u64,
        Source::Cell(a, Side::Left) => 80_000 + *a as u64,
        Source::Cell(a, Side::Right) => 160_000 + *a as u64,
    }
}

fn cell_sum(c: &Cell<Point>) -> u64 {
    match c {
        Cell::Blank => 5,
        Cell::Pair { left, right } => field_sum(left).wrapping_mul(7) ^ field_sum(right),
        Cell::Leaf(p) => p.to_word().unwrap_or(6),
        Cell::Moved { forward, source } => {
            reference_sum(forward).wrapping_mul(11) ^ source_sum(source)
        }
    }
}

fn put_all<B: Bank<Point>>(bank: &mut B) -> u64 {
    (0..32_768u16)
        .filter(|turn| bank.put(address(*turn), &made_cell(*turn)))
        .count() as u64
}

fn read_all<B: Bank<Point>>(bank: &B) -> u64 {
    (0..32_768u16)
        .filter_map(|turn| bank.read(address(turn)))
        .fold(
            0,
            |sum: u64, cell| sum.wrapping_mul(31).wrapping_add(cell_sum(&cell)),
        )
}

// How many of 32768 puts were answered yes.
#[unsafe(no_mangle)]
pub extern "C" fn rattle_put_all(bytes: &mut [u8]) -> u64 {
    let mut bank = PackedBank::new(bytes);
    put_all(&mut bank)
}

// A sum over 32768 cells that were read.
#[unsafe(no_mangle)]
pub extern "C" fn rattle_read_all(bytes: &mut [u8]) -> u64 {
    let bank = PackedBank::new(bytes);
    read_all(&bank)
}
