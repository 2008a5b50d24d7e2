// Runs cases with known answers through the reading of packed cells: `KIND NINE-BYTES what they read as`, a leaf without its value.
// What reads as a cell that is not blank is packed again, and has to give the same bytes.
#![tactic(auto)]

use cells::Cell;
use cells::leaves::LeafKind;
use dumps::cell_text;
use kinds::instructions::Instruction;
use kinds::points::Point;
use packing::{pack_cell, unpack_cell};
use std::alloc::{AllocError, Global};
use texts::hex::{digit_value, push_hex};
use texts::typed::TypedLeaf;
use trials::try_cases;

// Nine bytes in hexadecimal.
fn nine_bytes(text: &str) -> Option<[u8; 9]> {
    let digits = text.as_bytes().first_chunk::<18>()?;
    let mut bytes = [0u8; 9];
    for (byte, pair) in bytes.iter_mut().zip(digits.chunks_exact(2)) {
        let [high, low] = pair else {
            return None;
        };
        *byte = digit_value(*high)?
            .wrapping_mul(16)
            .wrapping_add(digit_value(*low)?);
    }
    Some(bytes)
}

// What nine bytes read as, in the words of the cases.
fn answer<V: TypedLeaf>(heap: Global, bytes: [u8; 9]) -> Result<String, AllocError> {
    let cell = unpack_cell::<V>(bytes);
    match cell {
        Cell::Leaf(v) => {
            let mut out = String::from_str(heap, "leaf word ")?;
            push_hex(&mut out, v.to_word().unwrap_or(0), 16)?;
            Ok(out)
        }
        _ => cell_text(heap, cell),
    }
}

fn packs_again<V: LeafKind>(bytes: [u8; 9]) -> bool {
    match unpack_cell::<V>(bytes) {
        Cell::Blank => true,
        cell => pack_cell(&cell) == bytes,
    }
}

fn holds_at<V: TypedLeaf>(
    heap: Global,
    bytes: [u8; 9],
    expected: &str,
) -> Result<bool, AllocError> {
    let got = answer::<V>(heap, bytes)?;
    Ok(got.as_str() == expected && packs_again::<V>(bytes))
}

// Whether one case comes out as it says; a line that is no case does not.
fn holds(heap: Global, line: &str) -> Result<bool, AllocError> {
    let Some((kind, rest)) = line.split_once(' ') else {
        return Ok(false);
    };
    let Some((digits, expected)) = rest.split_once(' ') else {
        return Ok(false);
    };
    let Some(bytes) = nine_bytes(digits) else {
        return Ok(false);
    };
    match kind {
        "point" => holds_at::<Point>(heap, bytes, expected),
        "instruction" => holds_at::<Instruction>(heap, bytes, expected),
        _ => Ok(false),
    }
}

fn main(rt: HostRuntime) -> anyhow::Result<()> {
    try_cases(&rt, "cases.txt", holds)
}
