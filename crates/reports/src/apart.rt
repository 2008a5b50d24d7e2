// Where two images first differ.
ghost use Rattle.std.specs.Prelude.{◌≡◌, true, Some, IfOk, string_bytes, Decides};
ghost use Rattle.cells.specs.Banks.{leaf_lawful, found_lawful};
ghost use Rattle.images.specs.Images.{hand_of, cell_of};
ghost use Rattle.reports.specs.Apart.{FirstApart, Differs, FoundText, difference_words, apart_line, DifferenceLine};

use cells::leaves::LeafKind;
use cells::{Cell, Field};
use dumps::cell_text;
use images::{cell_of, hand_of};
use std::alloc::{AllocError, Global};
use std::fmt;
use texts::typed::TypedLeaf;

// The first hand that differs, or else the first cell, which one of the images may have and the other not.
#[derive(Clone, Copy, PartialEq, Eq, Debug)]
pub enum Difference {
    Hand(u8),
    Cell(u16),
}

impl fmt::Display for Difference {
    ghost output = { λ d. Some (difference_words d) };

    fn fmt<W: fmt::Write>(&self, f: &mut fmt::Formatter<W>) -> fmt::Result {
        match *self {
            Difference::Hand(i) => write!(f, "hand {i}"),
            Difference::Cell(at) => write!(f, "cell {at}"),
        }
    }
}

fn hand_apart(a: &[u8], b: &[u8]) -> Option<u8>
    ensures { FirstApart (hand_of a.now) (hand_of b.now) 16 result }
{
    (0..16).find(|&i| hand_of(a, i) != hand_of(b, i))
}

// Whether two cells with lawful leaves are equal, part by part; a leaf by its word, since its value need not be comparable.
fn same_cell<V: LeafKind>(x: &Cell<V>, y: &Cell<V>) -> bool
    requires left { leaf_lawful V.lawful x.now ≡ true }
    requires right { leaf_lawful V.lawful y.now ≡ true }
    ensures { Decides result (x.now ≡ y.now) }
{
    match (x, y) {
        (Cell::Blank, Cell::Blank) => true,
        (Cell::Pair { left, right }, Cell::Pair { left: l, right: r }) => left == l && right == r,
        (Cell::Leaf(v), Cell::Leaf(w)) => v.to_word() == w.to_word(),
        (
            Cell::Moved { forward, source },
            Cell::Moved {
                forward: f,
                source: s,
            },
        ) => forward == f && source == s,
        _ => false,
    }
}

// The same of cells that may be missing.
fn same_found<V: LeafKind>(x: &Option<Cell<V>>, y: &Option<Cell<V>>) -> bool
    requires left { found_lawful V.lawful x.now ≡ true }
    requires right { found_lawful V.lawful y.now ≡ true }
    ensures { Decides result (x.now ≡ y.now) }
{
    match (x, y) {
        (Some(c), Some(d)) => same_cell(c, d),
        (None, None) => true,
        _ => false,
    }
}

// A loop and no `find`, whose lemmas are about ranges without their end: the last address is the largest number of its type.
fn cell_apart<V: LeafKind>(a: &[u8], b: &[u8]) -> Option<u16>
    ensures { FirstApart (cell_of V.taken a.now) (cell_of V.taken b.now) 65536 result }
{
    for at in 0..=u16::MAX {
        if !same_found(&cell_of::<V>(a, at), &cell_of::<V>(b, at)) {
            return Some(at);
        }
    }
    None
}

// Where two images first differ, and none where they hold the same hands and cells.
pub fn first_difference<V: LeafKind>(a: &[u8], b: &[u8]) -> Option<Difference>
    ensures { Differs V.taken a.now b.now result }
{
    hand_apart(a, b)
        .map(Difference::Hand)
        .or_else(|| cell_apart::<V>(a, b).map(Difference::Cell))
}

// A cell in words, or that there is none.
fn found_text<V: TypedLeaf>(heap: Global, found: Option<Cell<V>>) -> Result<String, AllocError>
    ensures { IfOk result (λ t. FoundText V.lawful V.word V.shows found (string_bytes t)) }
{
    match found {
        Some(cell) => cell_text(heap, cell),
        None => String::from_str(heap, "past the last"),
    }
}

// The line of a difference, where this stands there in the one image and that in the other.
fn apart_line(heap: Global, at: Difference, x: &str, y: &str) -> Result<String, AllocError>
    ensures { IfOk result (λ t. string_bytes t ≡ apart_line at x.now y.now) }
{
    format!(in heap; "different: {at} is {x} in the first and {y} in the second")
}

// The line that tells a difference, with what stands there in both images.
pub fn difference_line<V: TypedLeaf>(
    heap: Global,
    a: &[u8],
    b: &[u8],
    difference: Difference,
) -> Result<String, AllocError>
    ensures { IfOk result (λ t. DifferenceLine V.lawful V.word V.shows V.taken a.now b.now difference (string_bytes t)) }
{
    match difference {
        Difference::Hand(i) => {
            let x = hand_of(a, i).unwrap_or(Field::Nil).to_string(heap)?;
            let y = hand_of(b, i).unwrap_or(Field::Nil).to_string(heap)?;
            apart_line(heap, difference, x.as_str(), y.as_str())
        }
        Difference::Cell(at) => {
            let x = found_text(heap, cell_of::<V>(a, at))?;
            let y = found_text(heap, cell_of::<V>(b, at))?;
            apart_line(heap, Difference::Cell(at), x.as_str(), y.as_str())
        }
    }
}
