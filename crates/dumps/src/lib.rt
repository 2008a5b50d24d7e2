// Cells as lines of text, for people who look into a bank.
#![tactic(auto)]

ghost use Rattle.std.specs.Prelude.{◌≡◌, IfOk, Some, string_bytes};
ghost use Rattle.dumps.specs.Shown.{leaf_text, CellText, line_of, noted, tally_text};

use cells::Cell;
use std::alloc::{AllocError, Global};
use texts::hex::push_hex;
use texts::typed::TypedLeaf;

fn leaf_text(heap: Global, value: &str, word: u64) -> Result<String, AllocError>
    ensures { IfOk result (λ t. string_bytes t ≡ leaf_text value.now word) }
{
    let mut text = format!(in heap; "leaf {value} word ")?;
    push_hex(&mut text, word, 16)?;
    Ok(text)
}

// A cell in words.
pub fn cell_text<V: TypedLeaf>(heap: Global, c: Cell<V>) -> Result<String, AllocError>
    ensures { IfOk result (λ t. CellText V.lawful V.word V.shows c (string_bytes t)) }
{
    match c {
        Cell::Blank => String::from_str(heap, "blank"),
        Cell::Pair { left, right } => format!(in heap; "pair {left} {right}"),
        Cell::Leaf(v) => match v.to_word() {
            Some(word) => {
                let value = v.show(heap)?;
                leaf_text(heap, value.as_str(), word)
            }
            None => String::from_str(heap, "blank"),
        },
        Cell::Moved { forward, source } => format!(in heap; "moved {forward} from {source}"),
    }
}

// The line of the cell at an address that is shown as `text`.
pub fn cell_line(heap: Global, at: u16, text: &str) -> Result<String, AllocError>
    ensures { IfOk result (λ t. string_bytes t ≡ line_of at text.now) }
{
    format!(in heap; "{at}: {text}")
}

// How many cells there are of each kind.
#[derive(Clone, Copy, PartialEq, Eq, Debug)]
pub struct Tally {
    pub blank: u64,
    pub pair: u64,
    pub leaf: u64,
    pub moved: u64,
}

impl Tally {
    pub const NONE: Tally = Tally {
        blank: 0,
        pair: 0,
        leaf: 0,
        moved: 0,
    };

    // The counts with one cell more.
    pub fn with<V: TypedLeaf>(self, c: Cell<V>) -> Tally
        ensures { result ≡ noted self c }
    {
        let mut t = self;
        match c {
            Cell::Blank => t.blank = t.blank.saturating_add(1),
            Cell::Pair { .. } => t.pair = t.pair.saturating_add(1),
            Cell::Leaf(_) => t.leaf = t.leaf.saturating_add(1),
            Cell::Moved { .. } => t.moved = t.moved.saturating_add(1),
        }
        t
    }

    // The counts in a line, with the bytes that belong to no cell.
    pub fn line(self, heap: Global, left_over: usize) -> Result<String, AllocError>
        ensures { IfOk result (λ t. string_bytes t ≡ tally_text self left_over) }
    {
        let Tally {
            blank,
            pair,
            leaf,
            moved,
        } = self;
        format!(in heap;
            "blank {blank} pair {pair} leaf {leaf} moved {moved} left over {left_over}"
        )
    }
}
