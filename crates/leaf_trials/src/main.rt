// Runs cases with known answers through the reading of leaf values: `KIND | VALUE as typed | refused 6 or its word`.
#![tactic(auto)]

use cells::leaves::LeafKind;
use kinds::instructions::Instruction;
use kinds::points::Point;
use std::alloc::{AllocError, Global};
use texts::hex::push_hex;
use texts::lists::{Entry, read_list};
use texts::typed::TypedLeaf;
use trials::try_cases;

// What a typed value comes to, in the words of the cases.
fn answer<V: TypedLeaf>(heap: Global, text: &str) -> Result<String, AllocError> {
    let Ok(entries) = read_list::<V>(heap, text) else {
        return String::from_str(heap, "unreadable");
    };
    match entries.first() {
        Some(entry) => answer_of(heap, *entry),
        None => String::from_str(heap, "no value"),
    }
}

fn answer_of<V: TypedLeaf>(heap: Global, entry: Entry<V>) -> Result<String, AllocError> {
    match entry.value {
        Ok(value) => {
            let mut out = String::from_str(heap, "word ")?;
            push_hex(&mut out, value.to_word().unwrap_or(0), 16)?;
            Ok(out)
        }
        Err(cause) => {
            let number = cause.number();
            format!(in heap; "refused {number}")
        }
    }
}

// Whether one case comes out as it says; a line that is no case does not.
fn holds(heap: Global, line: &str) -> Result<bool, AllocError> {
    let Some((kind, rest)) = line.split_once('|') else {
        return Ok(false);
    };
    let Some((value, expected)) = rest.split_once('|') else {
        return Ok(false);
    };
    let got = match kind.trim() {
        "point" => answer::<Point>(heap, value)?,
        "instruction" => answer::<Instruction>(heap, value)?,
        _ => return Ok(false),
    };
    Ok(got.as_str() == expected.trim())
}

fn main(rt: HostRuntime) -> anyhow::Result<()> {
    try_cases(&rt, "cases.txt", holds)
}
