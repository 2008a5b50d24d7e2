// Lists read with nothing left open: which bytes end a line and a word, and what each line comes to. `lists::read_list`, by which
// programs read, takes the white space of Unicode.
ghost use Rattle.std.specs.Prelude.{MatchResult};
ghost use Rattle.texts.specs.Splits.{words_of};
ghost use Rattle.texts.specs.Lists.{Line, Entries, NoEntries};

use crate::lists::{Entry, ListFault, words_value};
use crate::splits::{Separator, is_passed_over, split};
use crate::typed::TypedLeaf;
use cells::leaves::LeafKind;
use std::alloc::Global;

// The entry that a line has, with its number; none where the line is passed over.
fn read_line<V: TypedLeaf>(
    heap: Global,
    line: &str,
    number: usize,
) -> Result<Option<Entry<V>>, ListFault>
    ensures { Line V.reads V.tidied number (words_of line.now) result }
{
    let words = split(heap, line, Separator::Space)?;
    if is_passed_over(words.as_slice()) {
        return Ok(None);
    }
    let value = words_value::<V>(words.as_slice()).ok_or(ListFault::Unreadable(number))?;
    Ok(Some(Entry {
        line: number,
        value,
    }))
}

// The values of a text, one to a line; blank lines and lines that begin with # are passed over. White space is that of ASCII.
pub fn read_listing<V: TypedLeaf>(heap: Global, text: &str) -> Result<Vec<Entry<V>>, ListFault>
    ensures { MatchResult result (λ v. Entries V.reads V.tidied text.now v.items) (λ fault. NoEntries V.reads V.tidied text.now fault) }
{
    let lines = split(heap, text, Separator::Newline)?;
    let mut entries = Vec::new(heap);
    for (i, line) in lines.iter().enumerate() {
        if let Some(entry) = read_line::<V>(heap, line, i + 1)? {
            entries.push(entry)?;
        }
    }
    Ok(entries)
}
