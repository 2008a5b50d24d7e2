// Lists of typed values, a value to a line, and the report on one or two of them.
ghost use Rattle.std.specs.Prelude.{◌≡◌, ◌++◌, IfOk, string_bytes};
ghost use Rattle.texts.specs.declared.lists.ListFault.TheVariants.{Memory};
ghost use Rattle.texts.specs.Typed.{word_bytes};
ghost use Rattle.texts.specs.Lists.{same_value, FirstDifference, value_line, refusal_line, EntryLine, Lawful, Found, Tidy, Value, place_text, same_line, different_line, verdict_line};

use crate::hex::push_hex;
use crate::typed::TypedLeaf;
use cells::causes::Cause;
use cells::leaves::{LeafKind, compare};
use std::alloc::{AllocError, AllocFailed, Global};

// A value and the number of the line that it was typed in; the value is tidied, or refused.
#[derive(Clone, Copy, PartialEq, Eq, Debug)]
pub struct Entry<V> {
    pub line: usize,
    pub value: Result<V, Cause>,
}

// Whether both values are accepted and alike.
fn same_value<V: LeafKind>(a: Result<V, Cause>, b: Result<V, Cause>) -> bool
    ensures { result ≡ same_value V.tidied V.alike a b }
{
    match (a, b) {
        (Ok(x), Ok(y)) => compare(x, y).unwrap_or(false),
        _ => false,
    }
}

// Where two lists first differ, value by value; none where they hold the same values.
pub fn first_difference<V: LeafKind>(a: &[Entry<V>], b: &[Entry<V>]) -> Option<usize>
    ensures { FirstDifference V.tidied V.alike a.now b.now result }
{
    let apart = a
        .iter()
        .zip(b)
        .position(|(x, y)| !same_value(x.value, y.value));
    if apart.is_none() && a.len() != b.len() {
        return Some(a.len().min(b.len()));
    }
    apart
}

// The line of the report for an accepted value that is shown as `text` and has the word `w`.
fn value_line(heap: Global, n: usize, text: &str, w: u64) -> Result<String, AllocError>
    ensures { IfOk result (λ s. string_bytes s ≡ value_line n text.now w) }
{
    let mut line = format!(in heap; "{n}: {text} word ")?;
    push_hex(&mut line, w, 16)?;
    Ok(line)
}

// The line of the report for a refused value.
fn refusal_line(heap: Global, n: usize, cause: Cause) -> Result<String, AllocError>
    ensures { IfOk result (λ s. string_bytes s ≡ refusal_line n cause) }
{
    format!(in heap; "{n}: refused {cause}")
}

// The line of the report for an entry.
pub fn entry_line<V: TypedLeaf>(heap: Global, entry: Entry<V>) -> Result<String, AllocError>
    ensures { IfOk result (λ s. EntryLine V.lawful V.word V.shows entry.line entry.value (string_bytes s)) }
{
    let value = match entry.value {
        Ok(value) => value,
        Err(cause) => return refusal_line(heap, entry.line, cause),
    };
    let Some(word) = value.to_word() else {
        return refusal_line(heap, entry.line, Cause::ValueRefused);
    };
    let text = value.show(heap)?;
    value_line(heap, entry.line, text.as_str(), word)
}

// A list, and the name by which people know it.
#[derive(Clone, Copy, Debug)]
pub struct NamedList<'a, V> {
    pub name: &'a str,
    pub entries: &'a [Entry<V>],
}

impl<'a, V: LeafKind> NamedList<'a, V> {
    // Where the list has its entry `i`, in words.
    fn place_text(self, heap: Global, i: usize) -> Result<String, AllocError>
        ensures { IfOk result (λ s. string_bytes s ≡ place_text self.entry.name.now self.entry.entries.now i) }
    {
        let name = self.name;
        match self.entries.get(i) {
            Some(Entry { line, .. }) => format!(in heap; "line {line} of {name}"),
            None => format!(in heap; "the end of {name}"),
        }
    }
}

fn same_line(heap: Global, count: usize) -> Result<String, AllocError>
    ensures { IfOk result (λ s. string_bytes s ≡ same_line count) }
{
    format!(in heap; "same: {count} values")
}

fn different_line(heap: Global, here: &str, there: &str) -> Result<String, AllocError>
    ensures { IfOk result (λ s. string_bytes s ≡ different_line here.now there.now) }
{
    format!(in heap; "different: {here}, {there}")
}

// The last line of a report on two lists, by where they first differ.
pub fn verdict_line<V: LeafKind>(
    heap: Global,
    a: NamedList<V>,
    b: NamedList<V>,
    apart: Option<usize>,
) -> Result<String, AllocError>
    ensures { IfOk result (λ s. string_bytes s ≡ verdict_line a.entry.name.now a.entry.entries.now b.entry.name.now b.entry.entries.now apart) }
{
    let Some(i) = apart else {
        return same_line(heap, a.entries.len());
    };
    let here = a.place_text(heap, i)?;
    let there = b.place_text(heap, i)?;
    different_line(heap, here.as_str(), there.as_str())
}

#[derive(PartialEq, Eq, Debug, Drop)]
pub enum ListFault {
    // There was no memory.
    Memory,
    // This line is no value and no comment.
    Unreadable(usize),
}

impl From<AllocError> for ListFault {
    ghost from_gives = { λ _ fault. fault ≡ Memory };

    fn from(_e: AllocError) -> ListFault {
        ListFault::Memory
    }
}

impl<T: Drop> From<AllocFailed<T>> for ListFault {
    ghost from_gives = { λ _ fault. fault ≡ Memory };

    fn from(_e: AllocFailed<T>) -> ListFault {
        ListFault::Memory
    }
}

// The tidied value that words stand for, or its refusal; none where they are no numbers.
pub(crate) fn words_value<V: TypedLeaf>(words: &[&str]) -> Option<Result<V, Cause>>
    ensures value { Value V.reads V.tidied (word_bytes words.now) result }
    ensures lawful { Found result (λ v. Lawful V.lawful v) }
{
    V::of_words(words).map(|raw| raw?.tidy())
}

// The tidied value that a line holds, or its refusal; none where the words of the line are no numbers.
fn read_value<V: TypedLeaf>(
    heap: Global,
    line: &str,
) -> Result<Option<Result<V, Cause>>, AllocError>
    ensures { IfOk result (λ o. Found o (λ v. Lawful V.lawful v)) }
{
    let words: Vec<&str> = line.split_whitespace().collect(heap)?;
    Ok(words_value(words.as_slice()))
}

// The values of a text, one to a line; blank lines and lines that begin with # are passed over.
pub fn read_list<V: TypedLeaf>(heap: Global, text: &str) -> Result<Vec<Entry<V>>, ListFault>
    ensures { IfOk result (λ v. Tidy V.lawful v.items) }
{
    let mut entries = Vec::new(heap);
    for (i, line) in text.lines().enumerate() {
        let number = i.saturating_add(1);
        let line = line.trim();
        if line.is_empty() || line.starts_with('#') {
            continue;
        }
        let value = read_value::<V>(heap, line)?.ok_or(ListFault::Unreadable(number))?;
        entries.push(Entry {
            line: number,
            value,
        })?;
    }
    Ok(entries)
}
