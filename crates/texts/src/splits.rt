// A text split into lines, and a line into words.
ghost use Rattle.std.specs.Prelude.{◌≡◌, [], IfOk};
ghost use Rattle.texts.specs.Typed.{word_bytes};
ghost use Rattle.texts.specs.Splits.{separates, keeps, pieces_from, begins, passed_over};

use std::alloc::{AllocError, Global};

// What ends a piece: a line's end, or the white space after a word.
#[derive(Clone, Copy, PartialEq, Eq, Debug)]
pub enum Separator {
    Newline,
    Space,
}

impl Separator {
    fn separates(self, b: u8) -> bool
        ensures { result ≡ separates self b }
    {
        match self {
            Separator::Newline => b == b'\n',
            Separator::Space => b == b' ' || (9 <= b && b <= 13),
        }
    }

    // Whether a piece of so many bytes counts.
    fn keeps(self, size: usize) -> bool
        ensures { result ≡ keeps self size }
    {
        match self {
            Separator::Newline => true,
            Separator::Space => size > 0,
        }
    }
}

// The pieces of a text, in order.
pub fn split<'a>(heap: Global, text: &'a str, by: Separator) -> Result<Vec<&'a str>, AllocError>
    ensures { IfOk result (λ v. word_bytes v.items ≡ pieces_from by [] text.now) }
{
    let bytes = text.as_bytes();
    let mut pieces = Vec::new(heap);
    let mut start = 0;
    for (i, b) in bytes.iter().enumerate() {
        if by.separates(*b) {
            if by.keeps(i - start) {
                pieces.push(&text[start..i])?;
            }
            start = i + 1;
        }
    }
    if by.keeps(bytes.len() - start) {
        pieces.push(&text[start..])?;
    }
    Ok(pieces)
}

// Whether a word begins a comment.
fn is_mark(word: &str) -> bool
    ensures { result ≡ begins 35 word.now }
{
    word.as_bytes().first() == Some(&b'#')
}

// Whether a line with these words is blank or a comment.
pub fn is_passed_over(words: &[&str]) -> bool
    ensures { result ≡ passed_over (word_bytes words.now) }
{
    words.first().is_none_or(|word| is_mark(word))
}
