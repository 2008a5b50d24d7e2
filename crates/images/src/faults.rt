// What is wrong with bytes that are no image, in words for people.
ghost use Rattle.std.specs.Prelude.{◌≡◌, Some};
ghost use Rattle.images.specs.declared.faults.Fault.TheVariants.{Flawed as FlawedBy};
ghost use Rattle.images.specs.Words.{place_words, flaw_words, fault_words};

use cells::{Reference, Side, Tag};
use std::fmt;

// A place that holds a field: a hand, or a side of a cell.
#[derive(Clone, Copy, PartialEq, Eq, Debug)]
pub enum Place {
    Hand(u8),
    Cell(Side, u16),
}

// What is wrong with the hands and cells of an image.
#[derive(Clone, Copy, PartialEq, Eq, Debug)]
pub enum Flaw {
    // The hand's four bytes are no field.
    BadHand(u8),
    // The cell's nine bytes are neither a pair nor a leaf.
    BadCell(u16),
    // The place has this address, and the cells end before it.
    Outside(Place, u16),
    // The place has this address, and the other one is the lowest that is not met.
    OutOfOrder(Place, u16, u16),
    // The cell is not met when its own fields are to be read.
    Unmet(u16),
    // The place holds this reference, and its tag does not say whether another has its address.
    WrongTag(Place, Reference),
}

// What is wrong with bytes that are no image of the wanted kind.
#[derive(Clone, Copy, PartialEq, Eq, Debug)]
pub enum Fault {
    // There are fewer than four bytes.
    TooShort,
    // The image is of the kind with this number.
    WrongKind(u16),
    // There are this many cells, more than 32768.
    TooManyCells(u16),
    // There are this many bytes, which is not what this many cells take.
    WrongLength(usize, u16),
    Flawed(Flaw),
}

impl From<Flaw> for Fault {
    ghost from_gives = { λ flaw fault. fault ≡ FlawedBy flaw };

    fn from(flaw: Flaw) -> Fault {
        Fault::Flawed(flaw)
    }
}

impl fmt::Display for Place {
    ghost output = { λ p. Some (place_words p) };

    fn fmt<W: fmt::Write>(&self, f: &mut fmt::Formatter<W>) -> fmt::Result {
        match *self {
            Place::Hand(i) => write!(f, "hand {i}"),
            Place::Cell(side, j) => write!(f, "{side} of cell {j}"),
        }
    }
}

impl fmt::Display for Flaw {
    ghost output = { λ x. Some (flaw_words x) };

    fn fmt<W: fmt::Write>(&self, f: &mut fmt::Formatter<W>) -> fmt::Result {
        match *self {
            Flaw::BadHand(i) => write!(f, "hand {i} is no packed field"),
            Flaw::BadCell(j) => write!(f, "cell {j} is neither a pair nor a leaf"),
            Flaw::Outside(p, a) => write!(f, "{p} refers to cell {a}, but the cells end before it"),
            Flaw::OutOfOrder(p, a, next) => {
                write!(
                    f,
                    "{p} refers to cell {a}, but cell {next} is the next to come"
                )
            }
            Flaw::Unmet(j) => write!(f, "cell {j} is read before anything refers to it"),
            Flaw::WrongTag(p, r) => match r.tag {
                Tag::Unique => {
                    write!(
                        f,
                        "{p} is tagged UNIQUE, but another reference leads to the same cell"
                    )
                }
                Tag::Sticky => {
                    write!(
                        f,
                        "{p} is tagged STICKY, but no other reference leads to the same cell"
                    )
                }
            },
        }
    }
}

impl fmt::Display for Fault {
    ghost output = { λ x. Some (fault_words x) };

    fn fmt<W: fmt::Write>(&self, f: &mut fmt::Formatter<W>) -> fmt::Result {
        match *self {
            Fault::TooShort => write!(f, "there are fewer than four bytes"),
            Fault::WrongKind(k) => write!(
                f,
                "the image is of kind {k}, which is not the wanted one"
            ),
            Fault::TooManyCells(n) => write!(f, "{n} cells are more than 32768"),
            Fault::WrongLength(n, r) => {
                write!(
                    f,
                    "the length does not fit the number of cells: {n} bytes for {r} cells"
                )
            }
            Fault::Flawed(flaw) => write!(f, "{flaw}"),
        }
    }
}
