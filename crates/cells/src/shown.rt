// How the parts of a cell are shown to people.
ghost use Rattle.std.specs.Prelude.{Some};
ghost use Rattle.cells.specs.Shown.{tag_text, reference_text, field_text, side_text, source_text};

use crate::{Field, Reference, Side, Source, Tag};
use std::fmt;

impl fmt::Display for Tag {
    ghost output = { λ t. Some (tag_text t) };

    fn fmt<W: fmt::Write>(&self, f: &mut fmt::Formatter<W>) -> fmt::Result {
        match self {
            Tag::Unique => write!(f, "unique"),
            Tag::Sticky => write!(f, "sticky"),
        }
    }
}

// The tag and the address.
impl fmt::Display for Reference {
    ghost output = { λ r. Some (reference_text r) };

    fn fmt<W: fmt::Write>(&self, f: &mut fmt::Formatter<W>) -> fmt::Result {
        let Reference { tag, address } = *self;
        write!(f, "{tag} {address}")
    }
}

impl fmt::Display for Field {
    ghost output = { λ x. Some (field_text x) };

    fn fmt<W: fmt::Write>(&self, f: &mut fmt::Formatter<W>) -> fmt::Result {
        match *self {
            Field::Nil => write!(f, "nil"),
            Field::To(r) => write!(f, "{r}"),
        }
    }
}

impl fmt::Display for Side {
    ghost output = { λ s. Some (side_text s) };

    fn fmt<W: fmt::Write>(&self, f: &mut fmt::Formatter<W>) -> fmt::Result {
        match self {
            Side::Left => write!(f, "left"),
            Side::Right => write!(f, "right"),
        }
    }
}

impl fmt::Display for Source {
    ghost output = { λ s. Some (source_text s) };

    fn fmt<W: fmt::Write>(&self, f: &mut fmt::Formatter<W>) -> fmt::Result {
        match *self {
            Source::Nowhere => write!(f, "nowhere"),
            Source::Hand(h) => write!(f, "hand {h}"),
            Source::Cell(a, side) => write!(f, "{side} of {a}"),
        }
    }
}
