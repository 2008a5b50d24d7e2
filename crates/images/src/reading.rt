// The hands and cells of an image: sixteen hands of four bytes and so many cells of nine, which follow four bytes of heading.
ghost use Rattle.std.specs.Prelude.{◌≡◌, ◌+◌, ◌*◌, ◌<◌, ◌≤◌, length, take, drop, IfOk};
ghost use Rattle.std.specs.Result.{result_err};
ghost use Rattle.images.specs.Layout.{IsBodyOf, stored_hand, stored_cell};
ghost use Rattle.images.specs.Faults.{misheaded, headed};

use crate::faults::Fault;
use cells::leaves::LeafKind;
use cells::{Cell, Field};
use packing::{unpack_cell, unpack_field};

// As many bytes as are wanted, from an offset on.
fn part<const N: usize>(bytes: &[u8], at: usize) -> [u8; N]
    requires { at + N ≤ length bytes.now }
    ensures { result ≡ take N (drop at bytes.now) }
{
    *bytes[at..at + N].first_chunk().unwrap()
}

// The hand that stands at an index in what follows the heading.
pub fn hand_at(rest: &[u8], i: u8) -> Option<Field>
    requires { 4 * i + 4 ≤ length rest.now }
    ensures { result ≡ stored_hand rest.now i }
{
    unpack_field(u32::from_be_bytes(part(rest, 4 * i as usize)))
}

// The cell that stands at an address there.
pub fn cell_at<V: LeafKind>(rest: &[u8], j: u16) -> Cell<V>
    requires { 64 + 9 * j + 9 ≤ length rest.now }
    ensures { result ≡ stored_cell V.taken rest.now j }
{
    unpack_cell(part(rest, 64 + 9 * j as usize))
}

// Refuses a kind's number, a number of cells or a length that no image of the wanted kind has.
fn check_heading(kind: u16, wanted: u16, count: u16, size: usize) -> Result<(), Fault>
    ensures { result_err result ≡ misheaded kind wanted count size }
{
    if kind != wanted {
        Err(Fault::WrongKind(kind))
    } else if count > 32768 {
        Err(Fault::TooManyCells(count))
    } else if size != 68 + 9 * count as usize {
        Err(Fault::WrongLength(size, count))
    } else {
        Ok(())
    }
}

// What follows the heading of bytes whose heading is that of an image.
#[derive(Clone, Copy, Debug)]
pub struct Body<'a> {
    pub bytes: &'a [u8],
    pub count: u16,
    pub ghost sized: { length bytes.now ≡ 64 + 9 * count },
    pub ghost few: { count ≤ 32768 },
}

impl<'a> Body<'a> {
    pub fn parse(image: &'a [u8], wanted: u16) -> Result<Body<'a>, Fault>
        ensures fault { result_err result ≡ headed wanted image.now }
        ensures body { IfOk result (λ body. IsBodyOf image.now body.bytes.now body.count) }
    {
        let [k0, k1, r0, r1, bytes @ ..] = image else {
            return Err(Fault::TooShort);
        };
        let kind = u16::from_be_bytes([*k0, *k1]);
        let count = u16::from_be_bytes([*r0, *r1]);
        check_heading(kind, wanted, count, image.len())?;
        Ok(Body { bytes, count })
    }

    pub fn hand(&self, i: u8) -> Option<Field>
        requires { i < 16 }
        ensures { result ≡ stored_hand self.now.bytes.now i }
    {
        hand_at(self.bytes, i)
    }

    pub fn cell<V: LeafKind>(&self, j: u16) -> Cell<V>
        requires { j < self.now.count }
        ensures { result ≡ stored_cell V.taken self.now.bytes.now j }
    {
        cell_at(self.bytes, j)
    }
}
