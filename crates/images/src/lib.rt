// Images: a settled store as bytes, one string of bytes for each graph.
#![tactic(auto)]

ghost use Rattle.std.specs.Prelude.{◌≡◌, ◌≤◌, length, drop, IfOk, OnOk, Ok, Err, Decides};
ghost use Rattle.std.specs.Result.{result_err, result_map_both};
ghost use Rattle.graph.specs.Graphs.{Alike};
ghost use Rattle.images.specs.Images.{HeldImage, Checked, OneReading, hand_of, cell_of, graph_in, Compared};
ghost use Rattle.images.specs.Layout.{IsBodyOf};
ghost use Rattle.images.specs.Faults.{Examined, Diagnosed};
ghost use Rattle.images.specs.First.{first_fault};

pub mod faults;
pub mod opening;
mod reading;
mod surveys;
pub mod writing;

use crate::faults::Fault;
use crate::reading::{Body, cell_at, hand_at};
use crate::surveys::check_body;
use cells::causes::Cause;
use cells::leaves::LeafKind;
use cells::{Cell, Field};

// The hands and cells of an image, or what is wrong with bytes that are none.
fn examine<V: LeafKind>(image: &[u8]) -> Result<Body<'_>, Fault>
    ensures rules { Examined V.lawful V.word V.taken V.number image.now (result_map_both (λ body. body.count) (λ fault. fault) result) }
    ensures order { result_err result ≡ first_fault V.taken V.number image.now }
    ensures rest { IfOk result (λ body. IsBodyOf image.now body.bytes.now body.count) }
{
    let body = Body::parse(image, V::kind_number())?;
    check_body::<V>(&body)?;
    Ok(body)
}

// What is wrong first with bytes that are no image of the kind, and nothing where they are one: an answer, and no refusal.
pub fn diagnose<V: LeafKind>(image: &[u8]) -> Option<Fault>
    ensures first { result ≡ first_fault V.taken V.number image.now }
    ensures rules { Diagnosed V.lawful V.word V.taken V.number image.now result }
{
    examine::<V>(image).err()
}

// The hands and cells of an image of the kind, and a refusal of any other bytes.
fn read<V: LeafKind>(image: &[u8]) -> Result<Body<'_>, Cause>
    ensures checked { Checked V.lawful V.word V.number image.now (result_map_both (λ body. body.count) (λ cause. cause) result) }
    ensures holds { OnOk result (HeldImage V.lawful V.word V.taken V.number image.now) }
    ensures rest { IfOk result (λ body. IsBodyOf image.now body.bytes.now body.count) }
{
    examine::<V>(image).map_err(|_| Cause::NotAnImage)
}

// The number of cells of an image of the kind, and a refusal of any other bytes.
pub fn check<V: LeafKind>(image: &[u8]) -> Result<u16, Cause>
    ensures checked { Checked V.lawful V.word V.number image.now result }
    ensures holds { elim result [ Ok _ ↦ HeldImage V.lawful V.word V.taken V.number image.now | Err _ ↦ Unit {0} ] }
{
    let body = read::<V>(image)?;
    Ok(body.count)
}

// Whether the graphs of two images are alike, which is whether the bytes are equal.
fn equal_images<V: LeafKind>(a: &[u8], b: &[u8]) -> bool
    requires first { HeldImage V.lawful V.word V.taken V.number a.now }
    requires second { HeldImage V.lawful V.word V.taken V.number b.now }
    ensures alike { Decides result (Alike V.alike (graph_in V.taken a.now) (graph_in V.taken b.now)) }
    ensures bytes { Decides result (a.now ≡ b.now) }
{
    a == b
}

// Whether two images are of alike graphs, and a refusal where one of them is none.
pub fn same<V: LeafKind>(a: &[u8], b: &[u8]) -> Result<bool, Cause>
    ensures compared { Compared V.lawful V.word V.taken V.alike V.number a.now b.now result }
    ensures bytes { elim result [ Ok equal ↦ Decides equal (a.now ≡ b.now) | Err _ ↦ Unit {0} ] }
{
    let _ = check::<V>(a)?;
    let _ = check::<V>(b)?;
    Ok(equal_images::<V>(a, b))
}

// What follows the first four bytes: the hands, then the cells.
fn after_heading(image: &[u8]) -> &[u8]
    requires { 4 ≤ length image.now }
    ensures { result.now ≡ drop 4 image.now }
{
    &image[4..]
}

// The hand with an index, none past the sixteenth, past the end of the bytes, or where the bytes are no field.
pub fn hand_of(image: &[u8], i: u8) -> Option<Field>
    ensures found { result ≡ hand_of image.now i }
{
    if i < 16 && 8 + 4 * i as usize <= image.len() {
        hand_at(after_heading(image), i)
    } else {
        None
    }
}

// The cell at an address, none past the last cell or the end of the bytes; a blank cell where the bytes are no cell.
pub fn cell_of<V: LeafKind>(image: &[u8], at: u16) -> Option<Cell<V>>
    ensures found { result ≡ cell_of V.taken image.now at }
{
    let [_, _, r0, r1, ..] = image else {
        return None;
    };
    if at < u16::from_be_bytes([*r0, *r1]) && 77 + 9 * at as usize <= image.len() {
        Some(cell_at(after_heading(image), at))
    } else {
        None
    }
}

// An image has one set of hands and cells, and `hand_of` and `cell_of` find them.
pub fn image_has_one_reading<V: LeafKind>()
    ensures { OneReading V.lawful V.word V.taken V.number }
{}
