// What an image holds: counted, and shown in words.
use crate::Ended;
use crate::files::read_image;
use cells::Field;
use dumps::{Tally, cell_text};
use images::{cell_of, hand_of};
use reports::counts::{hands_in_use, tally_of};
use std::alloc::AllocError;
use texts::typed::TypedLeaf;

// Says what an image holds, or which rule its bytes break.
pub fn check<V: TypedLeaf>(rt: &HostRuntime, name: &str) -> Result<(), Ended> {
    let image = read_image::<V>(rt, name, "")?;
    let kind = V::kind_number();
    let used = hands_in_use(image.as_slice());
    let Tally { pair, leaf, .. } = tally_of::<V>(image.as_slice(), u16::MAX);
    let cells = pair.saturating_add(leaf);
    let bytes = image.len();
    let _ = println!(rt; "leaf kind {kind}, {used} of 16 hands in use");
    let _ = println!(rt; "{pair} pairs, {leaf} leaves");
    let _ = println!(rt; "image: {cells} cells, {bytes} bytes");
    Ok(())
}

// By number, which is printed.
fn show_hands(rt: &HostRuntime, image: &[u8]) {
    for i in 0..16u8 {
        let field = hand_of(image, i).unwrap_or(Field::Nil);
        let _ = println!(rt; "hand {i}: {field}");
    }
}

fn show_cells<V: TypedLeaf>(rt: &HostRuntime, image: &[u8]) -> Result<(), AllocError> {
    for (at, cell) in (0..=u16::MAX).map_while(|at| Some((at, cell_of::<V>(image, at)?))) {
        let text = cell_text(rt.alloc(), cell)?;
        let _ = println!(rt; "cell {at}: {text}");
    }
    Ok(())
}

// Prints the hands and the cells of an image.
pub fn show<V: TypedLeaf>(rt: &HostRuntime, name: &str) -> Result<(), Ended> {
    let image = read_image::<V>(rt, name, "")?;
    show_hands(rt, image.as_slice());
    show_cells::<V>(rt, image.as_slice())?;
    Ok(())
}
