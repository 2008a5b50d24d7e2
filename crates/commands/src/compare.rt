// Whether two images are of alike sets, and where they first differ.
use crate::Ended;
use crate::files::read_image;
use images::same;
use reports::apart::{Difference, difference_line, first_difference};
use std::alloc::AllocError;
use texts::typed::TypedLeaf;

fn say_difference<V: TypedLeaf>(rt: &HostRuntime, a: &[u8], b: &[u8]) -> Result<(), AllocError> {
    let difference = first_difference::<V>(a, b).unwrap_or(Difference::Cell(u16::MAX));
    let line = difference_line::<V>(rt.alloc(), a, b, difference)?;
    let _ = rt.println(line);
    Ok(())
}

pub fn report<V: TypedLeaf>(rt: &HostRuntime, a_name: &str, b_name: &str) -> Result<(), Ended> {
    let a = named_image::<V>(rt, a_name)?;
    let b = named_image::<V>(rt, b_name)?;
    if same::<V>(a.as_slice(), b.as_slice())? {
        let _ = rt.println("same");
        return Ok(());
    }
    let _ = say_difference::<V>(rt, a.as_slice(), b.as_slice());
    Err(Ended::Different)
}

// An image, or a refusal that names the file.
fn named_image<V: TypedLeaf>(rt: &HostRuntime, name: &str) -> Result<Vec<u8>, Ended> {
    let before = format!(in rt.alloc(); "{name}: ")?;
    read_image::<V>(rt, name, before.as_str())
}
