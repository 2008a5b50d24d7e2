// Files, and what is said of those that cannot be used.
use crate::Ended;
use cells::causes::Cause;
use cells::leaves::LeafKind;
use images::diagnose;
use std::fmt::Display;
use std::fs;

// Says why a file cannot be used.
pub fn unusable<W: Display>(rt: &HostRuntime, name: &str, why: &W) -> Ended {
    let _ = eprintln!(rt; "cellstore: {name}: {why}");
    Ended::Wrong
}

pub fn read_bytes(rt: &HostRuntime, name: &str) -> Result<Vec<u8>, Ended> {
    fs::read(rt, name).map_err(|e| unusable(rt, name, &e))
}

// The bytes of a file that is an image of the kind. Of any other it says, after `before`, which rule is broken first.
pub fn read_image<V: LeafKind>(
    rt: &HostRuntime,
    name: &str,
    before: &str,
) -> Result<Vec<u8>, Ended> {
    let bytes = read_bytes(rt, name)?;
    if let Some(fault) = diagnose::<V>(bytes.as_slice()) {
        let cause = Cause::NotAnImage;
        let _ = eprintln!(rt; "{before}refused {cause}: {fault}");
        return Err(Ended::Wrong);
    }
    Ok(bytes)
}
