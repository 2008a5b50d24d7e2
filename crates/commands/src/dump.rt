// The cells of a packed bank, one to a line, and how many there are of each kind.
use crate::Ended;
use crate::files::read_bytes;
use banks::packed::PackedBank;
use cells::banks::Bank;
use dumps::{Tally, cell_line, cell_text};
use std::alloc::AllocError;
use texts::typed::TypedLeaf;

// Prints each cell that has an address of sixteen bits.
fn print_cells<V: TypedLeaf, B: Bank<V>>(rt: &HostRuntime, bank: &B) -> Result<Tally, AllocError> {
    let mut tally = Tally::NONE;
    for (at, cell) in (0..=u16::MAX).map_while(|at| Some((at, bank.read(at)?))) {
        let text = cell_text(rt.alloc(), cell)?;
        let line = cell_line(rt.alloc(), at, text.as_str())?;
        let _ = rt.println(line);
        tally = tally.with(cell);
    }
    Ok(tally)
}

pub fn report<V: TypedLeaf>(rt: &HostRuntime, name: &str) -> Result<(), Ended> {
    let mut bytes = read_bytes(rt, name)?;
    if bytes.len() / 9 > 0x1_0000 {
        let _ = eprintln!(rt; "cellstore: {name}: more cells than there are addresses");
        return Err(Ended::Wrong);
    }
    let left_over = bytes.len() % 9;
    let bank = PackedBank::new(bytes.as_mut_slice());
    let tally = print_cells::<V, PackedBank>(rt, &bank)?;
    let line = tally.line(rt.alloc(), left_over)?;
    let _ = rt.println(line);
    Ok(())
}
