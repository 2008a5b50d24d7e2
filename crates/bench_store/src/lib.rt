// The work that the benchmark times: collections and calls on packed banks of points, called from C.
#![tactic(auto)]

ghost use Rattle.runs.specs.Rigs.{banks_of, Fits};

use banks::packed::PackedBank;
use cells::Side;
use cells::banks::Bank;
use cells::leaves::LeafKind;
use kinds::points::Point;
use runs::rigs::Rig;
use runs::scripts::{Answer, Call, Edit};

// Collects so many times, and adds up what is kept and marked.
fn collections<V: LeafKind, A: Bank<V>, B: Bank<V>>(rig: &mut Rig<A, B>, times: u32) -> u64
    ensures { Fits (banks_of A.cells B.cells rig.old) → Fits (banks_of A.cells B.cells rig.new) }
{
    let mut sum = 0u64;
    for _ in 0..times {
        let _ = rig.call::<V>(Call::Begin);
        if let Ok(Answer::Kept { kept, marks }) = rig.call::<V>(Call::Finish) {
            sum = sum.wrapping_add(kept as u64).wrapping_add(marks as u64);
        }
    }
    sum
}

// The call that a number stands for.
fn call_of(n: u32) -> Call<Point> {
    let h = (n >> 8 & 15) as u16;
    let g = (n >> 12 & 15) as u16;
    let side = if n >> 16 & 1 == 0 {
        Side::Left
    } else {
        Side::Right
    };
    Call::Edit(match n >> 20 & 7 {
        0 | 1 => Edit::Pair { h },
        2 => Edit::Copy { h, g },
        3 => Edit::Load { h, g, side },
        4 => Edit::Store { g, side, h },
        5 | 6 => Edit::Swap { g, side, h },
        _ => Edit::Clear { h },
    })
}

// Makes calls that follow from one another, and counts those that are accepted.
fn edits<A: Bank<Point>, B: Bank<Point>>(rig: &mut Rig<A, B>, times: u32) -> u64
    ensures { Fits (banks_of A.cells B.cells rig.old) → Fits (banks_of A.cells B.cells rig.new) }
{
    let mut accepted = 0u64;
    let mut n = 1u32;
    for _ in 0..times {
        n = n.wrapping_mul(1_664_525).wrapping_add(1_013_904_223);
        if rig.call::<Point>(call_of(n)).is_ok() {
            accepted = accepted.wrapping_add(1);
        }
    }
    accepted
}

// Opens an image in the first bank and collects it that many times.
fn collected<A: Bank<Point> + Drop, B: Bank<Point> + Drop>(
    image: &[u8],
    first: A,
    second: B,
    times: u32,
) -> u64 {
    let Ok(mut rig) = Rig::new::<Point>(first, second) else {
        return 0;
    };
    let _ = rig.open::<Point>(image);
    let sum = collections::<Point, A, B>(&mut rig, times);
    rig.end::<Point>();
    sum
}

// Makes that many calls on a new store.
fn edited<A: Bank<Point> + Drop, B: Bank<Point> + Drop>(first: A, second: B, times: u32) -> u64 {
    let Ok(mut rig) = Rig::new::<Point>(first, second) else {
        return 0;
    };
    let accepted = edits(&mut rig, times);
    rig.end::<Point>();
    accepted
}

#[unsafe(no_mangle)]
pub extern "C" fn rattle_collect(
    image: &[u8],
    first: &mut [u8],
    second: &mut [u8],
    times: u32,
) -> u64 {
    collected(
        image,
        PackedBank::new(first),
        PackedBank::new(second),
        times,
    )
}

#[unsafe(no_mangle)]
pub extern "C" fn rattle_edits(first: &mut [u8], second: &mut [u8], times: u32) -> u64 {
    edited(PackedBank::new(first), PackedBank::new(second), times)
}
