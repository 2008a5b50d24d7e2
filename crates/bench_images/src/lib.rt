// The work that the benchmark times: the check of an image of points, called from C.
#![tactic(auto)]

use images::check;
use kinds::points::Point;

// The number of cells of an image of points, or 65535 where the bytes are none.
#[unsafe(no_mangle)]
pub extern "C" fn rattle_check(image: &[u8]) -> u64 {
    check::<Point>(image).map_or(65_535, |cells| cells as u64)
}
