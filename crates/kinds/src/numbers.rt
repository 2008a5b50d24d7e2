// One number of a point.
ghost use Rattle.std.specs.Prelude.{◌≡◌, if◌then◌else◌, Some, None};
ghost use Rattle.kinds.specs.Numbers.{plain, tidied_number, pattern, plain_pattern, taken_number};

// Zero for a zero of either sign; none for an infinity or what is no number.
pub fn tidy_number(x: f32) -> Option<f32>
    ensures { result ≡ tidied_number x }
{
    if !x.is_finite() {
        return None;
    }
    if x == 0.0 { Some(0.0) } else { Some(x) }
}

// The pattern of a plain number, and none of any other.
pub fn to_pattern(x: f32) -> Option<u32>
    ensures { result ≡ (if plain x then Some (pattern x) else None) }
{
    if !x.is_finite() {
        return None;
    }
    let bits = x.to_bits();
    if bits == 0x8000_0000 {
        None
    } else {
        Some(bits)
    }
}

// Whether a pattern is that of a plain number.
fn is_plain(bits: u32) -> bool
    ensures { result ≡ plain_pattern bits }
{
    bits % 0x8000_0000 < 0x7f80_0000 && bits != 0x8000_0000
}

// The plain number that has this pattern.
pub fn from_pattern(bits: u32) -> Option<f32>
    ensures { result ≡ taken_number bits }
{
    if is_plain(bits) {
        Some(f32::from_bits(bits))
    } else {
        None
    }
}
