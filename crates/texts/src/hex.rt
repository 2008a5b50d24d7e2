// Numbers in hexadecimal, in upper case, with a fixed count of digits.
ghost use Rattle.std.specs.Prelude.{◌≡◌, ℕ, ◌%◌, ◌<◌, ◌↔◌, ◌++◌, Some, IfSome, string_bytes, OnOk};
ghost use Rattle.texts.specs.Hex.{hex_digit, hex};

use std::alloc::AllocError;

fn hex_digit(n: u8) -> char
    ensures { result ≡ hex_digit (n % 16) }
{
    let d = n % 16;
    if d < 10 {
        char::from(b'0' + d)
    } else {
        char::from(b'A' + (d - 10))
    }
}

// What a digit stands for, and none of any other character.
pub fn digit_value(digit: u8) -> Option<u8>
    ensures small { IfSome result (λ n. n < 16) }
    ensures back { (n : ℕ) → n < 16 → (result ≡ Some n) ↔ (hex_digit n ≡ digit) }
{
    match digit {
        b'0'..=b'9' => Some(digit - b'0'),
        b'A'..=b'F' => Some(digit - b'A' + 10),
        _ => None,
    }
}

// Writes the lowest `digits` hexadecimal digits of `w` after what `out` has. `{:X}` pads, but does not cut to so many.
pub fn push_hex(out: &mut String, w: u64, digits: u8) -> Result<(), AllocError>
    ensures { OnOk result (string_bytes out.new ≡ string_bytes out.old ++ hex digits w) }
{
    if digits == 0 {
        return Ok(());
    }
    push_hex(out, w / 16, digits - 1)?;
    out.push(hex_digit((w % 16) as u8))
}
