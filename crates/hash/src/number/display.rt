// How a number is printed: its 32 bytes in sixteens, the highest first, each as two of 0-9 a-f.
ghost use Rattle.std.specs.Prelude.{◌≡◌, ◌<◌, Some};
ghost use Rattle.hash.specs.Hex.{hex_digit, hex};
ghost use Rattle.hash.specs.Value.{value_of, bytes_of};

use super::Number;
use std::{fmt, str};

// The character of a digit.
fn digit_of(value: u8) -> u8
    requires { value < 16 }
    ensures { result ≡ hex_digit value }
{
    if value < 10 {
        b'0' + value
    } else {
        b'a' + (value - 10)
    }
}

// The characters of all bytes. By index, since two are written for each that is read.
fn digits_of(bytes: &[u8; 32]) -> [u8; 64]
    ensures { result ≡ hex bytes.now }
{
    let mut digits = [0; 64];
    for (i, byte) in bytes.iter().enumerate() {
        digits[2 * i] = digit_of(byte / 16);
        digits[2 * i + 1] = digit_of(byte % 16);
    }
    digits
}

impl fmt::Display for Number {
    ghost output = { λ n. Some (hex (bytes_of (value_of n))) };

    // All at once: a hole `{:02x}` for each byte takes several times as long.
    fn fmt<W: fmt::Write>(&self, f: &mut fmt::Formatter<W>) -> fmt::Result {
        let digits = digits_of(&self.to_bytes());
        let Ok(text) = str::from_utf8(&digits) else {
            unreachable!();
        };
        f.write_str(text)
    }
}
