// A number in sixteens: its 32 bytes, each as two of 0-9 a-f.
ghost use Rattle.std.specs.Prelude.{◌≡◌, ℕ, ◌<◌, MatchOption, ◌≢◌};
ghost use Rattle.reading.specs.Reading.{Reads};
ghost use Rattle.hash.specs.Hex.{hex_digit, hex};

use hash::Number;

// The digit of a character, where it is one. No `to_digit`, which takes upper case too; no `Reads`, since it speaks of digits below 16 alone.
fn digit_value(digit: u8) -> Option<u8>
    ensures { MatchOption result ((d : ℕ) → d < 16 → digit ≢ hex_digit d) (λ d. (d < 16) × (digit ≡ hex_digit d)) }
{
    match digit {
        b'0'..=b'9' => Some(digit - b'0'),
        b'a'..=b'f' => Some(digit - b'a' + 10),
        _ => None,
    }
}

// The number that a text is in sixteens, if it is one.
pub fn read_hex(text: &[u8]) -> Option<Number>
    ensures { Reads (λ n. text.now ≡ hex n.bytes) result }
{
    if text.len() != 64 {
        return None;
    }
    let (pairs, _) = text.as_chunks::<2>();
    let mut bytes = [0; 32];
    // By index, since behind `zip` a proof knows of what is written through `iter_mut` the length alone.
    for (i, [high, low]) in pairs.iter().enumerate() {
        bytes[i] = digit_value(*high)? * 16 + digit_value(*low)?;
    }
    Some(Number::from(bytes))
}
