// A text's hash, and the bits of it that are signed.
ghost use Rattle.std.specs.Prelude.{◌≡◌, min, IfOk};
ghost use Rattle.hash.specs.Value.{value_of, first_bits};
ghost use Rattle.texts.specs.Bits.{text_row, bits_of_text};

use hash::{Number, Purpose, RowHasher};
use std::alloc::{AllocError, Global};

// The hash of a text: of its bytes, one number for each. Number by number and not by `H::hash`, since a text can be long.
pub fn digest<H: RowHasher>(text: &[u8]) -> Number
    ensures { value_of result ≡ H.mix (text_row text.now) }
{
    let mut hasher = H::start(Purpose::Text);
    for byte in text {
        hasher.absorb(&Number::from(u64::from(*byte)));
    }
    hasher.finish()
}

// The first bits of a number, so many or all that there are.
fn bits_of(heap: Global, number: &Number, count: u64) -> Result<Vec<bool>, AllocError>
    ensures { IfOk result (λ v. v.items ≡ first_bits (value_of number.now) (min count 256)) }
{
    (0..count.min(Number::BITS as u64))
        .map(|place| number.bit(place as usize))
        .collect(heap)
}

// The bits of a text that a key of so many bits signs: the first of its hash, so many or all that there are.
pub fn text_bits<H: RowHasher>(
    heap: Global,
    text: &[u8],
    count: u64,
) -> Result<Vec<bool>, AllocError>
    ensures { IfOk result (λ v. v.items ≡ bits_of_text H.mix text.now count) }
{
    bits_of(heap, &digest::<H>(text), count)
}
