// Signing with a given key. It counts nothing: who calls it sees to it that no key signs twice.
ghost use Rattle.std.specs.Prelude.{◌≡◌, ℕ, ◌+◌, ◌^◌, ◌≤◌, Bool, false, true, map, length, take, drop, OnErr};
ghost use Rattle.std.specs.List.{range_with_len};
ghost use Rattle.hash.specs.Value.{value_of};
ghost use Rattle.keys.specs.Refusals.{tree_refusal, Unless};
ghost use Rattle.signatures.specs.Signatures.{each_from, parts_from, others_from, signed};
ghost use Rattle.signatures.specs.Views.{MadeIn};

use crate::room::SignatureRoom;
use hash::{Number, RowHasher};
use keys::{OneTimeKey, Refusal, Signer, eight_from, show_eight};
use tree::Tree;

// Of each two numbers the one for its bit. Whatever numbers these are, of eight places from one on.
fn chosen(unset: &[Number; 8], set: &[Number; 8], bits: &[bool; 8]) -> [Number; 8]
    ensures { (number : ℕ → Bool → ℕ) (first : ℕ) → map value_of unset.now ≡ map (λ j. number j false) (range_with_len first 8) → map value_of set.now ≡ map (λ j. number j true) (range_with_len first 8) → map value_of result ≡ each_from number first bits.now }
{
    let mut numbers = *unset;
    for (k, bit) in bits.iter().enumerate() {
        numbers[k] = if *bit { set[k] } else { unset[k] };
    }
    numbers
}

// For each of eight bits from a place on its secret number, and what is shown of the other one.
fn reveal_eight<H: RowHasher>(
    key: &OneTimeKey<'_, H>,
    first: u64,
    bits: &[bool; 8],
) -> ([Number; 8], [Number; 8])
    requires { first + 8 ≤ 2 ^ 64 }
    ensures parts { map value_of result.0 ≡ parts_from H.mix (value_of key.now.secrets.now.seed) key.now.index first bits.now }
    ensures others { map value_of result.1 ≡ others_from H.mix (value_of key.now.secrets.now.seed) key.now.index first bits.now }
{
    let pairs = key.secrets.eight_pairs(&[key.index; 8], &eight_from(first));
    (
        chosen(&pairs.unset, &pairs.set, bits),
        show_eight::<H>(&chosen(&pairs.set, &pairs.unset, bits)),
    )
}

// Writes the same for fewer bits, one by one, and nothing behind them.
fn reveal_odd<H: RowHasher>(
    key: &OneTimeKey<'_, H>,
    first: u64,
    bits: &[bool],
    parts: &mut [Number],
    others: &mut [Number],
)
    requires places { first + length bits.now ≤ 2 ^ 64 }
    requires parts { length bits.now ≤ length parts.old }
    requires others { length bits.now ≤ length others.old }
    ensures parts { map value_of (take (length bits.now) parts.new) ≡ parts_from H.mix (value_of key.now.secrets.now.seed) key.now.index first bits.now }
    ensures rest { (drop (length bits.now) parts.new ≡ drop (length bits.now) parts.old) × (drop (length bits.now) others.new ≡ drop (length bits.now) others.old) }
    ensures others { map value_of (take (length bits.now) others.new) ≡ others_from H.mix (value_of key.now.secrets.now.seed) key.now.index first bits.now }
{
    // By index, since behind `zip` a proof knows of what is written through `iter_mut` the length alone.
    for (j, bit) in bits.iter().enumerate() {
        parts[j] = key.secret(first + j as u64, *bit);
        others[j] = key.shown(first + j as u64, !*bit);
    }
}

// Writes for each bit its secret number, and what is shown of the other one, and nothing behind them (said by `drop`, which is as short as a name). Into lent arrays, since a device has no heap. Eight bits at a time, since their numbers are worked out and shown faster together.
fn reveal<H: RowHasher>(
    key: &OneTimeKey<'_, H>,
    bits: &[bool],
    parts: &mut [Number],
    others: &mut [Number],
)
    requires parts { length bits.now ≤ length parts.old }
    requires others { length bits.now ≤ length others.old }
    ensures parts { map value_of (take (length bits.now) parts.new) ≡ parts_from H.mix (value_of key.now.secrets.now.seed) key.now.index 0 bits.now }
    ensures rest { (drop (length bits.now) parts.new ≡ drop (length bits.now) parts.old) × (drop (length bits.now) others.new ≡ drop (length bits.now) others.old) }
    ensures others { map value_of (take (length bits.now) others.new) ≡ others_from H.mix (value_of key.now.secrets.now.seed) key.now.index 0 bits.now }
{
    let (eights, odd) = bits.as_chunks::<8>();
    for (i, eight) in eights.iter().enumerate() {
        let at = 8 * i;
        let (own, other) = reveal_eight(key, at as u64, eight);
        parts[at..at + 8].copy_from_slice(&own);
        others[at..at + 8].copy_from_slice(&other);
    }
    let at = 8 * eights.len();
    reveal_odd(key, at as u64, odd, &mut parts[at..], &mut others[at..]);
}

// Makes the signature of a row of bits by a key, in the room; where it is refused the room is as it was.
pub fn sign_with<H: RowHasher>(
    signer: &Signer,
    key: u64,
    bits: &[bool],
    room: &mut SignatureRoom,
) -> Result<(), Refusal>
    ensures answer { Unless (tree_refusal signer.now.levels (length bits.now)) result (λ _. MadeIn (signed H.mix (value_of signer.now.seed) signer.now.levels key bits.now) room.old room.new) }
    ensures same { OnErr result (room.new ≡ room.old) }
{
    let tree = Tree {
        signer: *signer,
        bits: bits.len() as u64,
    };
    let maker = tree.maker::<H>()?;
    maker.authentication_path(key, &mut room.path);
    reveal(
        &maker.secrets.key(key),
        bits,
        &mut room.parts,
        &mut room.others,
    );
    room.key = key;
    room.bits = bits.len();
    room.levels = maker.levels;
    Ok(())
}
