// Verifying a signature.
ghost use Rattle.std.specs.Prelude.{◌≡◌, ℕ, List, ◌++◌, map, length};
ghost use Rattle.hash.specs.Value.{value_of};
ghost use Rattle.keys.specs.Keys.{shown};
ghost use Rattle.signatures.specs.Signatures.{in_order, shown_of, leaf_row_of, accepted};
ghost use Rattle.signatures.specs.Views.{viewed};

use crate::view::SignatureView;
use hash::{Number, Purpose, RowHasher};
use keys::{show, show_eight};
use tree::{climb, in_tree};

// Takes in what is shown for one bit, that for 0 before that for 1.
fn absorb_pair<H: RowHasher>(hasher: &mut H, set: bool, own: &Number, other: &Number)
    ensures { (xs : List ℕ) → H.RowHasher.holds hasher.old xs → H.RowHasher.holds hasher.new (xs ++ in_order set (value_of own.now) (value_of other.now)) }
{
    if set {
        hasher.absorb(other);
        hasher.absorb(own);
    } else {
        hasher.absorb(own);
        hasher.absorb(other);
    }
}

// Takes in what is shown for each bit, from what is shown of the parts.
fn absorb_pairs<H: RowHasher>(hasher: &mut H, bits: &[bool], own: &[Number], others: &[Number])
    requires own { length own.now ≡ length bits.now }
    requires others { length others.now ≡ length bits.now }
    ensures { (row parts : List ℕ) → map value_of own.now ≡ map (shown H.mix) parts → H.RowHasher.holds hasher.old row → H.RowHasher.holds hasher.new (row ++ shown_of H.mix bits.now parts (map value_of others.now)) }
{
    for ((bit, own), other) in bits.iter().zip(own).zip(others) {
        absorb_pair::<H>(hasher, *bit, own, other);
    }
}

// The same from the parts, one by one.
fn absorb_parts<H: RowHasher>(hasher: &mut H, bits: &[bool], parts: &[Number], others: &[Number])
    requires parts { length parts.now ≡ length bits.now }
    requires others { length others.now ≡ length bits.now }
    ensures { (row : List ℕ) → H.RowHasher.holds hasher.old row → H.RowHasher.holds hasher.new (row ++ shown_of H.mix bits.now (map value_of parts.now) (map value_of others.now)) }
{
    for ((bit, part), other) in bits.iter().zip(parts).zip(others) {
        absorb_pair::<H>(hasher, *bit, &show::<H>(part), other);
    }
}

// The leaf that a signature's numbers lead to, hashed as they come, so that no row is held. Eight bits at a time, since eight numbers are shown faster together.
fn leaf_of<H: RowHasher>(bits: &[bool], parts: &[Number], others: &[Number]) -> Number
    requires parts { length parts.now ≡ length bits.now }
    requires others { length others.now ≡ length bits.now }
    ensures { value_of result ≡ H.mix (leaf_row_of H.mix bits.now (map value_of parts.now) (map value_of others.now)) }
{
    let (bit_eights, odd_bits) = bits.as_chunks::<8>();
    let (part_eights, odd_parts) = parts.as_chunks::<8>();
    let (other_eights, odd_others) = others.as_chunks::<8>();
    let mut hasher = H::start(Purpose::Leaf);
    for ((bits, parts), others) in bit_eights.iter().zip(part_eights).zip(other_eights) {
        absorb_pairs::<H>(&mut hasher, bits, &show_eight::<H>(parts), others);
    }
    absorb_parts::<H>(&mut hasher, odd_bits, odd_parts, odd_others);
    hasher.finish()
}

// Whether a signature is accepted, for a row of bits and a root of so many levels, whatever these are.
pub fn verify<H: RowHasher>(
    root: &Number,
    levels: u64,
    bits: &[bool],
    signature: SignatureView<'_>,
) -> bool
    ensures { result ≡ accepted H.mix (value_of root.now) levels bits.now (viewed signature.entry) }
{
    let count = bits.len();
    if !in_tree(signature.key, levels) {
        return false;
    }
    if signature.parts.len() != count {
        return false;
    }
    if signature.others.len() != count {
        return false;
    }
    if signature.path.len() as u64 != levels {
        return false;
    }
    let leaf = leaf_of::<H>(bits, signature.parts, signature.others);
    climb::<H>(signature.key, &leaf, signature.path) == *root
}
