// The tree over the keys: how many there are, the walk up from a leaf along an authentication path, and the signer's own tree.
#![tactic(auto)]

ghost use Rattle.std.specs.Prelude.{◌≡◌, ◌/◌, ◌%◌, ◌^◌, map, if◌then◌else◌, not, Some, None, ◌==◌, nat_lt};
ghost use Rattle.hash.specs.Value.{value_of};
ghost use Rattle.tree.specs.Tree.{power, node_row, fork, up};

use hash::{Number, Purpose, RowHasher};

pub mod own;

pub use own::{Tree, TreeMaker};

// How many keys a tree of so many levels has, where that is below 2^64.
pub fn key_count(levels: u64) -> Option<u64>
    ensures { result ≡ (if nat_lt levels 64 then Some (power levels) else None) }
{
    if levels < 64 { Some(1 << levels) } else { None }
}

// Whether a key is one of a tree of so many levels.
pub fn in_tree(key: u64, levels: u64) -> bool
    ensures { result ≡ nat_lt key (power levels) }
{
    match key_count(levels) {
        Some(count) => key < count,
        None => true,
    }
}

// The node above two.
fn parent<H: RowHasher>(left: &Number, right: &Number) -> Number
    ensures { value_of result ≡ H.mix (node_row (value_of left.now) (value_of right.now)) }
{
    H::hash(Purpose::Node, &[*left, *right])
}

// A key's bit at a level: whether the node on the way up from its leaf is a right one there. Past the last bit none is set.
#[tactic(auto, using(crate::proofs::Powers::spent))]
fn is_right(key: u64, level: usize) -> bool
    ensures { result ≡ not (key / 2 ^ level % 2 == 0) }
{
    level < 64 && (key >> level) % 2 == 1
}

// The node above one on the way up from a key's leaf, from its value and the one beside it: left or right by the key's bit at its level.
#[tactic(auto, unfolding(crate::specs::Tree::fork))]
fn join<H: RowHasher>(key: u64, level: usize, own: &Number, beside: &Number) -> Number
    ensures { value_of result ≡ H.mix (fork (key / 2 ^ level) (value_of own.now) (value_of beside.now)) }
{
    if is_right(key, level) {
        parent::<H>(beside, own)
    } else {
        parent::<H>(own, beside)
    }
}

// Where the walk up from a key's leaf along a path comes to, level by level. A path can have more levels than a key has bits.
pub fn climb<H: RowHasher>(key: u64, leaf: &Number, path: &[Number]) -> Number
    ensures { value_of result ≡ up H.mix (map value_of path.now) key (value_of leaf.now) }
{
    let mut value = *leaf;
    for (level, beside) in path.iter().enumerate() {
        value = join::<H>(key, level, &value, beside);
    }
    value
}
