// The three lowest levels of the tree: the eight leaves below a node of level 3 are worked out side by side, and the nodes above them are made of them.
ghost use Rattle.std.specs.Prelude.{◌≡◌, ◌/◌, ◌^◌, ◌≤◌, map, length, take, drop};
ghost use Rattle.hash.specs.Value.{value_of};
ghost use Rattle.tree.specs.Tree.{node, path_from};
ghost use Rattle.tree.specs.Levels.{above};

use super::{TreeMaker, place_beside};
use crate::parent;
use hash::{Number, RowHasher};
use keys::eight_from;

// The four nodes above eight.
fn four_above<H: RowHasher>(nodes: &[Number; 8]) -> [Number; 4]
    ensures { map value_of result ≡ above H.mix (map value_of nodes.now) }
{
    let [a, b, c, d, e, f, g, h] = nodes;
    [
        parent::<H>(a, b),
        parent::<H>(c, d),
        parent::<H>(e, f),
        parent::<H>(g, h),
    ]
}

// The two nodes above four.
fn two_above<H: RowHasher>(nodes: &[Number; 4]) -> [Number; 2]
    ensures { map value_of result ≡ above H.mix (map value_of nodes.now) }
{
    let [a, b, c, d] = nodes;
    [parent::<H>(a, b), parent::<H>(c, d)]
}

impl<H: RowHasher> TreeMaker<H> {
    // The authentication path from a key up to level 3, and the node that it leads to, both from the eight leaves below that node.
    pub(super) fn make_low_path(&self, key: u64, path: &mut [Number]) -> Number
        requires { 3 ≤ length path.old }
        ensures value { value_of result ≡ node H.mix self.now.bits (value_of self.now.secrets.seed) 3 (key / 2 ^ 3) }
        ensures path { map value_of (take 3 path.new) ≡ path_from H.mix self.now.bits (value_of self.now.secrets.seed) 0 3 key }
        ensures rest { drop 3 path.new ≡ drop 3 path.old }
    {
        let eight = eight_from(key - key % 8);
        let leaves = self.secrets.leaves(&eight, self.bits);
        let pairs = four_above::<H>(&leaves);
        let halves = two_above::<H>(&pairs);
        path[0] = leaves[(place_beside(key) % 8) as usize];
        path[1] = pairs[(place_beside(key / 2) % 4) as usize];
        path[2] = halves[(place_beside(key / 4) % 2) as usize];
        let [left, right] = &halves;
        parent::<H>(left, right)
    }
}
