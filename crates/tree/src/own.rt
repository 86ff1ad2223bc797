// The signer's own tree: its root, its nodes and its authentication paths. Nothing holds the tree: a node is made on the walk up from its first leaf, and on that walk each leaf below it is worked out once, eight side by side where there are as many: 2^l leaves and 2^l - 1 nodes above them for a root or a path of l levels. That what stands behind the numbers that are written is as it was is said by `drop`, which is as short as a name.
ghost use Rattle.std.specs.Prelude.{◌≡◌, ◌*◌, ◌/◌, ◌^◌, ◌<◌, ◌≤◌, map, length, take, drop};
ghost use Rattle.hash.specs.Value.{value_of};
ghost use Rattle.keys.specs.Limits.{max_levels};
ghost use Rattle.keys.specs.Refusals.{tree_refusal, Unless};
ghost use Rattle.tree.specs.Tree.{node, beside, path_from};

use crate::join;
use hash::{Number, RowHasher};
use keys::{Refusal, Secrets, Signer};

mod eight;

// The place of the other node under the same node.
#[tactic(auto, unfolding(crate::specs::Tree::beside))]
fn place_beside(place: u64) -> u64
    ensures { result ≡ beside place }
{
    if place % 2 == 0 { place + 1 } else { place - 1 }
}

// The tree of a signer over keys of so many bits, whatever these are.
#[derive(Clone, Copy)]
pub struct Tree {
    pub signer: Signer,
    pub bits: u64,
}

// What makes the nodes of a tree that is within the limits: the seed is taken in once for all of them.
#[derive(Drop)]
pub struct TreeMaker<H: RowHasher> {
    pub secrets: Secrets<H>,
    pub levels: usize,
    pub bits: u64,
    ghost few: { levels ≤ max_levels },
}

impl Tree {
    // What makes this tree's nodes; what is beyond the limits is refused here.
    pub fn maker<H: RowHasher>(&self) -> Result<TreeMaker<H>, Refusal>
        ensures { Unless (tree_refusal self.now.signer.levels self.now.bits) result (λ m. (m.secrets.seed ≡ self.now.signer.seed) × (m.levels ≡ self.now.signer.levels) × (m.bits ≡ self.now.bits)) }
    {
        let signer = &self.signer;
        signer.refuse(self.bits)?;
        Ok(TreeMaker {
            secrets: Secrets::new(&signer.seed),
            levels: signer.levels as usize,
            bits: self.bits,
        })
    }

    // The root: the node at the top.
    pub fn root<H: RowHasher>(&self) -> Result<Number, Refusal>
        ensures { Unless (tree_refusal self.now.signer.levels self.now.bits) result (λ v. value_of v ≡ node H.mix self.now.bits (value_of self.now.signer.seed) self.now.signer.levels 0) }
    {
        Ok(self.maker::<H>()?.root())
    }
}

impl<H: RowHasher> TreeMaker<H> {
    // The root. It needs room for one number a level.
    pub fn root(&self) -> Number
        ensures { value_of result ≡ node H.mix self.now.bits (value_of self.now.secrets.seed) self.now.levels 0 }
    {
        let mut scratch = [Number::from(0); Signer::MAX_LEVELS];
        self.make_node(self.levels, 0, &mut scratch)
    }

    // The node at a place of a level. It is the end of the path from the first leaf below it, and that path's numbers are of no further use.
    #[cycle(make_node_make_path)]
    fn make_node(&self, level: usize, place: u64, scratch: &mut [Number]) -> Number
        requires few { level ≤ max_levels }
        requires small { place * 2 ^ level < 2 ^ 64 }
        requires room { level ≤ length scratch.old }
        ensures value { value_of result ≡ node H.mix self.now.bits (value_of self.now.secrets.seed) level place }
        ensures rest { drop level scratch.new ≡ drop level scratch.old }
    {
        self.make_path(level, place << level, scratch)
    }

    // The authentication path from a key up to a level, and the node that it leads to. The three lowest levels are made together. The node beside is made first, since it needs the room in which the path below it is written afterwards: a lent array, since a device has no heap.
    #[cycle(make_node_make_path)]
    fn make_path(&self, level: usize, key: u64, path: &mut [Number]) -> Number
        requires few { level ≤ max_levels }
        requires room { level ≤ length path.old }
        ensures value { value_of result ≡ node H.mix self.now.bits (value_of self.now.secrets.seed) level (key / 2 ^ level) }
        ensures path { map value_of (take level path.new) ≡ path_from H.mix self.now.bits (value_of self.now.secrets.seed) 0 level key }
        ensures rest { drop level path.new ≡ drop level path.old }
    {
        if level == 0 {
            return self.secrets.key(key).leaf(self.bits);
        }
        if level == 3 {
            return self.make_low_path(key, path);
        }
        let below = level - 1;
        let other = self.make_node(below, place_beside(key >> below), path);
        let own = self.make_path(below, key, path);
        path[below] = other;
        join::<H>(key, below, &own, &other)
    }

    // Writes the authentication path of a key in front, and nothing behind it. Into a lent array, since a device has no heap.
    pub fn authentication_path(&self, key: u64, path: &mut [Number; Signer::MAX_LEVELS])
        ensures path { map value_of (take self.now.levels path.new) ≡ path_from H.mix self.now.bits (value_of self.now.secrets.seed) 0 self.now.levels key }
        ensures rest { drop self.now.levels path.new ≡ drop self.now.levels path.old }
    {
        self.make_path(self.levels, key, path);
    }
}
