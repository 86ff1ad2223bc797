// What a row of numbers is for. The first number of every row says it, so that a row made for one thing is never one made for another.
ghost use Rattle.std.specs.Prelude.{◌≡◌};
ghost use Rattle.hash.specs.Tag.{tag};

#[derive(Clone, Copy, Debug, PartialEq, Eq)]
pub enum Purpose {
    // a secret number
    Secret = 0,
    // what is shown of a secret number
    Shown = 1,
    // the leaf of a one-time key
    Leaf = 2,
    // an inner node of the tree
    Node = 3,
    // a text
    Text = 4,
}

impl Purpose {
    pub fn tag(self) -> u64
        ensures { result ≡ tag self }
    {
        self as u64
    }
}
