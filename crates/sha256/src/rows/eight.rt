// Eight rows side by side, so that the block function is called for eight blocks at once.
ghost use Rattle.std.specs.Prelude.{◌≡◌, ℕ, IsTrue, List, [], ◌∷◌, ◌++◌, take, map};
ghost use Rattle.std.specs.List.{AllZip, All};
ghost use Rattle.hash.specs.Rows.{longer};
ghost use Rattle.hash.specs.Value.{value_of, bytes_of};
ghost use Rattle.compression.specs.Fips180.{compressed};
ghost use Rattle.sha256.specs.Eight.{RowHeld, HalfFull, row_value};

use super::RowSha256;
use crate::stream::Sha256;
use hash::Number;
use lanes::compress_eight;

// Whether a number more fills the block of each.
pub(super) fn all_half_full(hashers: &[RowSha256; 8]) -> bool
    ensures { IsTrue result → All HalfFull hashers.now }
{
    let mut all = true;
    for s in hashers {
        all &= s.hasher.length % 64 == 32;
    }
    all
}

impl RowSha256 {
    // The block that a number fills.
    fn filled(&self, x: &Number) -> [u8; 64]
        ensures { result ≡ take 32 self.now.hasher.block ++ bytes_of (value_of x.now) }
    {
        let mut block = self.hasher.block;
        block[32..64].copy_from_slice(&x.to_bytes());
        block
    }

    // The hasher behind that block, whose hash value is the next one.
    fn behind(&self, next: [u32; 8]) -> RowSha256
        ensures { (v : ℕ) → HalfFull self.now → next ≡ compressed self.now.hasher.state (take 32 self.now.hasher.block ++ bytes_of v) →
            (row : List ℕ) → RowHeld self.now row → RowHeld result (row ++ (v ∷ [])) }
    {
        RowSha256 {
            hasher: Sha256 {
                state: next,
                block: [0; 64],
                length: self.hasher.length.wrapping_add(32),
            },
        }
    }
}

// Takes in the numbers that fill the blocks, and hashes these.
pub(super) fn fill_eight(hashers: &mut [RowSha256; 8], numbers: &[Number; 8])
    requires { All HalfFull hashers.old }
    ensures { (rows : List (List ℕ)) → AllZip RowHeld hashers.old rows → AllZip RowHeld hashers.new (longer rows (map value_of numbers.now)) }
{
    let [a, b, c, d, e, f, g, h] = *hashers;
    let [i, j, k, l, m, n, o, p] = numbers;
    let states = [
        a.hasher.state,
        b.hasher.state,
        c.hasher.state,
        d.hasher.state,
        e.hasher.state,
        f.hasher.state,
        g.hasher.state,
        h.hasher.state,
    ];
    let blocks = [
        a.filled(i),
        b.filled(j),
        c.filled(k),
        d.filled(l),
        e.filled(m),
        f.filled(n),
        g.filled(o),
        h.filled(p),
    ];
    let [q, r, s, t, u, v, w, x] = compress_eight(&states, &blocks);
    *hashers = [
        a.behind(q),
        b.behind(r),
        c.behind(s),
        d.behind(t),
        e.behind(u),
        f.behind(v),
        g.behind(w),
        h.behind(x),
    ];
}

// The hash values after the padding of eight rows.
pub(super) fn hash_padded(hashers: &[RowSha256; 8]) -> [[u32; 8]; 8]
    ensures { (rows : List (List ℕ)) → AllZip RowHeld hashers.now rows → result ≡ map row_value rows }
{
    let [mut a, mut b, mut c, mut d, mut e, mut f, mut g, mut h] = *hashers;
    a.hasher.pad();
    b.hasher.pad();
    c.hasher.pad();
    d.hasher.pad();
    e.hasher.pad();
    f.hasher.pad();
    g.hasher.pad();
    h.hasher.pad();
    let states = [
        a.hasher.state,
        b.hasher.state,
        c.hasher.state,
        d.hasher.state,
        e.hasher.state,
        f.hasher.state,
        g.hasher.state,
        h.hasher.state,
    ];
    let blocks = [
        a.hasher.block,
        b.hasher.block,
        c.hasher.block,
        d.hasher.block,
        e.hasher.block,
        f.hasher.block,
        g.hasher.block,
        h.hasher.block,
    ];
    compress_eight(&states, &blocks)
}
