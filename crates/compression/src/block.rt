// The next hash value, from one and a block.
ghost use Rattle.std.specs.Prelude.{◌≡◌};
ghost use Rattle.compression.specs.Fips180.{sums, compressed};

use crate::rounds::all_rounds;
use crate::schedule::message_schedule;

fn add(v: [u32; 8], state: [u32; 8]) -> [u32; 8]
    ensures { result ≡ sums v state }
{
    let [a, b, c, d, e, f, g, h] = v;
    let [i, j, k, l, m, n, o, p] = state;
    [
        a.wrapping_add(i),
        b.wrapping_add(j),
        c.wrapping_add(k),
        d.wrapping_add(l),
        e.wrapping_add(m),
        f.wrapping_add(n),
        g.wrapping_add(o),
        h.wrapping_add(p),
    ]
}

#[tactic(auto, unfolding(crate::specs::Fips180::compressed))]
pub fn compress(state: [u32; 8], block: &[u8; 64]) -> [u32; 8]
    ensures { result ≡ compressed state block.now }
{
    let mut w = [0; 64];
    message_schedule(block, &mut w);
    add(all_rounds(state, &w), state)
}
