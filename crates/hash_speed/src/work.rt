// The work that a line asks for, nearly all of which is the hash's.
ghost use Rattle.std.specs.Prelude.{◌≡◌, ◌+◌, ◌*◌, ◌%◌, ℕ, ◌<◌, slice_index};
ghost use Rattle.compression.specs.Fips180.{sha256};
ghost use Rattle.hash_speed.specs.Work.{after_blocks, cycled};

use compression::{compress, initial};
use sha256::Sha256;

// What is hashed.
pub fn pattern<const N: usize>() -> [u8; N]
    ensures { (i : ℕ) → i < N → slice_index result i ≡ (i * 7 + 3) % 256 }
{
    let mut bytes = [0; N];
    for i in 0..N {
        bytes[i] = ((i % 256 * 7 + 3) % 256) as u8;
    }
    bytes
}

// The hash value after compressing one block so often.
pub fn compress_again(block: &[u8; 64], count: u64) -> [u32; 8]
    ensures { result ≡ after_blocks count block.now }
{
    let mut state = initial();
    for _ in 0..count {
        let next = compress(state, block);
        state = next;
    }
    state
}

// The digest of so many bytes, of a buffer that is taken again and again.
pub fn digest_of_bytes(buffer: &[u8; 4096], count: u64) -> [u8; 32]
    ensures { result ≡ sha256 (cycled count buffer.now) }
{
    let mut hasher = Sha256::new();
    for _ in 0..count / 4096 {
        hasher.update(buffer);
    }
    hasher.update(&buffer[..(count % 4096) as usize]);
    hasher.finish()
}
