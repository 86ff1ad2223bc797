// Messages against digests that tests/vectors.py prints, at once and in pieces.
ghost use Rattle.std.specs.Prelude.{◌<◌};

use hash::Number;
use sha256::Sha256;
use std::alloc::{AllocError, Global};
use std::process::Abort;
use std::test::Fail;

const STANDARD: &'static [(&'static [u8], &'static str)] = &[
    (
        b"",
        "e3b0c44298fc1c149afbf4c8996fb92427ae41e4649b934ca495991b7852b855",
    ),
    (
        b"abc",
        "ba7816bf8f01cfea414140de5dae2223b00361a396177a9cb410ff61f20015ad",
    ),
    (
        b"abcdbcdecdefdefgefghfghighijhijkijkljklmklmnlmnomnopnopq",
        "248d6a61d20638b8e5c026930c3e6039a33ce45964ff2167f6ecedd419db06c1",
    ),
    (
        b"abcdefghbcdefghicdefghijdefghijkefghijklfghijklmghijklmnhijklmnoijklmnopjklmnopqklmnopqrlmnopqrsmnopqrstnopqrstu",
        "cf5b16a778af8380036ce59e7b0492370b249b11e8f07a51afac45037afee9d1",
    ),
];

// Lengths at which the padding takes a block more, or a block ends, and those beside them.
const NEAR_THE_END_OF_A_BLOCK: &'static [(u32, &'static str)] = &[
    (
        55,
        "e7313d333c272e639f790978283f9eb392e843d0f29b7016828bb1daa4aac70b",
    ),
    (
        56,
        "4324d65f3c103567f5589c710bc08f8523f929a9272e3af36fc968e52abc6c27",
    ),
    (
        63,
        "81c80242132f230c3bd41b3e63bbcff16107339549214a99614ff26664625055",
    ),
    (
        64,
        "39e3d7b6b5d075d37d053ad89b24b41bef4f3c29760c84447cab3f3be1882241",
    ),
    (
        65,
        "aacca6ff74fdbb296d165a45cecfa04e5127bc008770fbbdd48006f2d2fae95e",
    ),
    (
        119,
        "9ce7368e4daf32341631b492e80359dc9f594b48453cd0dd5bf0b19279cc177e",
    ),
    (
        120,
        "7836b787757e95e58b3ca5aec90b1b004e8deba1e50e9675af9cabf1a13a04b5",
    ),
];

fn in_pieces(message: &[u8], size: usize) -> [u8; 32]
    requires { 0 < size }
{
    let mut hasher = Sha256::new();
    for piece in message.chunks(size) {
        hasher.update(piece);
    }
    hasher.finish()
}

// Compares the digest of so many bytes, so many at a time, with what is expected.
pub fn compare_printed(
    rt: &impl Abort,
    heap: Global,
    found: Number,
    digest: &str,
    length: usize,
    size: usize,
) -> Result<(), Fail> {
    let printed = format!(in heap; "{found}")?;
    assert_eq!(rt;
        printed.as_str(),
        digest,
        "{length} bytes, {size} at a time"
    );
    Ok(())
}

fn compare(rt: &impl Abort, heap: Global, message: &[u8], digest: &str) -> Result<(), Fail> {
    let length = message.len();
    let at_once = Number::from(Sha256::digest(message));
    compare_printed(rt, heap, at_once, digest, length, length)?;
    for size in [1, 7, 63, 64, 65, 1000] {
        let streamed = Number::from(in_pieces(message, size));
        compare_printed(rt, heap, streamed, digest, length, size)?;
    }
    Ok(())
}

// So many bytes, each by 7 more than the one before it.
fn stepping(heap: Global, length: u32) -> Result<Vec<u8>, AllocError> {
    let mut bytes = Vec::new(heap);
    for i in 0..length {
        bytes.push((i.wrapping_mul(7).wrapping_add(3) % 256) as u8)?;
    }
    Ok(bytes)
}

fn compare_length(rt: &impl Abort, heap: Global, length: u32, digest: &str) -> Result<(), Fail> {
    let message = stepping(heap, length)?;
    compare(rt, heap, &message, digest)
}

fn compare_million(rt: &impl Abort, heap: Global) -> Result<(), Fail> {
    let many = vec![in heap; b'a'; 1_000_000]?;
    compare(
        rt,
        heap,
        &many,
        "cdc76e5c9914fb9281a1c7e284d73e67f1809a48a497200e046d39ccc7112cd0",
    )
}

#[test]
fn digests_from_outside(rt: HostRuntime) -> Result<(), Fail> {
    let heap = rt.alloc();
    for (message, digest) in STANDARD {
        compare(&rt, heap, message, digest)?;
    }
    for (length, digest) in NEAR_THE_END_OF_A_BLOCK {
        compare_length(&rt, heap, *length, digest)?;
    }
    compare_million(&rt, heap)
}
