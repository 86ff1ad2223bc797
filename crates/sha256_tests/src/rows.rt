// Rows of numbers against the digests of their bytes, and two against digests that Python's hashlib gives.
use crate::messages::compare_printed;
use crate::random::Random;
use hash::{Number, Purpose, RowHasher};
use sha256::{RowSha256, Sha256};
use std::alloc::{AllocError, Global};
use std::process::Abort;
use std::test::Fail;

pub const PURPOSES: &'static [(Purpose, u8)] = &[
    (Purpose::Secret, 0),
    (Purpose::Shown, 1),
    (Purpose::Leaf, 2),
    (Purpose::Node, 3),
    (Purpose::Text, 4),
];

// The hash of a row that is taken in number by number.
fn absorbed(purpose: Purpose, numbers: &[Number]) -> Number {
    let mut hasher = RowSha256::start(purpose);
    for x in numbers {
        hasher.absorb(x);
    }
    hasher.finish()
}

fn compare(rt: &impl Abort, purpose: Purpose, numbers: &[Number], bytes: &[u8]) {
    let expected = Number::from(Sha256::digest(bytes));
    for found in [
        RowSha256::hash(purpose, numbers),
        absorbed(purpose, numbers),
    ] {
        assert_eq!(rt; found, expected, "{purpose:?} {numbers:?}");
    }
}

#[test]
fn rows_written_out(rt: HostRuntime) {
    // 2^256 - 1, and the number whose bytes are 1 to 32
    let largest = Number::from([0xff; 32]);
    let ascending = Number::from([
        1, 2, 3, 4, 5, 6, 7, 8, 9, 10, 11, 12, 13, 14, 15, 16, 17, 18, 19, 20, 21, 22, 23, 24, 25,
        26, 27, 28, 29, 30, 31, 32,
    ]);
    compare(&rt, Purpose::Secret, &[], &[0; 32]);
    compare(
        &rt,
        Purpose::Leaf,
        &[ascending],
        &[
            0, 0, 0, 0, 0, 0, 0, 0, 0, 0, 0, 0, 0, 0, 0, 0, 0, 0, 0, 0, 0, 0, 0, 0, 0, 0, 0, 0, 0,
            0, 0, 2, 1, 2, 3, 4, 5, 6, 7, 8, 9, 10, 11, 12, 13, 14, 15, 16, 17, 18, 19, 20, 21, 22,
            23, 24, 25, 26, 27, 28, 29, 30, 31, 32,
        ],
    );
    compare(
        &rt,
        Purpose::Node,
        &[Number::from(258), largest],
        &[
            0, 0, 0, 0, 0, 0, 0, 0, 0, 0, 0, 0, 0, 0, 0, 0, 0, 0, 0, 0, 0, 0, 0, 0, 0, 0, 0, 0, 0,
            0, 0, 3, 0, 0, 0, 0, 0, 0, 0, 0, 0, 0, 0, 0, 0, 0, 0, 0, 0, 0, 0, 0, 0, 0, 0, 0, 0, 0,
            0, 0, 0, 0, 1, 2, 255, 255, 255, 255, 255, 255, 255, 255, 255, 255, 255, 255, 255, 255,
            255, 255, 255, 255, 255, 255, 255, 255, 255, 255, 255, 255, 255, 255, 255, 255, 255,
            255,
        ],
    );
}

#[test]
fn digests_from_outside(rt: HostRuntime) -> Result<(), Fail> {
    let heap = rt.alloc();
    let largest = Number::from([0xff; 32]);
    compare_printed(
        &rt,
        heap,
        RowSha256::hash(Purpose::Shown, &[largest]),
        "4ab9077c34a6903bc59693414a4fe8ccf275d93f2daacd849574933737c27757",
        64,
        64,
    )?;
    let abc = [Number::from(97), Number::from(98), Number::from(99)];
    compare_printed(
        &rt,
        heap,
        RowSha256::hash(Purpose::Text, &abc),
        "8017f1dfd4e7bb9e5040bdd53e3c22db21d98e5fd43c7e9523e06232092ff7b5",
        128,
        128,
    )
}

// The bytes of a row: the tag's thirty-two, and those of the numbers.
fn bytes_of_row(heap: Global, tag: u8, numbers: &[u8]) -> Result<Vec<u8>, Fail> {
    let mut bytes = vec![in heap; 0; 31]?;
    bytes.push(tag)?;
    bytes.extend_from_slice(numbers)?;
    Ok(bytes)
}

// The numbers of which these are the bytes.
fn numbers_of(heap: Global, bytes: &[u8]) -> Result<Vec<Number>, AllocError> {
    let mut numbers = Vec::new(heap);
    for chunk in bytes.as_chunks::<32>().0 {
        numbers.push(Number::from(*chunk))?;
    }
    Ok(numbers)
}

fn compare_random(
    rt: &impl Abort,
    heap: Global,
    random: &mut Random,
    purpose: Purpose,
    tag: u8,
) -> Result<(), Fail> {
    let count = random.below(12);
    let bytes = random.bytes(heap, 32 * count)?;
    let numbers = numbers_of(heap, &bytes)?;
    compare(rt, purpose, &numbers, &bytes_of_row(heap, tag, &bytes)?);
    Ok(())
}

#[test]
fn random_rows(rt: HostRuntime) -> Result<(), Fail> {
    let mut random = Random { state: 17 };
    for _ in 0..200 {
        for (purpose, tag) in PURPOSES {
            compare_random(&rt, rt.alloc(), &mut random, *purpose, *tag)?;
        }
    }
    Ok(())
}
