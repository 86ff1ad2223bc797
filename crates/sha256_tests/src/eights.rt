// Eight rows side by side against the same rows one by one: eight different rows of each kind, of each length that a row begins with, in step and out of step; and the block function of eight blocks against that of one.
use crate::random::Random;
use crate::rows::PURPOSES;
use compression::{compress, initial};
use hash::{Number, Purpose, RowHasher};
use lanes::compress_eight;
use sha256::RowSha256;
use std::process::Abort;

fn number(random: &mut Random) -> Number {
    let mut bytes = [0; 32];
    for byte in &mut bytes {
        *byte = random.below(256) as u8;
    }
    Number::from(bytes)
}

fn eight_numbers(random: &mut Random) -> [Number; 8] {
    let mut numbers = [Number::from(0); 8];
    for i in 0..8 {
        numbers[i] = number(random);
    }
    numbers
}

// Hashers that have taken in rows of their own, each one number more than the one before it where they are out of step.
fn hashers(purpose: Purpose, out_of_step: bool) -> [RowSha256; 8] {
    let mut hashers = [RowSha256::start(purpose); 8];
    for i in 0..8 {
        for j in 0..if out_of_step { i } else { 0 } {
            hashers[i].absorb(&Number::from(j as u64));
        }
    }
    hashers
}

fn absorb_one_by_one(hashers: &mut [RowSha256; 8], numbers: &[Number; 8]) {
    for i in 0..8 {
        hashers[i].absorb(&numbers[i]);
    }
}

fn compare(rt: &impl Abort, eight: &[RowSha256; 8], alone: &[RowSha256; 8]) {
    let found = RowSha256::finish_eight(eight);
    for (number, hasher) in found.iter().zip(alone) {
        assert!(rt; *number == hasher.finish());
    }
}

fn compare_rows(rt: &impl Abort, random: &mut Random, purpose: Purpose, out_of_step: bool) {
    let mut eight = hashers(purpose, out_of_step);
    let mut alone = eight;
    for _ in 0..12 {
        compare(rt, &eight, &alone);
        let numbers = eight_numbers(random);
        RowSha256::absorb_eight(&mut eight, &numbers);
        absorb_one_by_one(&mut alone, &numbers);
    }
}

#[test]
fn eight_rows(rt: HostRuntime) {
    let mut random = Random { state: 8 };
    for (purpose, _) in PURPOSES {
        for _ in 0..10 {
            compare_rows(&rt, &mut random, *purpose, false);
            compare_rows(&rt, &mut random, *purpose, true);
        }
    }
}

fn block(random: &mut Random) -> [u8; 64] {
    let mut bytes = [0; 64];
    for byte in &mut bytes {
        *byte = random.below(256) as u8;
    }
    bytes
}

fn state(random: &mut Random) -> [u32; 8] {
    let block = block(random);
    compress(initial(), &block)
}

// Blocks that are all the same, or all but one, or all different.
fn eight_blocks(random: &mut Random, same: usize) -> [[u8; 64]; 8] {
    let mut blocks = [block(random); 8];
    for i in 0..8 {
        if i >= same {
            blocks[i] = block(random);
        }
    }
    blocks
}

fn compare_blocks(rt: &impl Abort, random: &mut Random, same: usize) {
    let mut states = [initial(); 8];
    for i in 0..8 {
        states[i] = state(random);
    }
    let blocks = eight_blocks(random, same);
    let found = compress_eight(&states, &blocks);
    for i in 0..8 {
        assert!(rt; found[i] == compress(states[i], &blocks[i]));
    }
}

#[test]
fn eight_blocks_at_once(rt: HostRuntime) {
    let mut random = Random { state: 88 };
    for _ in 0..50 {
        for same in 0..9 {
            compare_blocks(&rt, &mut random, same);
        }
    }
}
