// What is worked out eight at a time against the same one by one: secret numbers, what is shown of them, leaves, the numbers of a signature, and trees whose lowest levels are made of eight leaves.
use hash::{Number, Purpose, RowHasher};
use keys::{OneTimeKey, Refusal, Secrets, Signer, show, show_eight};
use sha256::RowSha256;
use signatures::{SignatureRoom, sign_with, verify};
use std::process::Abort;
use tree::Tree;

const KEYS: [u64; 8] = [0, 1, 7, 8, 1000, 1 << 32, 1 << 63, u64::MAX];

const PLACES: [u64; 8] = [0, 3, 255, 1, 2, 1 << 40, 9, u64::MAX];

fn secrets() -> Secrets<RowSha256> {
    Secrets::new(&Number::from(17))
}

#[test]
fn secret_numbers(rt: HostRuntime) {
    let secrets = secrets();
    let pairs = secrets.eight_pairs(&KEYS, &PLACES);
    let shown = show_eight::<RowSha256>(&pairs.set);
    for i in 0..8 {
        let key = secrets.key(KEYS[i]);
        assert!(rt; pairs.unset[i] == key.secret(PLACES[i], false));
        assert!(rt; pairs.set[i] == key.secret(PLACES[i], true));
        assert!(rt; shown[i] == show::<RowSha256>(&pairs.set[i]));
    }
}

// The leaf of a key, number by number.
fn leaf(key: &OneTimeKey<'_, RowSha256>, bits: u64) -> Number {
    let mut hasher = RowSha256::start(Purpose::Leaf);
    for bit in 0..bits {
        hasher.absorb(&key.shown(bit, false));
        hasher.absorb(&key.shown(bit, true));
    }
    hasher.finish()
}

fn compare_leaves(rt: &impl Abort, secrets: &Secrets<RowSha256>, bits: u64) {
    let leaves = secrets.leaves(&KEYS, bits);
    for i in 0..8 {
        let key = secrets.key(KEYS[i]);
        let alone = leaf(&key, bits);
        assert!(rt; leaves[i] == alone);
        assert!(rt; key.leaf(bits) == alone);
    }
}

#[test]
fn leaves(rt: HostRuntime) {
    let secrets = secrets();
    for bits in [0, 1, 7, 8, 9, 16, 23, 100] {
        compare_leaves(&rt, &secrets, bits);
    }
}

// A row whose every third bit is set.
const BITS: &'static [bool] = &[
    true, false, false, true, false, false, true, false, false, true, false, false, true, false,
    false, true, false, false, true, false, false, true, false, false,
];

// Signs a front of the row, and compares what is given for each bit.
fn compare_signed(rt: &impl Abort, levels: u64, key: u64, bits: &[bool]) -> Result<(), Refusal> {
    let seed = Number::from(17);
    let signer = Signer { levels, seed };
    let mut room = SignatureRoom::new();
    sign_with::<RowSha256>(&signer, key, bits, &mut room)?;
    let secrets = secrets();
    let own = secrets.key(key);
    let view = room.view();
    for ((i, part), other) in view.parts.iter().enumerate().zip(view.others) {
        let set = i % 3 == 0;
        assert!(rt; *part == own.secret(i as u64, set));
        assert!(rt; *other == own.shown(i as u64, !set));
    }
    let tree = Tree {
        signer,
        bits: bits.len() as u64,
    };
    let root = tree.root::<RowSha256>()?;
    assert!(rt; verify::<RowSha256>(&root, levels, bits, view));
    Ok(())
}

#[test]
fn signatures_of_any_number_of_bits(rt: HostRuntime) -> Result<(), Refusal> {
    for count in 1..=24 {
        compare_signed(&rt, 1, 1, &BITS[..count])?;
    }
    Ok(())
}

#[test]
fn trees_of_few_and_of_more_levels(rt: HostRuntime) -> Result<(), Refusal> {
    for levels in 0..6 {
        for key in 0..1_u64 << levels {
            compare_signed(&rt, levels, key, &BITS[..3])?;
        }
    }
    Ok(())
}
