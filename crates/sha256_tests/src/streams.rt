// Random messages that are cut at random places: a stream gives what the message gives at once.
use crate::random::Random;
use sha256::Sha256;
use std::alloc::Global;
use std::process::Abort;
use std::test::Fail;

// The digest of a message that is taken in by several pieces, some of them maybe empty.
fn cut_anywhere(random: &mut Random, message: &[u8], cuts: usize) -> [u8; 32] {
    let mut hasher = Sha256::new();
    let mut rest = message;
    for _ in 0..cuts {
        let (front, behind) = rest.split_at(random.below(200).min(rest.len()));
        hasher.update(front);
        rest = behind;
    }
    hasher.update(rest);
    hasher.finish()
}

fn compare_cut(
    rt: &impl Abort,
    heap: Global,
    random: &mut Random,
    number: u32,
) -> Result<(), Fail> {
    let length = random.below(700);
    let message = random.bytes(heap, length)?;
    let cuts = random.below(10);
    assert_eq!(rt;
        cut_anywhere(random, &message, cuts),
        Sha256::digest(&message),
        "message {number}, {length} bytes"
    );
    Ok(())
}

#[test]
fn a_stream_gives_what_the_message_gives(rt: HostRuntime) -> Result<(), Fail> {
    let mut random = Random { state: 2026 };
    for number in 0..2_000 {
        compare_cut(&rt, rt.alloc(), &mut random, number)?;
    }
    Ok(())
}
