// A signature that was made in a room, copied into one row of numbers and looked at there.
use counter::Done;
use hash::Number;
use keys::{Refusal, Signer};
use sha256::RowSha256;
use signatures::{SignatureRoom, SignatureView};
use signer::{look, sign};
use tree::Tree;

const LEVELS: u64 = 2;

const BITS: [bool; 3] = [true, false, true];

const LENGTH: usize = 8;

fn in_one_row(signature: SignatureView<'_>) -> [Number; LENGTH] {
    let mut flat = [Number::from(0); LENGTH];
    let front = signature.parts.iter().chain(signature.others);
    for (place, number) in flat.iter_mut().zip(front.chain(signature.path)) {
        *place = *number;
    }
    flat
}

// Whether the numbers are looked at as those of key 1, and accepted.
fn looked_at(root: &Number, flat: &[Number]) -> Option<bool> {
    let view = SignatureView::from_numbers(1, BITS.len(), flat)?;
    Some(look::<RowSha256>(root, LEVELS, &BITS, view))
}

#[test]
fn looked_at_in_one_row(rt: HostRuntime) -> Result<(), Refusal> {
    let signer = Signer {
        levels: LEVELS,
        seed: Number::from(17),
    };
    let root = Tree { signer, bits: 3 }.root::<RowSha256>()?;
    let mut room = SignatureRoom::new();
    let done = sign::<RowSha256>(&signer, &BITS, &mut [1, 10, 0, 3], 2, &mut room);
    assert!(rt; done == Done::Key(1));
    assert!(rt; look::<RowSha256>(&root, LEVELS, &BITS, room.view()));
    let flat = in_one_row(room.view());
    assert!(rt; looked_at(&root, &flat) == Some(true));
    for place in 0..LENGTH {
        let mut changed = flat;
        changed[place] = Number::from(1);
        assert!(rt; looked_at(&root, &changed) == Some(false));
        let front = looked_at(&root, &flat[..place]);
        assert!(rt; front == (place >= 6).then_some(false));
    }
    Ok(())
}
