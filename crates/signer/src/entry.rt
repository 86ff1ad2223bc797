// The entry that signs, which reserves the key itself, and the entry that looks.
ghost use Rattle.std.specs.Prelude.{◌≡◌, ℕ, true, false, ⊤, ◌⊎◌, length};
ghost use Rattle.hash.specs.Value.{value_of};
ghost use Rattle.keys.specs.Refusals.{Unless};
ghost use Rattle.tree.specs.Tree.{node};
ghost use Rattle.signatures.specs.Rows.{LocatedCollision};
ghost use Rattle.signatures.specs.Signatures.{accepted};
ghost use Rattle.signatures.specs.Views.{viewed};
ghost use Rattle.counter.specs.Reserving.{ForPower, Asked, Counts, InStep, Acknowledged};
ghost use Rattle.signer.specs.Answers.{refusal, answer, stored, RoomSays, GivenAccepted};
ghost use Rattle.signer.specs.Promises.{Own};

use counter::{Cells, Done, InMemory, Keeper, LentCells, refuse_store, reserve_in};
use hash::{Number, RowHasher};
use keys::{Refusal, Signer};
use signatures::{SignatureRoom, SignatureView, sign_with, verify};

// The first refusal that applies to signing so many bits, if one does.
pub fn refuse(levels: u64, store: &[u32], bits: u64) -> Result<(), Refusal>
    ensures { Unless (refusal levels store.now bits) result (λ _. ⊤) }
{
    refuse_store(levels, store)?;
    Signer::refuse_bits(bits)
}

// Signs a row of bits with the next key of the store in the cells, in the room. The key is reserved here, and nothing of the signature is made before both numbers of its slot are written: where power fails the room is as it was.
#[tactic(auto, using(counter::proofs::Powered::refused_asked))]
pub fn sign_in<H: RowHasher, C: Cells>(
    signer: &Signer,
    bits: &[bool],
    cells: &mut C,
    room: &mut SignatureRoom,
) -> Done
    ensures asked { ForPower C.sure (C.lasts cells.old) (Asked (refusal signer.now.levels (C.held cells.old) (length bits.now)) signer.now.levels (C.held cells.old) result (C.writes cells.old) (C.writes cells.new) (C.held cells.new)) }
    ensures counts { Counts (C.held cells.old) result (C.held cells.new) }
    ensures room { RoomSays H.mix (value_of signer.now.seed) signer.now.levels bits.now result room.old room.new }
    ensures accepted { GivenAccepted H.mix (value_of signer.now.seed) signer.now.levels bits.now result room.new }
    ensures in_step { InStep (C.disk cells.old) (C.held cells.old) → InStep (C.disk cells.new) (C.held cells.new) }
    ensures acknowledged { Acknowledged result (C.disk cells.old) (C.disk cells.new) }
    ensures loans { C.loans cells.new ≡ C.loans cells.old }
{
    // No `?`, since here a refusal is one of the answers.
    if let Err(refusal) = refuse(signer.levels, cells.numbers(), bits.len() as u64) {
        return Done::Refused(refusal);
    }
    let done = reserve_in(signer.levels, cells);
    let Done::Key(key) = done else {
        return done;
    };
    let made = sign_with::<H>(signer, key, bits, room);
    match made {
        Ok(()) => done,
        // What would be refused here was refused above.
        Err(refusal) => Done::Refused(refusal),
    }
}

// The same with the store in a lent slice, whose writes a keeper keeps, and power for so many of them.
pub fn sign_kept<H: RowHasher, K: Keeper>(
    signer: &Signer,
    bits: &[bool],
    store: &mut [u32],
    lasts: u64,
    keeper: &mut K,
    room: &mut SignatureRoom,
) -> Done
    ensures done { ForPower K.sure lasts (λ w. (result ≡ answer signer.now.levels store.old (length bits.now) w) × (store.new ≡ stored signer.now.levels store.old (length bits.now) w)) }
    ensures counts { Counts store.old result store.new }
    ensures room { RoomSays H.mix (value_of signer.now.seed) signer.now.levels bits.now result room.old room.new }
    ensures accepted { GivenAccepted H.mix (value_of signer.now.seed) signer.now.levels bits.now result room.new }
    ensures in_step { K.IN_MEMORY ≡ false → InStep (K.state keeper.old) store.old → InStep (K.state keeper.new) store.new }
{
    let mut cells = LentCells::new(store, lasts, keeper);
    sign_in::<H, LentCells<'_, K>>(signer, bits, &mut cells, room)
}

// The same with the store in memory alone.
pub fn sign<H: RowHasher>(
    signer: &Signer,
    bits: &[bool],
    store: &mut [u32],
    lasts: u64,
    room: &mut SignatureRoom,
) -> Done
    ensures answer { result ≡ answer signer.now.levels store.old (length bits.now) lasts }
    ensures store { store.new ≡ stored signer.now.levels store.old (length bits.now) lasts }
    ensures counts { Counts store.old result store.new }
    ensures room { RoomSays H.mix (value_of signer.now.seed) signer.now.levels bits.now result room.old room.new }
    ensures accepted { GivenAccepted H.mix (value_of signer.now.seed) signer.now.levels bits.now result room.new }
{
    sign_kept::<H, InMemory>(signer, bits, store, lasts, &mut InMemory, room)
}

// Whether a signature is accepted, for a row of bits and a root of so many levels. If it is, then of every signer whose root this is it is that signer's own, or two rows are shown that hash to the same.
#[tactic(auto, using(signatures::proofs::Forgeries::own_or_located_lem))]
pub fn look<H: RowHasher>(
    root: &Number,
    levels: u64,
    bits: &[bool],
    signature: SignatureView<'_>,
) -> bool
    ensures answer { result ≡ accepted H.mix (value_of root.now) levels bits.now (viewed signature.entry) }
    ensures own { (s l n : ℕ) → result ≡ true → value_of root.now ≡ node H.mix n s l 0 → Own H.mix s l n levels bits.now (viewed signature.entry) ⊎ LocatedCollision H.mix n s l bits.now (viewed signature.entry) }
{
    verify::<H>(root, levels, bits, signature)
}
