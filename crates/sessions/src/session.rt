// What the lines of the program ask, on values: the store, which a keeper may keep beyond the process, the signer and its bits, for how many writes power lasts, and what is signed and looked at with them.
ghost use Rattle.std.specs.Prelude.{◌≡◌, ℕ, true, false, ◌⊎◌, None, IfOk, length, string_bytes, Result, MatchResult};
ghost use Rattle.hash.specs.Value.{value_of};
ghost use Rattle.sha256.specs.Rows.{row_hash};
ghost use Rattle.keys.specs.Refusals.{tree_refusal, Unless};
ghost use Rattle.keys.specs.declared.refusal.Refusal.{Refusal};
ghost use Rattle.tree.specs.Tree.{node};
ghost use Rattle.signatures.specs.Rows.{LocatedCollision};
ghost use Rattle.signatures.specs.Signatures.{blank, accepted};
ghost use Rattle.signatures.specs.Views.{viewed, held};
ghost use Rattle.counter.specs.Reserving.{Counts, ForPower, InStep};
ghost use Rattle.signer.specs.Answers.{answer, stored, RoomSays, GivenAccepted};
ghost use Rattle.signer.specs.Promises.{Own};
ghost use Rattle.texts.specs.SignatureLines.{SignatureRead};
ghost use Rattle.texts.specs.declared.signature.ReadSignature.{ReadSignature};
ghost use Rattle.sessions.specs.Sessions.{bits_asked, power_of, look_answer, FewerWrites, Executed, Failed, Counted, StaysInStep, Answered, Promised, PromisedStrings};

use crate::reply::{look_text, root_text, sign_text, slot_text, state_text};
use counter::{Done, Keeper, slot};
use hash::{Number, RowHasher};
use keys::{Refusal, Signer};
use sha256::RowSha256;
use signatures::{SignatureRoom, SignatureView};
use signer::{look, refuse, sign_kept};
use std::alloc::{AllocError, Global};
use texts::{Command, ReadError, SignatureLines, text_bits};
use tree::Tree;

// What the next lines are asked with.
#[derive(Drop)]
pub struct Session {
    tree: Tree,
    store: Vec<u32>,
    // For how many writes power lasts at the next `sign`; `None`: it lasts.
    power: Option<u64>,
    room: SignatureRoom,
}

impl Session {
    // With that store; no levels, no bits, and the seed 0; power lasts.
    pub fn new(store: Vec<u32>) -> Session
        ensures store { result.store.items ≡ store.items }
        ensures signer { (result.tree.signer.levels ≡ 0) × (result.tree.bits ≡ 0) × (value_of result.tree.signer.seed ≡ 0) }
        ensures power { result.power ≡ None }
        ensures room { held result.room ≡ blank }
    {
        Session {
            tree: Tree {
                signer: Signer {
                    levels: 0,
                    seed: Number::from(0),
                },
                bits: 0,
            },
            store,
            power: None,
            room: SignatureRoom::new(),
        }
    }

    // The root of the signer's tree.
    pub fn root<H: RowHasher>(&self) -> Result<Number, Refusal>
        ensures { Unless (tree_refusal self.now.tree.signer.levels self.now.tree.bits) result (λ v. value_of v ≡ node H.mix self.now.tree.bits (value_of self.now.tree.signer.seed) self.now.tree.signer.levels 0) }
    {
        self.tree.root::<H>()
    }

    // Signs a text, with power for as many writes as was said, or for fewer where what keeps the store may fail; afterwards power lasts, whatever is answered. Where memory fails nothing is changed.
    pub fn sign<H: RowHasher, K: Keeper>(
        &mut self,
        heap: Global,
        text: &[u8],
        keeper: &mut K,
    ) -> Result<Done, AllocError>
        ensures done { MatchResult result (λ d. ForPower K.IN_MEMORY (power_of self.old.power) (λ w. (d ≡ answer self.old.tree.signer.levels self.old.store.items self.old.tree.bits w) × (self.new.store.items ≡ stored self.old.tree.signer.levels self.old.store.items self.old.tree.bits w))) (λ _. self.new.store.items ≡ self.old.store.items) }
        ensures counts { IfOk result (λ d. Counts self.old.store.items d self.new.store.items) }
        ensures room { MatchResult result (λ d. RoomSays H.mix (value_of self.old.tree.signer.seed) self.old.tree.signer.levels (bits_asked H.mix self.old text.now) d self.old.room self.new.room) (λ _. self.new.room ≡ self.old.room) }
        ensures accepted { IfOk result (λ d. GivenAccepted H.mix (value_of self.old.tree.signer.seed) self.old.tree.signer.levels (bits_asked H.mix self.old text.now) d self.new.room) }
        ensures power { MatchResult result (λ _. self.new.power ≡ None) (λ _. self.new.power ≡ self.old.power) }
        ensures in_step { K.IN_MEMORY ≡ false → InStep (K.state keeper.old) self.old.store.items → InStep (K.state keeper.new) self.new.store.items }
        ensures same { self.new.tree ≡ self.old.tree }
    {
        // No `?`, since here a refusal is one of the answers.
        if let Err(refusal) = refuse(self.tree.signer.levels, &self.store, self.tree.bits) {
            self.power = None;
            return Ok(Done::Refused(refusal));
        }
        let bits = text_bits::<H>(heap, text, self.tree.bits)?;
        let lasts = self.power.unwrap_or(u64::MAX);
        self.power = None;
        let signer = &self.tree.signer;
        Ok(sign_kept::<H, K>(
            signer,
            &bits,
            &mut self.store,
            lasts,
            keeper,
            &mut self.room,
        ))
    }

    // Looks at a signature of a text. If it is accepted, then of every signer whose root this is it is that signer's own, or two rows are shown that hash to the same.
    pub fn look<H: RowHasher>(
        &self,
        heap: Global,
        root: &Number,
        text: &[u8],
        signature: SignatureView<'_>,
    ) -> Result<bool, AllocError>
        ensures answer { IfOk result (λ b. b ≡ accepted H.mix (value_of root.now) self.now.tree.signer.levels (bits_asked H.mix self.now text.now) (viewed signature.entry)) }
        ensures own { IfOk result (λ b. (s l n : ℕ) → b ≡ true → value_of root.now ≡ node H.mix n s l 0 → Own H.mix s l n self.now.tree.signer.levels (bits_asked H.mix self.now text.now) (viewed signature.entry) ⊎ LocatedCollision H.mix n s l (bits_asked H.mix self.now text.now) (viewed signature.entry)) }
    {
        let bits = text_bits::<H>(heap, text, self.tree.bits)?;
        Ok(look::<H>(root, self.tree.signer.levels, &bits, signature))
    }

    // The text that answers a `look`, from the four lines behind it.
    fn look_at<H: RowHasher>(
        &self,
        heap: Global,
        root: &Number,
        text: &[u8],
        lines: &SignatureLines<'_>,
    ) -> Result<String, AllocError>
        ensures { IfOk result (λ s. (g : Result ReadSignature Refusal) × SignatureRead lines.now g × (string_bytes s ≡ look_answer H.mix self.now (value_of root.now) text.now g)) }
    {
        match lines.read(heap) {
            Ok(signature) => {
                let accepted = self.look::<H>(heap, root, text, signature.view())?;
                String::from_str(heap, look_text(accepted))
            }
            Err(ReadError::Refused(refusal)) => format!(in heap; "{refusal}"),
            Err(ReadError::Memory(error)) => Err(error),
        }
    }

    // Does what a command asks, and gives the text that answers it, if one does. The lines are those behind the command, which only a `look` takes; the keeper keeps what a `sign` writes. The hash is SHA-256.
    pub fn execute<K: Keeper>(
        &mut self,
        heap: Global,
        command: Command,
        lines: &SignatureLines<'_>,
        keeper: &mut K,
    ) -> Result<Option<String>, AllocError>
        ensures done { (r : Session) × FewerWrites K.IN_MEMORY command self.old r × MatchResult result (λ o. Executed r command self.new × Answered row_hash r command lines.now o × PromisedStrings r command lines.now o) (λ _. Failed self.old r command self.new) }
        ensures counts { Counted self.old command self.new }
        ensures in_step { StaysInStep K.IN_MEMORY command (K.state keeper.old) self.old (K.state keeper.new) self.new }
    {
        self.execute_with::<RowSha256, K>(heap, command, lines, keeper)
    }

    // The same with any hash.
    pub fn execute_with<H: RowHasher, K: Keeper>(
        &mut self,
        heap: Global,
        command: Command,
        lines: &SignatureLines<'_>,
        keeper: &mut K,
    ) -> Result<Option<String>, AllocError>
        ensures done { (r : Session) × FewerWrites K.IN_MEMORY command self.old r × MatchResult result (λ o. Executed r command self.new × Answered H.mix r command lines.now o × Promised H.mix r command lines.now o) (λ _. Failed self.old r command self.new) }
        ensures counts { Counted self.old command self.new }
        ensures in_step { StaysInStep K.IN_MEMORY command (K.state keeper.old) self.old (K.state keeper.new) self.new }
    {
        match command {
            Command::Store(store) => {
                self.store = store;
                Ok(None)
            }
            Command::Levels(tree) => {
                self.tree = tree;
                Ok(None)
            }
            Command::Root => Ok(Some(root_text(heap, self.root::<H>())?)),
            Command::Sign(text) => {
                let done = self.sign::<H, K>(heap, &text, keeper)?;
                Ok(Some(sign_text(heap, done, &self.room)?))
            }
            Command::Look(root, text) => { Ok(Some(self.look_at::<H>(heap, &root, &text, lines)?)) }
            Command::Power(writes) => {
                self.power = Some(writes);
                Ok(None)
            }
            Command::Slot => Ok(Some(slot_text(heap, slot(&self.store))?)),
            Command::State => Ok(Some(state_text(heap, &self.store)?)),
        }
    }
}
