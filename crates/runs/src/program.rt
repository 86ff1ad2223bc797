// The state of the program, and what a line does to it.
ghost use Rattle.std.specs.Prelude.{◌≡◌, [], ◌∷◌, ◌++◌, MatchResult, string_bytes};
ghost use Rattle.std.specs.Option.{option_map};
ghost use Rattle.runs.specs.Steps.{Fresh, taken, TurnEnds, Stepped, Finished, Kept, KeptInStep};

use crate::turns::{is_whole, turn};
use counter::Keeper;
use sessions::Session;
use std::alloc::{AllocError, Global};

#[derive(Drop)]
pub struct Program {
    session: Session,
    // The lines that a `look` has taken so far, itself the first; none where none waits.
    taken: Vec<Vec<u8>>,
    // The number of the first of these, or of the next line.
    number: u64,
}

impl Program {
    // With that store.
    pub fn new(heap: Global, store: Vec<u32>) -> Program
        ensures session { Fresh store.items result.session }
        ensures lines { (taken result ≡ []) × (result.number ≡ 0) }
    {
        Program {
            session: Session::new(store),
            taken: Vec::new(heap),
            number: 0,
        }
    }

    // Takes a line, and gives the text to print, if there is one; the keeper keeps what is written to the store. The lines of a `look` wait until all of them are there. Where memory fails the line is not taken.
    #[tactic(auto, unfolding(crate::specs::Steps::FailedAt))]
    pub fn step<K: Keeper>(
        &mut self,
        heap: Global,
        line: &[u8],
        keeper: &mut K,
    ) -> Result<Option<String>, AllocError>
        ensures done { MatchResult result (λ o. Stepped K.IN_MEMORY self.old line.now (option_map string_bytes o) self.new) (λ _. Kept K.IN_MEMORY (taken self.old ++ (line.now ∷ [])) self.old self.new) }
        ensures in_step { KeptInStep K.IN_MEMORY (K.state keeper.old) self.old.session.store.items (K.state keeper.new) self.new.session.store.items }
    {
        self.take(heap, Vec::from_slice(heap, line)?, keeper)
    }

    // The same with a line that is handed over, so that a long one is not held twice; where memory fails it is gone.
    #[tactic(auto, unfolding(crate::specs::Steps::FailedAt))]
    pub fn take<K: Keeper>(
        &mut self,
        heap: Global,
        line: Vec<u8>,
        keeper: &mut K,
    ) -> Result<Option<String>, AllocError>
        ensures done { MatchResult result (λ o. Stepped K.IN_MEMORY self.old line.items (option_map string_bytes o) self.new) (λ _. Kept K.IN_MEMORY (taken self.old ++ (line.items ∷ [])) self.old self.new) }
        ensures in_step { KeptInStep K.IN_MEMORY (K.state keeper.old) self.old.session.store.items (K.state keeper.new) self.new.session.store.items }
    {
        self.taken.push(line)?;
        if !is_whole(&self.taken) {
            return Ok(None);
        }
        let answer = self.end_turn(heap, keeper);
        if answer.is_err() {
            let _ = self.taken.pop();
        }
        answer
    }

    // Takes the end of the input, and gives the text to print: a `look` that waits for lines is answered without them.
    pub fn finish<K: Keeper>(
        &mut self,
        heap: Global,
        keeper: &mut K,
    ) -> Result<Option<String>, AllocError>
        ensures done { MatchResult result (λ o. Finished K.IN_MEMORY self.old (option_map string_bytes o) self.new) (λ _. Kept K.IN_MEMORY (taken self.old) self.old self.new) }
        ensures in_step { KeptInStep K.IN_MEMORY (K.state keeper.old) self.old.session.store.items (K.state keeper.new) self.new.session.store.items }
    {
        if self.taken.is_empty() {
            return Ok(None);
        }
        self.end_turn(heap, keeper)
    }

    // The lines that were taken are a turn, and no more of it is waited for.
    fn end_turn<K: Keeper>(
        &mut self,
        heap: Global,
        keeper: &mut K,
    ) -> Result<Option<String>, AllocError>
        ensures done { MatchResult result (λ o. TurnEnds K.IN_MEMORY self.old (option_map string_bytes o) self.new) (λ _. Kept K.IN_MEMORY (taken self.old) self.old self.new) }
        ensures in_step { KeptInStep K.IN_MEMORY (K.state keeper.old) self.old.session.store.items (K.state keeper.new) self.new.session.store.items }
    {
        let text = turn(&mut self.session, heap, self.number, &self.taken, keeper)?;
        self.number = self.number.saturating_add(self.taken.len() as u64);
        self.taken.clear();
        Ok(text)
    }
}
