// What is printed for each answer.
ghost use Rattle.std.specs.Prelude.{◌≡◌, [], Some, IfOk, codes, string_bytes};
ghost use Rattle.signatures.specs.Views.{held};
ghost use Rattle.sessions.specs.Replies.{root_spelled, sign_spelled, look_spelled, counts_line};

use counter::Done;
use hash::Number;
use keys::Refusal;
use signatures::SignatureRoom;
use std::alloc::{AllocError, Global};
use std::fmt;

pub fn root_text(heap: Global, root: Result<Number, Refusal>) -> Result<String, AllocError>
    ensures { IfOk result (λ s. string_bytes s ≡ root_spelled root) }
{
    match root {
        Ok(number) => format!(in heap; "{number}"),
        Err(refusal) => format!(in heap; "{refusal}"),
    }
}

pub fn sign_text(heap: Global, done: Done, room: &SignatureRoom) -> Result<String, AllocError>
    ensures { IfOk result (λ s. string_bytes s ≡ sign_spelled done (held room.now)) }
{
    match done {
        Done::Key(_) => format!(in heap; "{}", room.view()),
        Done::Cut => String::from_str(heap, "cut"),
        Done::Empty => String::from_str(heap, "all given"),
        Done::Refused(refusal) => format!(in heap; "{refusal}"),
    }
}

// One of two words, with nothing to put together, so no `Display`.
pub fn look_text(accepted: bool) -> &'static str
    ensures { result.now ≡ look_spelled accepted }
{
    if accepted { "accepted" } else { "no" }
}

// Numbers in decimal, each after one space.
#[derive(Clone, Copy)]
struct SpacedCounts<'a>(&'a [u32]);

impl fmt::Display for SpacedCounts<'_> {
    ghost output = { λ s. Some (counts_line [] s.0.now) };

    fn fmt<W: fmt::Write>(&self, f: &mut fmt::Formatter<W>) -> fmt::Result {
        for count in self.0 {
            write!(f, " {count}")?;
        }
        Ok(())
    }
}

// A store, as the line that would make it.
pub fn state_text(heap: Global, numbers: &[u32]) -> Result<String, AllocError>
    ensures { IfOk result (λ s. string_bytes s ≡ counts_line (codes "store") numbers.now) }
{
    format!(in heap; "store{}", SpacedCounts(numbers))
}

// The numbers of a slot.
pub fn slot_text(heap: Global, numbers: &[u32]) -> Result<String, AllocError>
    ensures { IfOk result (λ s. string_bytes s ≡ counts_line (codes "slot") numbers.now) }
{
    format!(in heap; "slot{}", SpacedCounts(numbers))
}
