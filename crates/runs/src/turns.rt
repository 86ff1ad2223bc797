// A turn of the program: a line, or a `look` with the four lines behind it.
ghost use Rattle.std.specs.Prelude.{◌≡◌, ℕ, ◌<◌, [], map, length, None, IfOk, MatchResult, string_bytes, vec_items};
ghost use Rattle.std.specs.Option.{option_map};
ghost use Rattle.sessions.specs.Sessions.{Unchanged};
ghost use Rattle.runs.specs.Turns.{whole, Turn};
ghost use Rattle.runs.specs.Steps.{allowed, Turned, FailedAt, KeptInStep};

use counter::Keeper;
use keys::Refusal;
use sessions::Session;
use std::alloc::{AllocError, Global};
use texts::{Command, SignatureLines, read_command, takes_four};

// Whether lines are all that a turn takes.
pub fn is_whole(lines: &[Vec<u8>]) -> bool
    ensures { result ≡ whole (map vec_items lines.now) }
{
    match lines.split_first() {
        Some((line, behind)) => !takes_four(line) || behind.len() >= 4,
        None => false,
    }
}

// Whether a command is one at all: a store that is not in memory is not replaced.
fn is_allowed(command: &Command, in_memory: bool) -> bool
    ensures { result ≡ allowed in_memory command.now }
{
    match command {
        Command::Store(_) => in_memory,
        _ => true,
    }
}

// Does what the lines of a turn ask, the first of which has that number, and gives the text that answers it, if one does. No line asks nothing.
#[tactic(auto, unfolding(crate::specs::Steps::FailedAt))]
pub fn turn<K: Keeper>(
    session: &mut Session,
    heap: Global,
    number: u64,
    lines: &[Vec<u8>],
    keeper: &mut K,
) -> Result<Option<String>, AllocError>
    ensures nothing { IfOk result (λ o. map vec_items lines.now ≡ [] → (option_map string_bytes o ≡ None) × Unchanged session.old session.new) }
    ensures turned { MatchResult result (λ o. 0 < length lines.now → Turned K.IN_MEMORY number session.old (record { typed = map vec_items lines.now; printed = option_map string_bytes o }) session.new) (λ _. FailedAt K.IN_MEMORY (map vec_items lines.now) session.old session.new) }
    ensures in_step { KeptInStep K.IN_MEMORY (K.state keeper.old) session.old.store.items (K.state keeper.new) session.new.store.items }
{
    let Some((line, behind)) = lines.split_first() else {
        return Ok(None);
    };
    match read_command(heap, line)? {
        Some(command) if is_allowed(&command, K::IN_MEMORY) => {
            let four = SignatureLines::new(number.saturating_add(1), behind);
            session.execute(heap, command, &four, keeper)
        }
        _ => Ok(Some(format!(in heap; "{}", Refusal::Line(number))?)),
    }
}
