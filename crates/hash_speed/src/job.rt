// What a line asks for.
ghost use Rattle.std.specs.Prelude.{ℕ, MatchOption};
ghost use Rattle.hash_speed.specs.declared.job.Job.{Job};
ghost use Rattle.hash_speed.specs.Jobs.{AsksFor, Counted};

#[derive(Clone, Copy)]
pub enum Job {
    // How often one block is compressed.
    Blocks(u64),
    // How many bytes are hashed.
    Bytes(u64),
    // How often a signature is looked at.
    Looks(u64),
}

// The count behind a word, if the line is that.
fn count_behind(word: &str, line: &str) -> Option<u64>
    ensures { MatchOption result ((n : ℕ) → Counted word.now n line.now → ⊥) (λ n. Counted word.now n line.now) }
{
    line.strip_prefix(word)?.parse().ok()
}

// The job that a line asks for, if it asks for one.
#[tactic(auto, using(crate::proofs::Jobs::neither))]
pub fn read_job(line: &str) -> Option<Job>
    ensures { MatchOption result ((job : Job) → AsksFor line.now job → ⊥) (AsksFor line.now) }
{
    if let Some(count) = count_behind("blocks ", line) {
        return Some(Job::Blocks(count));
    }
    match count_behind("bytes ", line) {
        Some(count) => Some(Job::Bytes(count)),
        None => count_behind("looks ", line).map(Job::Looks),
    }
}
