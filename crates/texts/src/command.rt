// The lines that ask for something.
ghost use Rattle.std.specs.Prelude.{◌≡◌, ℕ, ◌^◌, ◌<◌, true, List, ◌++◌, IfOk, IsErr, IfSome, IsSomeAnd, codes, MatchOption, slice_index};
ghost use Rattle.hash.specs.declared.number.Number.{Number};
ghost use Rattle.tree.specs.declared.own.Tree.{Tree};
ghost use Rattle.texts.specs.Commands.{DecimalBefore, LevelsSpelled, Spelled, takes_four, AsksMemory, IsStoreOf, PlainStore};
ghost use Rattle.reading.specs.Reading.{Reads};
ghost use Rattle.reading.specs.Spaced.{counts_line};
ghost use Rattle.hash.specs.Members.{In};
ghost use Rattle.hash.specs.Hex.{hex};

use hash::Number;
use keys::Signer;
use reading::{after, read_decimal, read_hex, read_words, word_end};
use std::alloc::{AllocError, Global};
use tree::Tree;

#[derive(Drop)]
pub enum Command {
    Store(Vec<u32>),
    Levels(Tree),
    Root,
    Sign(Vec<u8>),
    Look(Number, Vec<u8>),
    // For how many writes power lasts at the next `sign`.
    Power(u64),
    Slot,
    State,
}

// Whether a line's first word is `look`, so that the next four lines belong to it, whatever it and they hold.
#[tactic(auto, using(crate::proofs::Looks::look_takes_four))]
pub fn takes_four(line: &[u8]) -> bool
    ensures takes { result ≡ takes_four line.now }
    ensures look { (r : Number) (t : List ℕ) → line.now ≡ codes "look " ++ (hex r.bytes ++ (codes " " ++ t)) → result ≡ true }
{
    line == b"look".as_slice() || line.starts_with(b"look ")
}

// A decimal before a word that begins with a space, and what follows that word. No `Reads`, since it is two values.
fn decimal_before<'a>(text: &'a [u8], word: &[u8]) -> Option<(u64, &'a [u8])>
    requires { slice_index word.now 0 ≡ 32 }
    ensures { MatchOption result ((v : ℕ) (rest : List ℕ) → DecimalBefore text.now word.now v rest → ⊥) (λ p. DecimalBefore text.now word.now p.0 p.1.now) }
{
    let (digits, rest) = text.split_at(word_end(text));
    Some((read_decimal(digits)?, after(rest, word)?))
}

// What follows the word `levels` and a space: the tree that the next lines are asked with.
fn read_levels(text: &[u8]) -> Option<Tree>
    ensures { Reads (LevelsSpelled text.now) result }
{
    let (levels, text) = decimal_before(text, b" bits ")?;
    let (bits, text) = decimal_before(text, b" seed ")?;
    let seed = read_decimal(text)?;
    let signer = Signer { levels, seed };
    Some(Tree { signer, bits })
}

// What follows the word `look` and a space: a root in sixteens, a space and a text. No `Reads`, since what it is and what it is not are said of different values.
fn read_look(heap: Global, text: &[u8]) -> Result<Option<Command>, AllocError>
    ensures read { IfOk result (λ o. MatchOption o ((n : Number) (t : List ℕ) → text.now ≡ hex n.bytes ++ (codes " " ++ t) → ⊥) (λ c. ((cs : List ℕ) → cs ≡ codes "look " ++ text.now → Spelled cs c))) }
    ensures asked { IsErr result → (n : Number) × (t : List ℕ) × (text.now ≡ hex n.bytes ++ (codes " " ++ t)) }
{
    let (word, rest) = text.split_at(word_end(text));
    let (Some(root), Some(text)) = (read_hex(word), after(rest, b" ")) else {
        return Ok(None);
    };
    Ok(Some(Command::Look(root, Vec::from_slice(heap, text)?)))
}

// The command that a line is, if it is one. A store that is printed is read back, and what is read is printed as it was but for zeros in front. Memory is asked for only for the text of a `sign` or a `look` and the numbers of a `store`, so no other line can fail.
pub fn read_command(heap: Global, line: &[u8]) -> Result<Option<Command>, AllocError>
    ensures read { IfOk result (Reads (Spelled line.now)) }
    ensures asked { IsErr result → AsksMemory line.now }
    ensures back { (vs : List ℕ) → ((v : ℕ) → In v vs → v < 2 ^ 32) → line.now ≡ counts_line (codes "store") vs → IfOk result (λ o. IsSomeAnd o (IsStoreOf vs)) }
    ensures again { IfOk result (λ o. IfSome o (λ c. (vs : List ℕ) → IsStoreOf vs c → PlainStore line.now → line.now ≡ counts_line (codes "store") vs)) }
{
    if let Some(text) = after(line, b"sign ") {
        return Ok(Some(Command::Sign(Vec::from_slice(heap, text)?)));
    }
    if let Some(text) = after(line, b"look ") {
        return read_look(heap, text);
    }
    if let Some(text) = after(line, b"levels ") {
        return Ok(read_levels(text).map(Command::Levels));
    }
    if let Some(text) = after(line, b"store") {
        return Ok(read_words(heap, text)?.map(Command::Store));
    }
    if let Some(digits) = after(line, b"power ") {
        return Ok(read_decimal(digits).map(Command::Power));
    }
    if line == b"slot".as_slice() {
        return Ok(Some(Command::Slot));
    }
    if line == b"state".as_slice() {
        return Ok(Some(Command::State));
    }
    Ok((line == b"root".as_slice()).then_some(Command::Root))
}
