// The four lines of a signature.
ghost use Rattle.std.specs.Prelude.{◌≡◌, map, Ok, Err, vec_items, IfOk, IsErrOf, MatchResult, ◌≢◌};
ghost use Rattle.keys.specs.declared.refusal.Refusal.{Refusal};
ghost use Rattle.keys.specs.declared.refusal.Refusal.TheVariants.{Line};
ghost use Rattle.signatures.specs.Lines.{signature_text};
ghost use Rattle.signatures.specs.Signatures.{Signature};
ghost use Rattle.signatures.specs.Views.{viewed};
ghost use Rattle.reading.specs.Reading.{Reads};
ghost use Rattle.texts.specs.SignatureLines.{line_at, line_after, signature_of, KeySpelled, LinesAre, SignatureRead, Readable, HasNumbers, Fits, FourLines, KeyPlain};
ghost use Rattle.texts.specs.declared.signature.ReadError.TheVariants.{Refused, Memory};

use hash::Number;
use keys::Refusal;
use reading::{after, read_decimal, read_numbers};
use signatures::SignatureView;
use std::alloc::{AllocError, Global};

// A signature that was read.
#[derive(Drop)]
pub struct ReadSignature {
    pub key: u64,
    pub parts: Vec<Number>,
    pub others: Vec<Number>,
    pub path: Vec<Number>,
}

impl ReadSignature {
    pub fn view<'a>(&'a self) -> SignatureView<'a>
        ensures { viewed result ≡ signature_of self.now }
    {
        SignatureView {
            key: self.key,
            parts: &self.parts,
            others: &self.others,
            path: &self.path,
        }
    }
}

// The key of a signature's first line, if it is one.
pub fn read_key(line: &[u8]) -> Option<u64>
    ensures { Reads (KeySpelled line.now) result }
{
    read_decimal(after(line, b"key ")?)
}

// Why a signature was not read: a line of it is none, or memory failed.
#[derive(Clone, Copy, Debug, PartialEq, Eq)]
pub enum ReadError {
    Refused(Refusal),
    Memory(AllocError),
}

impl From<Refusal> for ReadError {
    ghost from_gives = { λ r e. e ≡ Refused r };

    fn from(refusal: Refusal) -> ReadError {
        ReadError::Refused(refusal)
    }
}

impl From<AllocError> for ReadError {
    ghost from_gives = { λ a e. e ≡ Memory a };

    fn from(error: AllocError) -> ReadError {
        ReadError::Memory(error)
    }
}

// A line, by its number from 0; one that is not there is empty.
fn line_or_empty(lines: &[Vec<u8>], number: usize) -> &[u8]
    ensures { result.now ≡ line_at (map vec_items lines.now) number }
{
    match lines.get(number) {
        Some(line) => line,
        None => &[],
    }
}

// The four lines that follow a `look`; one that is not there is empty. `first` is the number of the first.
#[derive(Clone, Copy)]
pub struct SignatureLines<'a> {
    pub first: u64,
    pub key: &'a [u8],
    pub parts: &'a [u8],
    pub others: &'a [u8],
    pub path: &'a [u8],
}

impl<'a> SignatureLines<'a> {
    // The first four of some lines, the first of which has that number; one that is not there is empty.
    pub fn new(first: u64, lines: &'a [Vec<u8>]) -> SignatureLines<'a>
        ensures { LinesAre result first (map vec_items lines.now) }
    {
        SignatureLines {
            first,
            key: line_or_empty(lines, 0),
            parts: line_or_empty(lines, 1),
            others: line_or_empty(lines, 2),
            path: line_or_empty(lines, 3),
        }
    }

    // The refusal of the line that comes so many after the first.
    fn refusal(&self, after: u64) -> Refusal
        ensures { result ≡ Line (line_after self.now.first after) }
    {
        Refusal::Line(self.first.saturating_add(after))
    }

    // The signature, or the refusal of the first line that cannot be read; memory is asked for only behind a first line that was read, and for the numbers of a line. What is printed is read back, and what is read is printed as it was but for zeros in front of the key.
    pub fn read(&self, heap: Global) -> Result<ReadSignature, ReadError>
        ensures read { IfOk result (λ s. SignatureRead self.now (Ok s)) }
        ensures refused { (r : Refusal) → IsErrOf result (Refused r) → SignatureRead self.now (Err r) }
        ensures asked { (a : AllocError) → IsErrOf result (Memory a) → Readable self.now 0 × HasNumbers self.now }
        ensures back { (g : Signature) → Fits g → FourLines self.now (signature_text g) → MatchResult result (λ s. signature_of s ≡ g) (λ e. (r : Refusal) → e ≢ Refused r) }
        ensures again { IfOk result (λ s. KeyPlain self.now → FourLines self.now (signature_text (signature_of s))) }
    {
        let key = read_key(self.key).ok_or(self.refusal(0))?;
        let parts = read_numbers(heap, b"parts", self.parts)?.ok_or(self.refusal(1))?;
        let others = read_numbers(heap, b"others", self.others)?.ok_or(self.refusal(2))?;
        let path = read_numbers(heap, b"path", self.path)?.ok_or(self.refusal(3))?;
        Ok(ReadSignature {
            key,
            parts,
            others,
            path,
        })
    }
}
