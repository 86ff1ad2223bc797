// The arguments of the program.
ghost use Rattle.std.specs.Prelude.{◌≡◌, [], ◌∷◌, IfOk, map, string_bytes};
ghost use Rattle.std.specs.Option.{option_map};
ghost use Rattle.command_line.specs.Arguments.{Read, is_path, path_of};

use std::alloc::{AllocError, Global};

// What a run of the program is asked for.
#[derive(Drop)]
pub enum Invocation {
    // a run with the store in memory
    InMemory,
    // a run with the store in the file of that path
    InFile(String),
    // a file of that path with a new store
    New(String),
    Help,
}

impl Invocation {
    // The path of the store, where one is asked for.
    pub fn path(&self) -> Option<&str>
        ensures { option_map (λ p. p.now) result ≡ path_of self.now }
    {
        match self {
            Invocation::InFile(path) | Invocation::New(path) => Some(path),
            Invocation::InMemory | Invocation::Help => None,
        }
    }
}

// Whether a word is a path, and no option.
fn is_path(word: &str) -> bool
    ensures { result ≡ is_path word.now }
{
    match word.as_bytes().first() {
        Some(first) => *first != b'-',
        None => false,
    }
}

// What one word asks for, if that is anything.
fn read_one(heap: Global, word: &str) -> Result<Option<Invocation>, AllocError>
    ensures { IfOk result (Read (word.now ∷ [])) }
{
    if word == "--help" {
        return Ok(Some(Invocation::Help));
    }
    if !is_path(word) {
        return Ok(None);
    }
    Ok(Some(Invocation::InFile(String::from_str(heap, word)?)))
}

// The same of two.
fn read_two(heap: Global, option: &str, path: &str) -> Result<Option<Invocation>, AllocError>
    ensures { IfOk result (Read (option.now ∷ path.now ∷ [])) }
{
    if option != "--new" || !is_path(path) {
        return Ok(None);
    }
    Ok(Some(Invocation::New(String::from_str(heap, path)?)))
}

// What the arguments behind the program's name ask for, if that is anything.
pub fn read_arguments(heap: Global, words: &[String]) -> Result<Option<Invocation>, AllocError>
    ensures { IfOk result (Read (map string_bytes words.now)) }
{
    match words {
        [] => Ok(Some(Invocation::InMemory)),
        [word] => read_one(heap, word),
        [option, path] => read_two(heap, option, path),
        _ => Ok(None),
    }
}
