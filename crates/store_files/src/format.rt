// A store's numbers as the bytes of its file.
ghost use Rattle.std.specs.Prelude.{◌≡◌, ℕ, ◌*◌, ◌<◌, List, [], ◌∷◌, length, take, drop, slice_set};
ghost use Rattle.std.specs.Int.{w32, to_be_bytes};
ghost use Rattle.store_files.specs.Format.{file_bytes, overwritten};

// The bytes of one number, and their place in the file.
#[derive(Clone, Copy)]
pub(crate) struct CellBytes {
    pub(crate) bytes: [u8; 4],
    pub(crate) at: u64,
}

// Where the bytes of a store are overwritten with these, they are those of the store with that number in that place.
pub(crate) fn cell_bytes(place: usize, value: u32) -> CellBytes
    requires { place < 4 }
    ensures { (m : List ℕ) → place < length m → overwritten (file_bytes m) result.at result.bytes ≡ file_bytes (slice_set m place value) }
{
    CellBytes {
        bytes: value.to_be_bytes(),
        at: 4 * place as u64,
    }
}

// The number whose bytes stand in a place of the file.
fn number_at(bytes: &[u8; 16], place: usize) -> u32
    requires { place < 4 }
    ensures { to_be_bytes w32 result ≡ take 4 (drop (4 * place) bytes.now) }
{
    let at = 4 * place;
    u32::from_be_bytes([bytes[at], bytes[at + 1], bytes[at + 2], bytes[at + 3]])
}

// The store whose bytes these are.
pub(crate) fn read_numbers(bytes: &[u8; 16]) -> [u32; 4]
    ensures { file_bytes result ≡ bytes.now }
{
    [
        number_at(bytes, 0),
        number_at(bytes, 1),
        number_at(bytes, 2),
        number_at(bytes, 3),
    ]
}

// The bytes of a new store, in which both slots have the count 0.
pub(crate) fn new_store() -> [u8; 16]
    ensures { result ≡ file_bytes (0 ∷ 3 ∷ 0 ∷ 3 ∷ []) }
{
    [0, 0, 0, 0, 0, 0, 0, 3, 0, 0, 0, 0, 0, 0, 0, 3]
}
