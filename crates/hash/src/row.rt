// The hash over rows of numbers, fed number by number so that no row is ever held.
ghost use Rattle.std.specs.Prelude.{◌≡◌, ℕ, ◌*◌, ◌^◌, ◌<◌, List, [], ◌∷◌, ◌++◌, map};
ghost use Rattle.std.specs.Mem.{type_size};
ghost use Rattle.std.specs.List.{AllZip};
ghost use Rattle.hash.specs.Rows.{longer};
ghost use Rattle.hash.specs.Tag.{tag};
ghost use Rattle.hash.specs.Value.{value_of};

use crate::number::Number;
use crate::purpose::Purpose;

// `mix` is the hash as a function from rows to numbers. `holds s xs` says that the state s has taken in the row xs: a state of fixed size does not determine its row, so this is a relation.
pub trait RowHasher: Sized + Copy {
    ghost mix: { List ℕ → ℕ };

    ghost holds: { Self → List ℕ → Type 0 };

    fn start(purpose: Purpose) -> Self
        ensures { holds result (tag purpose ∷ []) };

    fn absorb(&mut self, x: &Number)
        ensures { (xs : List ℕ) → holds self.old xs → holds self.new (xs ++ (value_of x.now ∷ [])) };

    fn finish(self) -> Number
        ensures { (xs : List ℕ) → holds self xs → value_of result ≡ mix xs };

    // Eight hashers side by side take in a number each. One after the other, where a hash has no better way.
    fn absorb_eight(hashers: &mut [Self; 8], numbers: &[Number; 8])
        ensures { (rows : List (List ℕ)) → AllZip holds hashers.old rows → AllZip holds hashers.new (longer rows (map value_of numbers.now)) }
    {
        for i in 0..8 {
            hashers[i].absorb(&numbers[i]);
        }
    }

    // The hashes of the rows that eight hashers have taken in.
    fn finish_eight(hashers: &[Self; 8]) -> [Number; 8]
        ensures { (rows : List (List ℕ)) → AllZip holds hashers.now rows → map value_of result ≡ map mix rows }
    {
        let mut hashes = [Number::from(0); 8];
        for i in 0..8 {
            hashes[i] = hashers[i].finish();
        }
        hashes
    }

    // Eight hashers fit in memory, so that they can be lent side by side.
    ghost eight_fit: { 8 * type_size Self.row < 2 ^ 63 };

    // The hash of a short row that is at hand.
    final fn hash(purpose: Purpose, numbers: &[Number]) -> Number
        ensures { value_of result ≡ mix (tag purpose ∷ map value_of numbers.now) }
    {
        let mut hasher = Self::start(purpose);
        for x in numbers {
            hasher.absorb(x);
        }
        hasher.finish()
    }
}
