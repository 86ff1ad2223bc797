// How a number is made and read.
ghost use Rattle.std.specs.Prelude.{◌≡◌};
ghost use Rattle.hash.specs.Value.{worth, value_of, bytes_of, bit_at};

use super::Number;

impl From<[u8; 32]> for Number {
    ghost from_gives = { λ bytes n. (n.bytes ≡ bytes) × (value_of n ≡ worth bytes) };

    fn from(bytes: [u8; 32]) -> Number {
        Number { bytes }
    }
}

impl From<u64> for Number {
    ghost from_gives = { λ x n. value_of n ≡ x };

    fn from(x: u64) -> Number {
        let mut bytes = [0; 32];
        bytes[24..32].copy_from_slice(&x.to_be_bytes());
        Number::from(bytes)
    }
}

impl Number {
    pub const BITS: usize = 256;

    // A method and no `From`, since this name says what is given.
    #[tactic(auto, using(crate::proofs::Numbers::bytes_back))]
    pub fn to_bytes(&self) -> [u8; 32]
        ensures bytes { result ≡ self.now.bytes }
        ensures value { result ≡ bytes_of (value_of self.now) }
    {
        self.bytes
    }

    // The bit at a place from 0, the highest bit of the first byte; past the last one none is set.
    pub fn bit(&self, place: usize) -> bool
        ensures { result ≡ bit_at (bytes_of (value_of self.now)) place }
    {
        if place >= Self::BITS {
            return false;
        }
        (self.bytes[place / 8] >> (7 - place % 8)) % 2 == 1
    }
}
