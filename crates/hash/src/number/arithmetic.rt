// Arithmetic on numbers: no more than it takes to read one digit by digit.
ghost use Rattle.std.specs.Prelude.{◌≡◌, ◌+◌, ◌*◌, ◌^◌, ◌≤◌, MatchOption};
ghost use Rattle.hash.specs.Value.{value_of};

use super::Number;

impl Number {
    // The number times a factor and what is added, where that is below 2^256.
    pub fn checked_mul_add(&self, factor: u8, addend: u8) -> Option<Number>
        ensures { MatchOption result (2 ^ 256 ≤ value_of self.now * factor + addend) (λ n. value_of n ≡ value_of self.now * factor + addend) }
    {
        let mut bytes = self.bytes;
        let mut carry = u16::from(addend);
        // By index, since a loop over `iter_mut().rev()` lends the bytes out, and its invariant does not see what was written.
        for i in (0..32).rev() {
            let grown = u16::from(bytes[i]) * u16::from(factor) + carry;
            bytes[i] = (grown % 256) as u8;
            carry = grown / 256;
        }
        (carry == 0).then_some(Number::from(bytes))
    }
}
