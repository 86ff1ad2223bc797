// Decimals: one or more of 0-9, and nothing else.
ghost use Rattle.std.specs.Prelude.{◌≡◌, ℕ, ◌+◌, ◌-◌, ◌*◌, ◌^◌, ◌<◌, ◌≤◌, true, false, Some, None, MatchOption};
ghost use Rattle.hash.specs.Value.{value_of};
ghost use Rattle.reading.specs.Spelling.{is_digit, decimal_of};

use hash::Number;

// A value that is read from a decimal, digit by digit.
pub trait FromDecimal: Sized + Drop {
    // What every value is below, and the natural number that a value is.
    ghost limit: { ℕ };

    ghost worth: { Self → ℕ };

    fn zero() -> Self
        ensures value { worth result ≡ 0 }
        ensures below { 0 < limit };

    // The value with one digit more behind it, where that is below the limit.
    fn with_digit(self, digit: u8) -> Option<Self>
        ensures { MatchOption result (limit ≤ worth self * 10 + digit) (λ v. (worth v ≡ worth self * 10 + digit) × (worth v < limit)) };
}

impl FromDecimal for u32 {
    ghost limit = { 2 ^ 32 };

    ghost worth = { λ v. v };

    fn zero() -> u32 {
        0
    }

    fn with_digit(self, digit: u8) -> Option<u32> {
        self.checked_mul(10)?.checked_add(u32::from(digit))
    }
}

impl FromDecimal for u64 {
    ghost limit = { 2 ^ 64 };

    ghost worth = { λ v. v };

    fn zero() -> u64 {
        0
    }

    fn with_digit(self, digit: u8) -> Option<u64> {
        self.checked_mul(10)?.checked_add(u64::from(digit))
    }
}

impl FromDecimal for Number {
    ghost limit = { 2 ^ 256 };

    ghost worth = { value_of };

    fn zero() -> Number {
        Number::from(0)
    }

    #[tactic(auto, using(hash::proofs::Numbers::bounded))]
    fn with_digit(self, digit: u8) -> Option<Number> {
        self.checked_mul_add(10, digit)
    }
}

// The digit that a character is, if it is one.
fn digit_value(digit: u8) -> Option<u8>
    ensures { MatchOption result (is_digit digit ≡ false) (λ d. (is_digit digit ≡ true) × (d ≡ digit - 48)) }
{
    match digit {
        b'0'..=b'9' => Some(digit - b'0'),
        _ => None,
    }
}

// The value that a text is in decimal, if it is one below the limit. No `parse`, which takes a `+` too.
pub fn read_decimal<T: FromDecimal>(text: &[u8]) -> Option<T>
    ensures { MatchOption result (decimal_of T.limit text.now ≡ None) (λ v. decimal_of T.limit text.now ≡ Some (T.worth v)) }
{
    if text.is_empty() {
        return None;
    }
    let mut value = T::zero();
    // No `try_fold`, whose contract tells of the closure's calls one by one: that proof is longer than this loop's.
    for digit in text {
        value = value.with_digit(digit_value(*digit)?)?;
    }
    Some(value)
}
