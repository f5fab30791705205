ghost use Rattle.std.specs.Prelude.{◌≡◌, ◌≢◌, ◌↔◌, ℕ, ◌-◌, ◌*◌, ◌^◌, ◌<◌, ◌≤◌, min, IsTrue, length, take, slice_index};
ghost use Rattle.std.specs.Str.Parse.{AllDigits, digits_value_after};

/// What `read_digits` answers in place of a greater number.
pub(crate) const MOST: u128 = 1 << 100;

/// Whether each byte is a decimal digit.
pub(crate) fn are_digits(bytes: &[u8]) -> bool
    ensures { IsTrue result ↔ AllDigits 10 bytes.now }
{
    for byte in bytes {
        if !byte.is_ascii_digit() {
            return false;
        }
    }
    true
}

/// The number that the digits write when they follow those of a number, or `MOST` where it is greater.
pub(crate) fn read_digits(number: u128, digits: &[u8]) -> u128
    requires small { number ≤ MOST }
    requires digits { AllDigits 10 digits.now }
    ensures { result ≡ min (digits_value_after 10 number digits.now) MOST }
{
    let mut number = number;
    for digit in digits {
        number = (number * 10 + u128::from(*digit - b'0')).min(MOST);
    }
    number
}

/// The number of digits up to the last that isn't `0`.
pub(crate) fn significant_len(digits: &[u8]) -> usize
    ensures within { result ≤ length digits.now }
    ensures zeros { (n : ℕ) → digits_value_after 10 n digits.now
        ≡ digits_value_after 10 n (take result digits.now) * 10 ^ (length digits.now - result) }
    ensures last { 0 < result → slice_index digits.now (result - 1) ≢ 48 }
{
    let mut len = digits.len();
    while len > 0 && digits[len - 1] == b'0' {
        len -= 1;
    }
    len
}
