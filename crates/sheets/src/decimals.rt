//! Numbers written with decimal digits.
ghost use Rattle.std.specs.Prelude.{◌≡◌, ◌^◌, ◌<◌, ◌≤◌, true, length, Some, None};
ghost use Rattle.sheets.specs.Decimals.{is_digit, all_digits, with_digit, with_digits};

/// A number with a digit behind it, if the byte is a digit and the number then has 32 bits.
fn extended(number: u32, byte: u8) -> Option<u32>
    ensures { elim result [ None ↦ (is_digit byte ≡ true → 2 ^ 32 ≤ with_digit number byte) | Some n ↦ (is_digit byte ≡ true) × (n ≡ with_digit number byte) ] }
{
    if !byte.is_ascii_digit() {
        return None;
    }
    number.checked_mul(10)?.checked_add(u32::from(byte - b'0'))
}

/// A number with digits behind it, if all bytes are digits and the number then has 32 bits.
fn continued(number: u32, digits: &[u8]) -> Option<u32>
    ensures { elim result [ None ↦ (all_digits digits.now ≡ true → 2 ^ 32 ≤ with_digits number digits.now) | Some n ↦ (all_digits digits.now ≡ true) × (n ≡ with_digits number digits.now) ] }
{
    let mut so_far = number;
    for digit in digits {
        so_far = extended(so_far, *digit)?;
    }
    Some(so_far)
}

/// The number that is written with these digits, of which there is at least one, if it has 32 bits.
pub fn decimal(digits: &[u8]) -> Option<u32>
    ensures { elim result [ None ↦ (all_digits digits.now ≡ true → 0 < length digits.now → 2 ^ 32 ≤ with_digits 0 digits.now) | Some n ↦ (0 < length digits.now) × (all_digits digits.now ≡ true) × (n ≡ with_digits 0 digits.now) ] }
{
    if digits.is_empty() {
        return None;
    }
    continued(0, digits)
}
