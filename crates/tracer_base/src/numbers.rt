//! Decimal numbers.
ghost use Rattle.std.specs.Prelude.{◌≡◌, ℕ, ◌<◌, ◌^◌, IfSome, IfNone, Some, List, decimal, IsTrue, ◌↔◌, ℤ, negsuc, ◌+◌, ◌∷◌};
ghost use Rattle.std.specs.Fmt.{signed_decimal};
ghost use Rattle.tracer_base.specs.Numbers.{HasPlainStart, FitsDelta};

/// Returns whether the text begins as a number is written: with a digit, which is no `0` unless it stands
/// alone.
fn has_plain_start(text: &[u8]) -> bool
    ensures { IsTrue result ↔ HasPlainStart text.now }
{
    match text.first() {
        Some(b'0') => text.len() == 1,
        Some(digit) => digit.is_ascii_digit(),
        None => false,
    }
}

/// The number that the text spells: decimal digits, the first of them no `0` unless it stands alone.
///
/// `None` comes for every other text, and for a number that doesn't fit 64 bits.
pub fn parse_u64(text: &[u8]) -> Option<u64>
    ensures spelled { IfSome result (λ number. decimal number ≡ text.now) }
    ensures each { (number : ℕ) → number < 2 ^ 64 → decimal number ≡ text.now → result ≡ Some number }
{
    if !has_plain_start(text) {
        return None;
    }
    match text {
        [digit] => Some(u64::from(*digit - b'0')),
        _ => fast_float::parse_u64(text).ok(),
    }
}

/// The number that the text spells, as for [`parse_u64`], where it fits 32 bits.
pub fn parse_u32(text: &[u8]) -> Option<u32>
    ensures spelled { IfSome result (λ number. decimal number ≡ text.now) }
    ensures each { (number : ℕ) → number < 2 ^ 32 → decimal number ≡ text.now → result ≡ Some number }
{
    u32::try_from(parse_u64(text)?).ok()
}

/// The number that the text spells, as for [`parse_u64`], where it fits 8 bits.
pub fn parse_u8(text: &[u8]) -> Option<u8>
    ensures spelled { IfSome result (λ number. decimal number ≡ text.now) }
    ensures each { (number : ℕ) → number < 2 ^ 8 → decimal number ≡ text.now → result ≡ Some number }
{
    u8::try_from(parse_u64(text)?).ok()
}

/// The number that the text spells, as for [`parse_u64`] but with `-` before a number below 0, where it
/// fits 32 bits with its sign. `-0` is no number.
pub fn parse_i32(text: &[u8]) -> Option<i32>
    ensures spelled { IfSome result (λ number. signed_decimal number ≡ text.now) }
    ensures each { (number : ℤ) → FitsDelta number → signed_decimal number ≡ text.now → result ≡ Some number }
{
    match behind_minus(text) {
        Some(digits) => negated(parse_u64(digits)?),
        None => i32::try_from(parse_u64(text)?).ok(),
    }
}

/// What stands behind a `-`; `None` where the text begins with none.
fn behind_minus(text: &[u8]) -> Option<&[u8]>
    ensures some { IfSome result (λ digits. 45 ∷ digits.now ≡ text.now) }
    ensures none { IfNone result ((digits : List ℕ) → 45 ∷ digits ≡ text.now → ⊥) }
{
    match text {
        [b'-', digits @ ..] => Some(digits),
        _ => None,
    }
}

/// Minus the number, where that is below 0 and fits 32 bits with its sign.
fn negated(number: u64) -> Option<i32>
    ensures spelled { IfSome result (λ below. signed_decimal below ≡ 45 ∷ decimal number) }
    ensures each { (n : ℕ) → n < 2 ^ 31 → n + 1 ≡ number → result ≡ Some (negsuc n) }
{
    let above = i32::try_from(number.checked_sub(1)?).ok()?;
    Some(-1 - above)
}
