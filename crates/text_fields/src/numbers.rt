//! Decimal numbers.
ghost use Rattle.std.specs.Prelude.{◌≡◌, ◌↔◌, ◌^◌, ◌<◌, IsSome, IfSome};
ghost use Rattle.std.specs.Str.Parse.{IsNumeral, digits_value};

/// Reads a decimal number below 2^64: digits only, with leading zeros allowed.
pub fn number(text: &str) -> Option<u64>
    // Promise (read, value): a field of a line is read exactly if its text spells it.
    ensures read { IsSome result ↔ (IsNumeral 10 text.now × (digits_value 10 text.now < 2 ^ 64)) }
    ensures value { IfSome result (λ n. n ≡ digits_value 10 text.now) }
{
    // `parse` would accept a leading plus
    if let [b'+', ..] = text.as_bytes() {
        return None;
    }
    text.parse::<u64>().ok()
}

/// Reads a decimal number below 2^32, in the same form.
pub fn number_u32(text: &str) -> Option<u32>
    // Promise (read, value), as number: a field of a ..
    ensures read { IsSome result ↔ (IsNumeral 10 text.now × (digits_value 10 text.now < 2 ^ 32)) }
    ensures value { IfSome result (λ n. n ≡ digits_value 10 text.now) }
{
    u32::try_from(number(text)?).ok()
}
