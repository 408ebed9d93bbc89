//! Time spans in seconds: a decimal number followed by its unit, such as `10h` and `7d`.
ghost use Rattle.std.specs.Prelude.{◌≡◌, ◌⊎◌, ◌++◌, ℕ, List, IfNone, IfSome};
ghost use Rattle.text_fields.specs.Numbers.{IsU32Text};
ghost use Rattle.text_fields.specs.Spans.{IsSpanText, unit_mark, unit_seconds};
ghost use Rattle.text_fields.specs.declared.spans.Unit as units;

use crate::numbers::number_u32;

/// A unit of a time span.
#[derive(Clone, Copy)]
enum Unit {
    Second,
    Minute,
    Hour,
    Day,
}

impl Unit {
    fn seconds(self) -> u32
        ensures { result ≡ unit_seconds self }
    {
        match self {
            Unit::Second => 1,
            Unit::Minute => 60,
            Unit::Hour => 3_600,
            Unit::Day => 86_400,
        }
    }
}

/// Reads a time span, in seconds: a decimal number followed by its unit, which is `s`, `m`, `h` or `d`. `None` also for
/// 2^32 seconds and more.
pub fn span(text: &str) -> Option<u32>
    // Promise (read, none): a text is read as a time span exactly if it is a decimal number with a unit, below 2^32
    // seconds.
    ensures read { IfSome result (λ seconds. IsSpanText seconds text.now) }
    ensures none { IfNone result ((seconds : ℕ) → ¬ IsSpanText seconds text.now) }
{
    let (digits, unit) = split_unit(text)?;
    number_u32(digits)?.checked_mul(unit.seconds())
}

/// Reads a lifetime: a number of seconds, or a time span.
pub fn lifetime(text: &str) -> Option<u32>
    // Promise (read, none), as span: a text is read ..
    ensures read { IfSome result (λ seconds. IsU32Text seconds text.now ⊎ IsSpanText seconds text.now) }
    ensures none { IfNone result ((seconds : ℕ) → ¬ (IsU32Text seconds text.now ⊎ IsSpanText seconds text.now)) }
{
    match number_u32(text) {
        Some(seconds) => Some(seconds),
        None => span(text),
    }
}

/// Splits the unit off.
fn split_unit(text: &str) -> Option<(&str, Unit)>
    ensures split { IfSome result (λ found. text.now ≡ found.0.now ++ unit_mark found.1) }
    ensures none { IfNone result ((digits : List ℕ) (unit : units.Unit) → ¬ (text.now ≡ digits ++ unit_mark unit)) }
{
    if let Some(digits) = text.strip_suffix("s") {
        Some((digits, Unit::Second))
    } else if let Some(digits) = text.strip_suffix("m") {
        Some((digits, Unit::Minute))
    } else if let Some(digits) = text.strip_suffix("h") {
        Some((digits, Unit::Hour))
    } else if let Some(digits) = text.strip_suffix("d") {
        Some((digits, Unit::Day))
    } else {
        None
    }
}
