//! The values of a policy's fields, as an administrator writes them.
ghost use Rattle.std.specs.Prelude.{◌≡◌, ◌≤ℤ◌, ◌<ℤ◌, IfNone, IfSome, IsFalse, IsTrue, pos};
ghost use Rattle.krb_fields.specs.Moment.{IsSecond};
ghost use Rattle.text_fields.specs.Values.{IsFixedValue, IsLifeOf, IsTimeFrom};
ghost use Rattle.text_fields.specs.declared.settings.Setting as settings;

use crate::settings::{Setting, life_field, time_field};
use crate::spans::span;
use krb_fields::Second;

/// Reads a field with its value, which doesn't depend on the clock. Returns `None` if there is no such field or the
/// value isn't valid for it.
pub fn parse_setting(field: &str, value: &str) -> Option<Setting>
    // Promise (read, none): a field of a policy with its value is read exactly if its text spells it; in a command the
    // text may also spell a date or a time span.
    ensures read { IfSome result (λ setting. IsFixedValue setting field.now value.now) }
    ensures none { IfNone result ((setting : settings.Setting) → ¬ IsFixedValue setting field.now value.now) }
{
    if let Some(setting) = Setting::of(field, value) {
        return Some(setting);
    }
    match Setting::of_date(field, value) {
        Some(setting) => Some(setting),
        None => life_setting(field, value),
    }
}

/// Reads a field with a lifetime, which is a number and a unit.
fn life_setting(field: &str, value: &str) -> Option<Setting>
    ensures read { IfSome result (λ setting. IsLifeOf setting field.now value.now) }
    ensures none { IfNone result ((setting : settings.Setting) → ¬ IsLifeOf setting field.now value.now) }
{
    Some(Setting::Life(life_field(field)?, span(value)?))
}

/// Reads a field whose value is a time span from now on. Returns `None` if no field with this name is a time, the value
/// is no time span, or the time is after the year 9999.
pub fn setting_from(field: &str, value: &str, now: u64) -> Option<Setting>
    // Promise (read, none), as parse_setting: a field of a ..
    ensures read { IfSome result (λ setting. IsTimeFrom now setting field.now value.now) }
    ensures none { IfNone result ((setting : settings.Setting) → ¬ IsTimeFrom now setting field.now value.now) }
{
    let field = time_field(field)?;
    let second = now.checked_add(u64::from(span(value)?))?;
    Some(Setting::Time(field, Some(second_of(second)?)))
}

/// Returns the moment this many seconds after the start of 1970.
fn second_of(seconds: u64) -> Option<Second>
    ensures read { IfSome result (λ second. second ≡ pos seconds) }
    ensures none { IfNone result (¬ IsSecond (pos seconds)) }
{
    Second::new(i64::try_from(seconds).ok()?)
}

/// Checks whether a second is past, or is this one.
pub fn is_past(expires: Second, now: u64) -> bool
    ensures past { IsTrue result → expires ≤ℤ pos now }
    ensures lasting { IsFalse result → pos now <ℤ expires }
{
    match u64::try_from(expires.get()) {
        Ok(expires) => expires <= now,
        Err(_) => true,
    }
}
