//! Dates with a time of day in UTC (RFC 3339, section 5.6): `2027-01-01T12:00:00Z`.
ghost use Rattle.std.specs.Prelude.{◌≡◌, ◌++◌, ℤ, length, codes, IfSome, IfNone};
ghost use Rattle.text_fields.specs.Dates.{IsDateText, IsMomentText, marks, unmarked};

use krb_der::KTime;
use krb_fields::Second;
use std::fmt;

/// A second that is displayed as its date and time of day.
#[derive(Clone, Copy)]
pub struct UtcDate(pub Second);

impl fmt::Display for UtcDate {
    fn fmt<W: fmt::Write>(&self, f: &mut fmt::Formatter<W>) -> fmt::Result {
        for octet in date_octets(self.0) {
            f.write_char(char::from(octet))?;
        }
        Ok(())
    }
}

/// Returns the text of a second's date and time of day.
#[tactic(auto, using(crate::proofs::DateTexts::is_moment_text))]
fn date_octets(second: Second) -> [u8; 20]
    // Promise: a second is shown as a date that spells it.
    ensures { IsMomentText second result }
{
    let o = KTime::of(second.get()).to_octets();
    [
        o[0], o[1], o[2], o[3], b'-', o[4], o[5], b'-', o[6], o[7], b'T', o[8], o[9], b':', o[10],
        o[11], b':', o[12], o[13], o[14],
    ]
}

/// Reads a date with a time of day, or a date alone, which stands for the start of its day.
pub(crate) fn date(text: &str) -> Option<Second>
    ensures read { IfSome result (λ second. IsDateText second text.now) }
    ensures none { IfNone result ((second : ℤ) → ¬ IsDateText second text.now) }
{
    let octets = text.as_bytes();
    match octets.len() {
        10 => moment(&laid_over(octets)),
        20 => moment(octets),
        _ => None,
    }
}

/// Appends the start of the day to a date.
fn laid_over(date: &[u8]) -> [u8; 20]
    requires { length date.now ≡ 10 }
    ensures { result ≡ date.now ++ codes "T00:00:00Z" }
{
    let mut octets = *b"0000-00-00T00:00:00Z";
    octets[..10].copy_from_slice(date);
    octets
}

/// Reads a date with a time of day.
fn moment(octets: &[u8]) -> Option<Second>
    requires { length octets.now ≡ 20 }
    // Promise (read, none), as parse_setting: a field of a ..
    ensures read { IfSome result (λ second. IsMomentText second octets.now) }
    ensures none { IfNone result ((second : ℤ) → ¬ IsMomentText second octets.now) }
{
    let unmarked = unmarked(octets)?;
    Second::new(KTime::from_octets(&unmarked)?.seconds())
}

/// Returns the bytes YYYYMMDDHHMMSSZ, if they have the right punctuation between them.
fn unmarked(o: &[u8]) -> Option<[u8; 15]>
    requires { length o.now ≡ 20 }
    ensures marked { IfSome result (λ octets. marks o.now ≡ codes "--T::") }
    ensures digits { IfSome result (λ octets. octets ≡ unmarked o.now) }
    ensures none { IfNone result (¬ (marks o.now ≡ codes "--T::")) }
{
    if o[4] != b'-' || o[7] != b'-' || o[10] != b'T' || o[13] != b':' || o[16] != b':' {
        return None;
    }
    Some([
        o[0], o[1], o[2], o[3], o[5], o[6], o[8], o[9], o[11], o[12], o[14], o[15], o[17], o[18],
        o[19],
    ])
}
