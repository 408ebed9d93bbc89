//! The bytes YYYYMMDDHHMMSSZ of a date and time of day.
ghost use Rattle.std.specs.Prelude.{◌≡◌, ◌<◌, IsTrue, take, drop};
ghost use Rattle.std.specs.Char.{is_ascii_digit};
ghost use Rattle.std.specs.List.{list_all};
ghost use Rattle.krb_der.specs.Civil.{FitsDigits};
ghost use Rattle.krb_der.specs.Digits.{is_spelled, number, spelled, spelling, two_digits};

use crate::civil::CivilTime;

/// Checks whether the bytes are fourteen digits and `Z`.
#[tactic(auto, unfolding(crate::specs::Digits::is_spelled))]
pub(crate) fn is_spelled(octets: &[u8]) -> bool
    ensures { result ≡ is_spelled octets.now }
{
    octets.len() == 15 && octets[14] == b'Z' && are_digits(&octets[..14])
}

/// Checks whether all bytes are decimal digits.
fn are_digits(octets: &[u8]) -> bool
    ensures { result ≡ list_all is_ascii_digit octets.now }
{
    octets.iter().all(|octet| octet.is_ascii_digit())
}

/// Returns the numbers that the digits spell, even if the calendar has no such date.
#[tactic(auto, using(crate::proofs::DigitsLemmas::number_of_four), unfolding(crate::specs::Digits::spelled))]
pub(crate) fn spelled(octets: &[u8]) -> CivilTime
    requires { IsTrue (is_spelled octets.now) }
    ensures value { result ≡ spelled octets.now }
    ensures fits { FitsDigits result }
{
    CivilTime {
        year: u16::from(pair(octets, 0)) * 100 + u16::from(pair(octets, 2)),
        month: pair(octets, 4),
        day: pair(octets, 6),
        hour: pair(octets, 8),
        minute: pair(octets, 10),
        second: pair(octets, 12),
    }
}

/// Returns the number that two digits spell.
#[tactic(auto, using(crate::proofs::DigitsLemmas::digit_facts))]
fn pair(octets: &[u8], at: usize) -> u8
    requires spelled { IsTrue (is_spelled octets.now) }
    requires place { at < 13 }
    ensures value { result ≡ number (take 2 (drop at octets.now)) }
    ensures bound { result < 100 }
{
    (octets[at] - b'0') * 10 + (octets[at + 1] - b'0')
}

/// Returns the bytes of a date and time of day.
#[tactic(auto, unfolding(crate::specs::Digits::spelling))]
pub(crate) fn spelling(civil: CivilTime) -> [u8; 15]
    requires { FitsDigits civil }
    ensures { result ≡ spelling civil }
{
    let [c0, c1] = two_digits((civil.year / 100) as u8);
    let [y0, y1] = two_digits((civil.year % 100) as u8);
    let [m0, m1] = two_digits(civil.month);
    let [d0, d1] = two_digits(civil.day);
    let [h0, h1] = two_digits(civil.hour);
    let [n0, n1] = two_digits(civil.minute);
    let [s0, s1] = two_digits(civil.second);
    [c0, c1, y0, y1, m0, m1, d0, d1, h0, h1, n0, n1, s0, s1, b'Z']
}

/// Returns the two digits of a number below 100.
fn two_digits(n: u8) -> [u8; 2]
    requires { n < 100 }
    ensures { result ≡ two_digits n }
{
    [b'0' + n / 10, b'0' + n % 10]
}
