//! How the log writes times and lifetimes.
ghost use Rattle.std.specs.Prelude.{◌≡◌, ◌++◌, ◌∷◌, [], List, OnOk, decimal};
ghost use Rattle.request_log.specs.Field.{Field, field};
ghost use Rattle.request_log.specs.Times.{date_text, hours_text, life_text, marked, minutes_of, valid_seconds};
ghost use Rattle.request_log.specs.declared.field.FieldName.TheVariants as names;

use crate::field::{FieldName, FieldWriter};
use crate::values::push_number;
use krb_der::KTime;
use std::alloc::{AllocError, Global};
use ticket_times::Times;

/// Writes a second as a date and time in UTC: `2026-11-23T22:46:18Z`.
pub(crate) fn put_date<W: FieldWriter>(
    line: &mut W,
    alloc: Global,
    name: FieldName,
    time: KTime,
) -> Result<(), AllocError>
    ensures { (fields : List Field) → W.Holds line.old fields
        → OnOk result (W.Holds line.new (fields ++ field name (date_text time) ∷ [])) }
{
    line.put_printable(alloc, name, &marked(&time.to_octets()))
}

/// Inserts the punctuation of RFC 3339 into the bytes of a KerberosTime.
fn marked(octets: &[u8; 15]) -> [u8; 20]
    ensures { result ≡ marked octets.now }
{
    let o = octets;
    [
        o[0], o[1], o[2], o[3], b'-', o[4], o[5], b'-', o[6], o[7], b'T', o[8], o[9], b':', o[10],
        o[11], b':', o[12], o[13], o[14],
    ]
}

/// Writes the ticket's lifetime, to the nearest minute.
pub(crate) fn put_life<W: FieldWriter>(
    line: &mut W,
    alloc: Global,
    value: &mut Vec<u8>,
    times: &Times,
) -> Result<(), AllocError>
    ensures { (fields : List Field) → W.Holds line.old fields
        → OnOk result (W.Holds line.new (fields ++ field names.Lifetime (life_text (valid_seconds times.now)) ∷ [])) }
{
    set_life(value, valid_seconds(times))?;
    line.put(alloc, FieldName::Lifetime, value)
}

/// Returns the ticket's lifetime in seconds.
fn valid_seconds(times: &Times) -> u64
    ensures { result ≡ valid_seconds times.now }
{
    let end = times.end.seconds();
    let start = times.start.seconds();
    end.abs_diff(start)
}

/// Writes a lifetime to the nearest minute: `10h`, `7h30m`, `5m`. If it is less than half a minute, it is in seconds.
fn set_life(value: &mut Vec<u8>, seconds: u64) -> Result<(), AllocError>
    ensures { OnOk result (value.new.items ≡ life_text seconds) }
{
    let minutes = minutes_of(seconds);
    if minutes == 0 {
        return set_count(value, seconds, b"s");
    }
    if minutes / 60 == 0 {
        return set_count(value, minutes % 60, b"m");
    }
    set_hours(value, minutes / 60, minutes % 60)
}

/// Converts seconds to minutes, to the nearest minute.
fn minutes_of(seconds: u64) -> u64
    ensures { result ≡ minutes_of seconds }
{
    if seconds % 60 < 30 {
        seconds / 60
    } else {
        seconds / 60 + 1
    }
}

fn set_hours(value: &mut Vec<u8>, hours: u64, minutes: u64) -> Result<(), AllocError>
    ensures { OnOk result (value.new.items ≡ hours_text hours minutes) }
{
    set_count(value, hours, b"h")?;
    if minutes != 0 {
        push_number(value, minutes)?;
        value.push(b'm')?;
    }
    Ok(())
}

/// Writes a number and its unit.
fn set_count(value: &mut Vec<u8>, count: u64, unit: &[u8]) -> Result<(), AllocError>
    ensures { OnOk result (value.new.items ≡ decimal count ++ unit.now) }
{
    value.clear();
    push_number(value, count)?;
    value.extend_from_slice(unit)
}
