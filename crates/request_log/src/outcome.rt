//! The outcome of a request, as fields.
ghost use Rattle.std.specs.Prelude.{◌≡◌, ◌++◌, ◌∷◌, [], List, OnOk, decimal};
ghost use Rattle.krb_fields.specs.TicketFlag.{ticket_flag_number};
ghost use Rattle.request_log.specs.Entry.{again_fields, as_fields, code_fields, ends_fields, etype_number};
ghost use Rattle.request_log.specs.Entry.{etypes_value, first_letters, flags_value, letter, renew_fields, rule_fields};
ghost use Rattle.request_log.specs.Entry.{terms_fields, tgs_fields, ticket_fields, with_letters};
ghost use Rattle.request_log.specs.Field.{Field, field, with_fields};
ghost use Rattle.request_log.specs.declared.field.FieldName.TheVariants as names;

use crate::field::{FieldName, FieldWriter};
use crate::names::{ABSENT, put_or_dash};
use crate::times::{put_date, put_life};
use crate::values::push_number;
use crate::words::code_word;
use enctypes::Etype;
use itoa::Buffer;
use kdc_core::{AsOutcome, Bears, Granted, TgsOutcome};
use krb_der::KTime;
use krb_fields::{Code, Flags, NamedBit, TicketFlag};
use std::alloc::{AllocError, Global};
use ticket_times::Times;

pub(crate) fn put_as_outcome<W: FieldWriter>(
    line: &mut W,
    alloc: Global,
    value: &mut Vec<u8>,
    outcome: &AsOutcome,
) -> Result<(), AllocError>
    ensures { (fields : List Field) → W.Holds line.old fields
        → OnOk result (W.Holds line.new (with_fields fields (as_fields outcome.now))) }
{
    match outcome {
        AsOutcome::Refused(rule) => put_rule(line, alloc, rule.code(), rule.word()),
        AsOutcome::Issued(granted) => put_ticket(line, alloc, value, granted),
        AsOutcome::TooBig => put_code(line, alloc, Code::KrbErrResponseTooBig),
    }
}

pub(crate) fn put_tgs_outcome<W: FieldWriter>(
    line: &mut W,
    alloc: Global,
    value: &mut Vec<u8>,
    outcome: &TgsOutcome,
) -> Result<(), AllocError>
    ensures { (fields : List Field) → W.Holds line.old fields
        → OnOk result (W.Holds line.new (with_fields fields (tgs_fields outcome.now))) }
{
    match outcome {
        TgsOutcome::Refused(rule) => put_rule(line, alloc, rule.code(), rule.word()),
        TgsOutcome::Issued(granted) => put_ticket(line, alloc, value, granted),
        TgsOutcome::Resent(bears) => put_again(line, alloc, *bears),
        TgsOutcome::TooBig => put_code(line, alloc, Code::KrbErrResponseTooBig),
    }
}

fn put_rule<W: FieldWriter>(
    line: &mut W,
    alloc: Global,
    code: Code,
    rule: &str,
) -> Result<(), AllocError>
    ensures { (fields : List Field) → W.Holds line.old fields
        → OnOk result (W.Holds line.new (with_fields fields (rule_fields code rule.now))) }
{
    put_code(line, alloc, code)?;
    line.put(alloc, FieldName::Rule, rule.as_bytes())
}

fn put_code<W: FieldWriter>(line: &mut W, alloc: Global, code: Code) -> Result<(), AllocError>
    ensures { (fields : List Field) → W.Holds line.old fields
        → OnOk result (W.Holds line.new (with_fields fields (code_fields code))) }
{
    let mut buffer = Buffer::new();
    let number = buffer.format(code.number().unsigned_abs());
    line.put_printable(alloc, FieldName::Outcome, b"refused")?;
    line.put(alloc, FieldName::Code, number.as_bytes())?;
    line.put(alloc, FieldName::Reason, code_word(code).as_bytes())
}

/// Adds the fields for a reply that was sent again.
fn put_again<W: FieldWriter>(line: &mut W, alloc: Global, bears: Bears) -> Result<(), AllocError>
    ensures { (fields : List Field) → W.Holds line.old fields
        → OnOk result (W.Holds line.new (with_fields fields (again_fields bears))) }
{
    match bears {
        Bears::Ticket => {
            line.put_printable(alloc, FieldName::Outcome, b"ticket")?;
            line.put_printable(alloc, FieldName::Lifetime, ABSENT)?;
            line.put_printable(alloc, FieldName::Repeat, b"yes")
        }
        Bears::Error => {
            line.put_printable(alloc, FieldName::Outcome, b"refused")?;
            line.put_printable(alloc, FieldName::Code, ABSENT)?;
            line.put_printable(alloc, FieldName::Reason, ABSENT)?;
            line.put_printable(alloc, FieldName::Repeat, b"yes")
        }
    }
}

fn put_ticket<W: FieldWriter>(
    line: &mut W,
    alloc: Global,
    value: &mut Vec<u8>,
    granted: &Granted,
) -> Result<(), AllocError>
    ensures { (fields : List Field) → W.Holds line.old fields
        → OnOk result (W.Holds line.new (with_fields fields (ticket_fields granted.now))) }
{
    line.put_printable(alloc, FieldName::Outcome, b"ticket")?;
    put_life(line, alloc, value, &granted.times)?;
    put_terms(line, alloc, value, granted)
}

fn put_terms<W: FieldWriter>(
    line: &mut W,
    alloc: Global,
    value: &mut Vec<u8>,
    granted: &Granted,
) -> Result<(), AllocError>
    ensures { (fields : List Field) → W.Holds line.old fields
        → OnOk result (W.Holds line.new (with_fields fields (terms_fields granted.now))) }
{
    put_etypes(line, alloc, value, granted)?;
    put_flags(line, alloc, value, granted.flags)?;
    put_ends(line, alloc, &granted.times)
}

fn put_ends<W: FieldWriter>(line: &mut W, alloc: Global, times: &Times) -> Result<(), AllocError>
    ensures { (fields : List Field) → W.Holds line.old fields
        → OnOk result (W.Holds line.new (with_fields fields (ends_fields times.now))) }
{
    put_date(line, alloc, FieldName::Until, times.end)?;
    put_renew(line, alloc, times.renew_till)
}

fn put_renew<W: FieldWriter>(
    line: &mut W,
    alloc: Global,
    till: Option<KTime>,
) -> Result<(), AllocError>
    ensures { (fields : List Field) → W.Holds line.old fields
        → OnOk result (W.Holds line.new (with_fields fields (renew_fields till))) }
{
    match till {
        Some(till) => put_date(line, alloc, FieldName::Renew, till),
        None => Ok(()),
    }
}

/// Writes the encryption types of the session key and of the service's key.
fn put_etypes<W: FieldWriter>(
    line: &mut W,
    alloc: Global,
    value: &mut Vec<u8>,
    granted: &Granted,
) -> Result<(), AllocError>
    ensures { (fields : List Field) → W.Holds line.old fields
        → OnOk result (W.Holds line.new (fields ++ field names.Etype (etypes_value granted.now) ∷ [])) }
{
    set_etypes(value, granted)?;
    line.put(alloc, FieldName::Etype, value)
}

fn set_etypes(value: &mut Vec<u8>, granted: &Granted) -> Result<(), AllocError>
    ensures { OnOk result (value.new.items ≡ etypes_value granted.now) }
{
    value.clear();
    push_etype(value, granted.session_type)?;
    value.push(b'/')?;
    push_etype(value, granted.ticket_type)
}

fn push_etype(value: &mut Vec<u8>, etype: Etype) -> Result<(), AllocError>
    ensures { OnOk result (value.new.items ≡ value.old.items ++ decimal (etype_number etype)) }
{
    push_number(value, etype.number().unsigned_abs().into())
}

/// Writes the ticket's flags in the letters of `klist -f`, in its order.
fn put_flags<W: FieldWriter>(
    line: &mut W,
    alloc: Global,
    value: &mut Vec<u8>,
    flags: Flags,
) -> Result<(), AllocError>
    ensures { (fields : List Field) → W.Holds line.old fields
        → OnOk result (W.Holds line.new (fields ++ field names.Flags (flags_value flags) ∷ [])) }
{
    set_letters(value, flags)?;
    put_or_dash(line, alloc, FieldName::Flags, value)
}

fn set_letters(value: &mut Vec<u8>, flags: Flags) -> Result<(), AllocError>
    ensures { OnOk result (value.new.items ≡ with_letters (first_letters flags) flags) }
{
    value.clear();
    push_letter(value, flags, TicketFlag::Forwardable, b'F')?;
    push_letter(value, flags, TicketFlag::Forwarded, b'f')?;
    push_letter(value, flags, TicketFlag::Proxiable, b'P')?;
    push_letter(value, flags, TicketFlag::Proxy, b'p')?;
    push_letter(value, flags, TicketFlag::MayPostdate, b'D')?;
    push_letter(value, flags, TicketFlag::Postdated, b'd')?;
    push_others(value, flags)
}

fn push_others(value: &mut Vec<u8>, flags: Flags) -> Result<(), AllocError>
    ensures { OnOk result (value.new.items ≡ with_letters value.old.items flags) }
{
    push_letter(value, flags, TicketFlag::Invalid, b'i')?;
    push_letter(value, flags, TicketFlag::Renewable, b'R')?;
    push_letter(value, flags, TicketFlag::Initial, b'I')?;
    push_letter(value, flags, TicketFlag::HwAuthent, b'H')?;
    push_letter(value, flags, TicketFlag::PreAuthent, b'A')?;
    push_letter(value, flags, TicketFlag::TransitedPolicyChecked, b'T')?;
    push_letter(value, flags, TicketFlag::OkAsDelegate, b'O')
}

fn push_letter(
    value: &mut Vec<u8>,
    flags: Flags,
    flag: TicketFlag,
    code: u8,
) -> Result<(), AllocError>
    ensures { OnOk result (value.new.items ≡ value.old.items ++ letter flags (ticket_flag_number flag) code) }
{
    if flags.has(flag) {
        value.push(code)?;
    }
    Ok(())
}
