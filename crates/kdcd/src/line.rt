//! The lines of a script:
//!
//! ```text
//! open REALM REMEMBERED LOCK_AFTER LOCK_SECONDS LIFE RENEWABLE KEYS
//! add NAME KEYS
//! keys NAME KEYS
//! drop NAME VERSION
//! remove NAME
//! policy NAME FIELD=VALUE
//! request SEC USEC RANDOM ROOM HEX
//! restart SEC
//! ```
ghost use Rattle.std.specs.Prelude.{◌≡◌, ◌==◌, ◌<◌, ◌∷◌, All, IfOk, IfNone, IfSome, codes, map};
ghost use Rattle.std.specs.List.{slice_split};
ghost use Rattle.kdcd.specs.Line.{IsLineText, AreLineFields};
ghost use Rattle.kdcd.specs.declared.line.Line as lines;
ghost use Rattle.kdcd.specs.declared.line.LineError.TheVariants.{Form, Memory};

use crate::field::{keys, limits, moment, name, octets, random, realm};
use krb_elements::KerberosString;
use krb_fields::{Moment, Name};
use principal_rows::{KeyList, Limits};
use std::alloc::{AllocError, AllocFailed, Global};
use text_fields::{Setting, number_u32};

/// A line of a script.
#[derive(Drop)]
pub(crate) enum Line {
    /// Opens a KDC whose database has only the ticket-granting service.
    Open {
        realm: KerberosString,
        limits: Limits,
        krbtgt_keys: KeyList,
    },
    /// Changes a principal. The name is `None` if the text is not a name.
    Change {
        name: Option<Name>,
        what: LineChange,
    },
    Request(LineRequest),
    /// Restarts the KDC at this moment, without its replay caches and failures.
    Restart {
        at: Moment,
    },
}

/// A change of a principal.
#[derive(Drop)]
pub(crate) enum LineChange {
    /// Adds the principal with these keys.
    Add(KeyList),
    /// Gives it new current keys.
    NewKeys(KeyList),
    /// Drops the keys of a version.
    DropKeys(u32),
    /// Removes the principal.
    Remove,
    /// Sets a field of its policy.
    Set(Setting),
}

/// A request to the KDC.
#[derive(Drop)]
pub(crate) struct LineRequest {
    /// When it comes in.
    pub(crate) at: Moment,
    /// The random bytes for its answer.
    pub(crate) random: [u8; 64],
    /// The maximum length of a reply with a ticket, in bytes.
    pub(crate) room: u32,
    pub(crate) octets: Vec<u8>,
}

/// Why bytes are not a line.
#[derive(Clone, Copy, Debug, PartialEq, Eq)]
pub(crate) enum LineError {
    /// The line has none of the forms, or a value is out of range.
    Form,
    Memory,
}

impl From<AllocError> for LineError {
    ghost from_gives = { λ _ fault. fault ≡ Memory };

    fn from(_: AllocError) -> LineError {
        LineError::Memory
    }
}

impl<T: Drop> From<AllocFailed<T>> for LineError {
    ghost from_gives = { λ _ fault. fault ≡ Memory };

    fn from(_: AllocFailed<T>) -> LineError {
        LineError::Memory
    }
}

impl Line {
    /// Reads a line without its line feed: fields of ASCII text, separated by single spaces.
    pub(crate) fn parse(alloc: Global, octets: &[u8]) -> Result<Line, LineError>
        // Promise (ok, form): a line is read exactly where its text spells it, unless memory runs out: ASCII text, cut
        // at its spaces.
        ensures ok { IfOk result (λ line. IsLineText line octets.now) }
        ensures form { result ≡ Err Form → (line : lines.Line) → ¬ IsLineText line octets.now }
    {
        let Some(text) = ascii_text(octets) else {
            return Err(LineError::Form);
        };
        parse_fields(alloc, &fields_of(alloc, text)?)
    }
}

/// Splits a text at its spaces.
fn fields_of<'a>(alloc: Global, text: &'a str) -> Result<Vec<&'a str>, AllocError>
    ensures { IfOk result (λ fields. map (λ field. field.now) fields.items ≡ slice_split (λ o. o == 0x20) text.now) }
{
    text.split(' ').collect(alloc)
}

/// Reads the fields of a line. The first word says what the line does.
#[tactic(auto, using(crate::proofs::LineTexts::other_word))]
fn parse_fields(alloc: Global, fields: &[&str]) -> Result<Line, LineError>
    ensures ok { IfOk result (λ line. AreLineFields line (map (λ field. field.now) fields.now)) }
    ensures form { result ≡ Err Form → (line : lines.Line)
        → ¬ AreLineFields line (map (λ field. field.now) fields.now) }
{
    let Some((word, fields)) = fields.split_first() else {
        return Err(LineError::Form);
    };
    match *word {
        "open" => parse_open(alloc, fields),
        "add" => parse_add(alloc, fields),
        "keys" => parse_new_keys(alloc, fields),
        "drop" => parse_drop_keys(alloc, fields),
        "remove" => parse_remove(alloc, fields),
        "policy" => parse_policy(alloc, fields),
        "request" => parse_request(alloc, fields),
        "restart" => parse_restart(fields),
        _ => Err(LineError::Form),
    }
}

fn ascii_text(octets: &[u8]) -> Option<&str>
    ensures some { IfSome result (λ text. (text.now ≡ octets.now) × All (λ o. o < 128) octets.now) }
    ensures none { IfNone result (¬ All (λ o. o < 128) octets.now) }
{
    if octets.is_ascii() {
        str::from_utf8(octets).ok()
    } else {
        None
    }
}

fn parse_open(alloc: Global, fields: &[&str]) -> Result<Line, LineError>
    ensures ok { IfOk result (λ line. AreLineFields line (codes "open" ∷ map (λ field. field.now) fields.now)) }
    ensures form { result ≡ Err Form → (line : lines.Line)
        → ¬ AreLineFields line (codes "open" ∷ map (λ field. field.now) fields.now) }
{
    let [
        realm_text,
        remembered,
        lock_after,
        lock_seconds,
        life,
        renewable,
        keys_text,
    ] = fields
    else {
        return Err(LineError::Form);
    };
    let Some(limits) = limits([remembered, lock_after, lock_seconds, life, renewable]) else {
        return Err(LineError::Form);
    };
    Ok(Line::Open {
        realm: realm(alloc, realm_text)?,
        limits,
        krbtgt_keys: keys(alloc, keys_text)?,
    })
}

fn parse_add(alloc: Global, fields: &[&str]) -> Result<Line, LineError>
    ensures ok { IfOk result (λ line. AreLineFields line (codes "add" ∷ map (λ field. field.now) fields.now)) }
    ensures form { result ≡ Err Form → (line : lines.Line)
        → ¬ AreLineFields line (codes "add" ∷ map (λ field. field.now) fields.now) }
{
    let [name_text, keys_text] = fields else {
        return Err(LineError::Form);
    };
    Ok(Line::Change {
        name: name(alloc, name_text)?,
        what: LineChange::Add(keys(alloc, keys_text)?),
    })
}

fn parse_new_keys(alloc: Global, fields: &[&str]) -> Result<Line, LineError>
    ensures ok { IfOk result (λ line. AreLineFields line (codes "keys" ∷ map (λ field. field.now) fields.now)) }
    ensures form { result ≡ Err Form → (line : lines.Line)
        → ¬ AreLineFields line (codes "keys" ∷ map (λ field. field.now) fields.now) }
{
    let [name_text, keys_text] = fields else {
        return Err(LineError::Form);
    };
    Ok(Line::Change {
        name: name(alloc, name_text)?,
        what: LineChange::NewKeys(keys(alloc, keys_text)?),
    })
}

fn parse_drop_keys(alloc: Global, fields: &[&str]) -> Result<Line, LineError>
    ensures ok { IfOk result (λ line. AreLineFields line (codes "drop" ∷ map (λ field. field.now) fields.now)) }
    ensures form { result ≡ Err Form → (line : lines.Line)
        → ¬ AreLineFields line (codes "drop" ∷ map (λ field. field.now) fields.now) }
{
    let [name_text, version_text] = fields else {
        return Err(LineError::Form);
    };
    let Some(version) = number_u32(version_text) else {
        return Err(LineError::Form);
    };
    Ok(Line::Change {
        name: name(alloc, name_text)?,
        what: LineChange::DropKeys(version),
    })
}

fn parse_remove(alloc: Global, fields: &[&str]) -> Result<Line, LineError>
    ensures ok { IfOk result (λ line. AreLineFields line (codes "remove" ∷ map (λ field. field.now) fields.now)) }
    ensures form { result ≡ Err Form → (line : lines.Line)
        → ¬ AreLineFields line (codes "remove" ∷ map (λ field. field.now) fields.now) }
{
    let [name_text] = fields else {
        return Err(LineError::Form);
    };
    Ok(Line::Change {
        name: name(alloc, name_text)?,
        what: LineChange::Remove,
    })
}

fn parse_policy(alloc: Global, fields: &[&str]) -> Result<Line, LineError>
    ensures ok { IfOk result (λ line. AreLineFields line (codes "policy" ∷ map (λ field. field.now) fields.now)) }
    ensures form { result ≡ Err Form → (line : lines.Line)
        → ¬ AreLineFields line (codes "policy" ∷ map (λ field. field.now) fields.now) }
{
    let [name_text, setting_text] = fields else {
        return Err(LineError::Form);
    };
    let Some(setting) = Setting::parse(setting_text) else {
        return Err(LineError::Form);
    };
    Ok(Line::Change {
        name: name(alloc, name_text)?,
        what: LineChange::Set(setting),
    })
}

fn parse_request(alloc: Global, fields: &[&str]) -> Result<Line, LineError>
    ensures ok { IfOk result (λ line. AreLineFields line (codes "request" ∷ map (λ field. field.now) fields.now)) }
    ensures form { result ≡ Err Form → (line : lines.Line)
        → ¬ AreLineFields line (codes "request" ∷ map (λ field. field.now) fields.now) }
{
    let [sec, usec, random_text, room, octets_text] = fields else {
        return Err(LineError::Form);
    };
    let Some(at) = moment(sec, usec) else {
        return Err(LineError::Form);
    };
    let Some(random) = random(random_text) else {
        return Err(LineError::Form);
    };
    let Some(room) = number_u32(room) else {
        return Err(LineError::Form);
    };
    Ok(Line::Request(LineRequest {
        at,
        random,
        room,
        octets: octets(alloc, octets_text)?,
    }))
}

fn parse_restart(fields: &[&str]) -> Result<Line, LineError>
    ensures ok { IfOk result (λ line. AreLineFields line (codes "restart" ∷ map (λ field. field.now) fields.now)) }
    ensures form { result ≡ Err Form → (line : lines.Line)
        → ¬ AreLineFields line (codes "restart" ∷ map (λ field. field.now) fields.now) }
{
    let [sec] = fields else {
        return Err(LineError::Form);
    };
    let Some(at) = moment(sec, "0") else {
        return Err(LineError::Form);
    };
    Ok(Line::Restart { at })
}
