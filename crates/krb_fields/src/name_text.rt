//! The text of names, as in commands and files: `krbtgt/A.B`.
//!
//! Components are separated by `/`. The bytes 21 to 7E (hexadecimal) are written as they are, except `/`, `\` and `@`.
//! Those three and all other bytes are written as `\` and two lowercase hexadecimal digits. Nothing else is accepted,
//! so each name has exactly one text.
ghost use Rattle.std.specs.Prelude.{◌≡◌, ◌≢◌, ◌<◌, ◌++◌, ◌∷◌, [], ℕ, List, false, IfOk, IfSome, IfNone, OnOk};
ghost use Rattle.std.specs.Prelude.{MatchResult};
ghost use Rattle.std.specs.List.{list_all};
ghost use Rattle.std.specs.Str.{IsAscii};
ghost use Rattle.std.specs.Prelude.{string_bytes};
ghost use Rattle.krb_fields.specs.Name.{Components};
ghost use Rattle.krb_fields.specs.NameLimits.{IsWithinLimits};
ghost use Rattle.krb_fields.specs.NameText.{is_plain, hex_digit, digits_of, octet_text, component_text, text_of};
ghost use Rattle.krb_fields.specs.NameText.{IsComponentText, IsNameText};
ghost use Rattle.krb_fields.specs.declared.name_text.NameFault.TheVariants.{Memory};

use crate::Name;
use crate::name_limits::{MAX_COMPONENTS, MAX_OCTETS};
use crate::numbers::NT_PRINCIPAL;
use krb_elements::{KerberosString, Seq};
use std::alloc::{AllocError, AllocFailed, Global};
use std::error::Error;
use std::fmt;

/// The bytes that are reserved for a name's text. A longer text gets more.
const USUAL_TEXT: usize = 32;

/// The reason why a text is not a name, a component of one, or a realm.
#[derive(Clone, Copy, Debug, PartialEq, Eq)]
pub enum NameFault {
    /// The text is not a name, a component or a realm, or it exceeds the limits.
    BadName,
    /// Memory ran out.
    Memory,
}

impl fmt::Display for NameFault {
    fn fmt<W: fmt::Write>(&self, f: &mut fmt::Formatter<W>) -> fmt::Result {
        f.write_str(match self {
            NameFault::BadName => "the text is not a name or a realm, or it exceeds the limits",
            NameFault::Memory => "out of memory",
        })
    }
}

impl Error for NameFault {}

impl From<AllocError> for NameFault {
    ghost from_gives = { λ _ fault. fault ≡ Memory };

    fn from(_error: AllocError) -> NameFault {
        NameFault::Memory
    }
}

impl<T: Drop> From<AllocFailed<T>> for NameFault {
    ghost from_gives = { λ _ fault. fault ≡ Memory };

    fn from(_error: AllocFailed<T>) -> NameFault {
        NameFault::Memory
    }
}

impl Name {
    /// Reads a name within the limits. It gets name-type 1.
    ///
    /// Fails with `BadName` if the text is not that of such a name.
    pub fn from_text(alloc: Global, text: &str) -> Result<Name, NameFault>
        // Promise (ok, name_type, read): a text is read exactly if it is the text of a name within the limits, with
        // name-type 1.
        ensures ok { IfOk result (λ name. IsNameText name.components text.now) }
        ensures name_type { IfOk result (λ name. name.name_type ≡ NT_PRINCIPAL) }
        ensures read { (n : Components) → IsNameText n text.now
            → MatchResult result (λ name. name.components ≡ n) (λ fault. fault ≡ Memory) }
    {
        let components = components_from_text(alloc, text)?;
        Ok(Name {
            name_type: NT_PRINCIPAL,
            components,
        })
    }

    /// Returns the text of the name's components.
    pub fn to_text(&self, alloc: Global) -> Result<String, AllocError>
        // Promise (text, own): a name is written as its text, and no other name within the limits has that text.
        ensures text { IfOk result (λ text. string_bytes text ≡ text_of self.now.components) }

        // No other name within the limits has this text.
        ensures own { IfOk result (λ text. IsWithinLimits self.now.components → (n : Components)
            → IsNameText n (string_bytes text) → n ≡ self.now.components) }
    {
        let mut text = Vec::with_capacity(alloc, USUAL_TEXT)?;
        self.push_text(&mut text)?;
        Ok(ascii_text(text))
    }

    /// Appends the text of the name's components.
    pub fn push_text(&self, text: &mut Vec<u8>) -> Result<(), AllocError>
        // Promise, as Name::to_text: a name is written ..
        ensures text { OnOk result (text.new.items ≡ text.old.items ++ text_of self.now.components) }
        ensures ascii { OnOk result (IsAscii (text_of self.now.components)) }
    {
        for (i, component) in self.components.as_slice().iter().enumerate() {
            if i > 0 {
                text.push(b'/')?;
            }
            push_component(text, component.as_slice())?;
        }
        Ok(())
    }
}

/// Reads a component within the limits, or a realm, whose text is like that of one component.
pub fn component_from_text(alloc: Global, text: &str) -> Result<KerberosString, NameFault>
    // Promise (ok, read): the text of a single component, or of a realm, is read and written in the same way.
    ensures ok { IfOk result (λ octets. IsComponentText octets text.now) }
    ensures read { (c : List ℕ) → IsComponentText c text.now
        → MatchResult result (λ octets. octets ≡ c) (λ fault. fault ≡ Memory) }
{
    let mut octets = Vec::new(alloc);
    let mut rest = text.as_bytes();
    while !rest.is_empty() {
        let Some((octet, after)) = split_octet(rest) else {
            return Err(NameFault::BadName);
        };
        if octets.len() == MAX_OCTETS {
            return Err(NameFault::BadName);
        }
        octets.push(octet)?;
        rest = after;
    }
    if octets.is_empty() {
        return Err(NameFault::BadName);
    }
    Ok(KerberosString::new(octets))
}

/// Returns the text of a component or a realm.
pub fn component_to_text(alloc: Global, octets: &[u8]) -> Result<String, AllocError>
    // Promise, as component_from_text: the text of a ..
    ensures { IfOk result (λ text. string_bytes text ≡ component_text octets.now) }
{
    let mut text = Vec::new(alloc);
    push_component(&mut text, octets)?;
    Ok(ascii_text(text))
}

fn components_from_text(alloc: Global, text: &str) -> Result<Seq<KerberosString>, NameFault>
    ensures ok { IfOk result (λ components. IsNameText components text.now) }
    ensures read { (n : Components) → IsNameText n text.now
        → MatchResult result (λ components. components ≡ n) (λ fault. fault ≡ Memory) }
{
    let mut components = Seq::new(alloc);
    for part in text.split('/') {
        if components.len() == MAX_COMPONENTS {
            return Err(NameFault::BadName);
        }
        components.push(component_from_text(alloc, part)?)?;
    }
    Ok(components)
}

/// Splits off the first byte that a text spells.
fn split_octet(text: &[u8]) -> Option<(u8, &[u8])>
    ensures found { IfSome result (λ split. octet_text split.0 ++ split.1.now ≡ text.now) }
    ensures none { IfNone result ((o : ℕ) (rest : List ℕ) → o < 256
        → octet_text o ++ rest ≢ text.now) }
{
    let (first, rest) = text.split_first()?;
    if *first == b'\\' {
        split_digits(rest)
    } else if is_plain(*first) {
        Some((*first, rest))
    } else {
        None
    }
}

/// Splits two leading digits off a text, and returns the byte that they spell.
fn split_digits(text: &[u8]) -> Option<(u8, &[u8])>
    ensures found { IfSome result (λ split.
        (is_plain split.0 ≡ false) × (digits_of split.0 ++ split.1.now ≡ text.now)) }
    ensures none { IfNone result ((o : ℕ) (rest : List ℕ) → o < 256 → is_plain o ≡ false
        → digits_of o ++ rest ≢ text.now) }
{
    let [high, low, rest @ ..] = text else {
        return None;
    };
    Some((spelled_octet(*high, *low)?, rest))
}

/// Returns the byte that these digits spell, if it must be written in digits.
fn spelled_octet(high: u8, low: u8) -> Option<u8>
    ensures found { IfSome result (λ octet. (is_plain octet ≡ false) × (digits_of octet ≡ high ∷ low ∷ [])) }
    ensures none { IfNone result ((o : ℕ) → o < 256 → is_plain o ≡ false → digits_of o ≢ high ∷ low ∷ []) }
{
    let octet = digit_value(high)? * 16 + digit_value(low)?;
    (!is_plain(octet)).then_some(octet)
}

fn digit_value(digit: u8) -> Option<u8>
    ensures found { IfSome result (λ value. (value < 16) × (hex_digit value ≡ digit)) }
    ensures none { IfNone result ((v : ℕ) → v < 16 → hex_digit v ≢ digit) }
{
    match digit {
        b'0'..=b'9' => Some(digit - b'0'),
        b'a'..=b'f' => Some(digit - b'a' + 10),
        _ => None,
    }
}

/// Appends the text of a component.
fn push_component(text: &mut Vec<u8>, octets: &[u8]) -> Result<(), AllocError>
    ensures text { OnOk result (text.new.items ≡ text.old.items ++ component_text octets.now) }
    ensures ascii { IsAscii (component_text octets.now) }
{
    if are_plain(octets) {
        text.extend_from_slice(octets)
    } else {
        push_octets(text, octets)
    }
}

fn are_plain(octets: &[u8]) -> bool
    ensures { result ≡ list_all is_plain octets.now }
{
    octets.iter().all(|octet| is_plain(*octet))
}

/// Appends the text of a component, byte by byte.
fn push_octets(text: &mut Vec<u8>, octets: &[u8]) -> Result<(), AllocError>
    ensures { OnOk result (text.new.items ≡ text.old.items ++ component_text octets.now) }
{
    for octet in octets {
        push_octet(text, *octet)?;
    }
    Ok(())
}

fn push_octet(text: &mut Vec<u8>, octet: u8) -> Result<(), AllocError>
    ensures { OnOk result (text.new.items ≡ text.old.items ++ octet_text octet) }
{
    if is_plain(octet) {
        text.push(octet)?;
        return Ok(());
    }
    text.push(b'\\')?;
    text.push(digit_of(octet / 16))?;
    text.push(digit_of(octet % 16))?;
    Ok(())
}

/// Returns the lowercase hexadecimal digit for a value.
fn digit_of(value: u8) -> u8
    requires { value < 16 }
    ensures { result ≡ hex_digit value }
{
    if value < 10 {
        b'0' + value
    } else {
        b'a' + (value - 10)
    }
}

/// Returns the bytes of names, which are ASCII, as text.
fn ascii_text(bytes: Vec<u8>) -> String
    requires { IsAscii bytes.items }
    ensures { string_bytes result ≡ bytes.items }
{
    match String::from_utf8(bytes) {
        Ok(text) => text,
        Err(_) => unreachable!(),
    }
}

/// Checks whether a byte is written as it is.
fn is_plain(octet: u8) -> bool
    ensures { result ≡ is_plain octet }
{
    octet.is_ascii_graphic() && octet != b'/' && octet != b'\\' && octet != b'@'
}
