//! The fields of a line: numbers, and bytes in hexadecimal.
ghost use Rattle.std.specs.Prelude.{◌≡◌, ◌==◌, map, IfOk};
ghost use Rattle.std.specs.List.{slice_split};
ghost use Rattle.hex.specs.Hex.{decode_of};
ghost use Rattle.std.specs.Prelude.{◌∷◌, [], IsTrue, ◌↔◌};
ghost use Rattle.mit_dump.specs.Fields.{IsHex, IsNumber, IsOctets, TakesNumber, TakesOctets, texts};

use crate::fault::Cause;
use hex::FromHexError;
use krb_elements::Octets;
use std::alloc::{AllocError, Global};
use std::marker::Model;
use std::str;
use text_fields::number_u32;

/// The text that stands for no bytes.
const NO_OCTETS: &[u8] = b"-1";

/// Splits a text at its line feeds.
pub(crate) fn split_lines<'a>(alloc: Global, text: &'a [u8]) -> Result<Vec<&'a [u8]>, AllocError>
    ensures { IfOk result (λ lines. map (λ line. line.now) lines.items ≡ slice_split (λ o. o == 0x0A) text.now) }
{
    text.split(|octet| *octet == b'\n').collect(alloc)
}

/// Splits a line at its tabs.
pub(crate) fn split_fields<'a>(alloc: Global, line: &'a [u8]) -> Result<Vec<&'a [u8]>, AllocError>
    ensures { IfOk result (λ fields. map (λ field. field.now) fields.items ≡ slice_split (λ o. o == 0x09) line.now) }
{
    line.split(|octet| *octet == b'\t').collect(alloc)
}

/// Reads a number from 0 to 4294967295, in decimal.
fn number(field: &[u8]) -> Result<u32, Cause>
    ensures { IfOk result (λ n. IsNumber field.now n) }
{
    let Ok(text) = str::from_utf8(field) else {
        return Err(Cause::Number);
    };
    match number_u32(text) {
        Some(number) => Ok(number),
        None => Err(Cause::Number),
    }
}

/// The fields of a line that are still to be read.
#[derive(Drop)]
pub(crate) struct Fields<'f, 'a> {
    rest: &'f [&'a [u8]],
}

impl<'f, 'a> Model for Fields<'f, 'a> {
    ghost use Rattle.std.specs.Prelude.{List};
    ghost use Rattle.mit_dump.specs.Fields.{Field, texts};

    ghost Value = { List Field };

    ghost view = { λ f. texts f.rest.now };
}

impl<'f, 'a> Fields<'f, 'a> {
    pub(crate) fn new(fields: &'f [&'a [u8]]) -> Fields<'f, 'a>
        ensures { result ≡ texts fields.now }
    {
        Fields { rest: fields }
    }

    /// Checks whether all fields were read.
    pub(crate) fn is_empty(&self) -> bool
        ensures { IsTrue result ↔ (self.now ≡ []) }
    {
        self.rest.is_empty()
    }

    /// Reads the next field.
    pub(crate) fn next(&mut self) -> Result<&'a [u8], Cause>
        ensures { IfOk result (λ field. self.old ≡ field.now ∷ self.new) }
    {
        let fields = self.rest;
        let [field, rest @ ..] = fields else {
            return Err(Cause::Count);
        };
        self.rest = rest;
        Ok(*field)
    }

    /// Reads a number from 0 to 4294967295.
    pub(crate) fn number(&mut self) -> Result<u32, Cause>
        ensures { IfOk result (λ n. TakesNumber self.old n self.new) }
    {
        number(self.next()?)
    }

    /// Reads this many bytes.
    pub(crate) fn octets(&mut self, alloc: Global, len: u32) -> Result<Octets, Cause>
        ensures { IfOk result (λ octets. TakesOctets self.old len octets self.new) }
    {
        octets(alloc, len, self.next()?)
    }
}

/// Reads this many bytes in hexadecimal, or the text that stands for none.
#[tactic(auto, using(crate::proofs::Hex::some_hex))]
pub(crate) fn octets(alloc: Global, len: u32, field: &[u8]) -> Result<Octets, Cause>
    ensures { IfOk result (λ octets. IsOctets len field.now octets) }
{
    if len == 0 {
        return no_octets(alloc, field);
    }
    let octets = decoded(alloc, field)?;
    if octets.len() != len as usize {
        return Err(Cause::Octets);
    }
    Ok(Octets::new(octets))
}

/// Reads the text that stands for no bytes.
fn no_octets(alloc: Global, field: &[u8]) -> Result<Octets, Cause>
    ensures { IfOk result (λ octets. IsOctets 0 field.now octets) }
{
    if field == NO_OCTETS {
        Ok(Octets::new(Vec::new(alloc)))
    } else {
        Err(Cause::Octets)
    }
}

/// Reads bytes in hexadecimal.
fn decoded(alloc: Global, field: &[u8]) -> Result<Vec<u8>, Cause>
    ensures { IfOk result (λ octets. decode_of field.now ≡ Ok octets.items) }
{
    match hex::decode(alloc, field) {
        Ok(octets) => Ok(octets),
        Err(FromHexError::OutOfMemory) => Err(Cause::Memory),
        Err(_) => Err(Cause::Octets),
    }
}
