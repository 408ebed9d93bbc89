//! A `krb5.conf`: its text with the files that it includes, its default realm, and the KDCs of a realm.
ghost use Rattle.std.specs.Prelude.{◌≡◌, ◌==◌, ◌<◌, ◌^◌, ◌↔◌, IfOk, IfSome, IsSome, map, option_map, slice_get};
ghost use Rattle.std.specs.Str.Parse.{IsNumeral, digits_value};
ghost use Rattle.client_files.specs.Configs.{ArePlaces, ArePlacesOf, IsDefaultRealm, IsHostPlace, IsHostText, IsNamed};
ghost use Rattle.client_files.specs.Configs.{IsPlace};
ghost use Rattle.client_files.specs.Configs.{HasPort, IsShownAs};
ghost use Rattle.krb_fields.specs.NameText.{component_text};
ghost use Rattle.krb5_conf.specs.Values.{library_values};
ghost use Rattle.std.specs.List.{after_first, before_first};

use crate::client_store::{ClientStore, PathKind};
use crate::environment::Defaults;
use crate::faults::{ClientError, StepError, at_file};
use crate::principals::{make_principal, parse_name};
use client_login::KdcPlace;
use cred_files::Principal;
use file_store::{FileError, LONGEST_FILE, read_file};
use krb_elements::KerberosString;
use krb_fields::{component_to_text, is_component};
use krb5_conf::{Included, default_realm, kdc_address, kdcs, library_settings};
use std::alloc::{AllocError, Global};
use std::marker::Model;
use text_fields::number_u32;

/// A `krb5.conf`. Contracts see its text, in which the lines of an included file replace the line that includes it.
#[derive(Drop)]
pub struct Config {
    path: String,
    text: Vec<u8>,
    /// A line for each file that was passed over.
    notes: String,
}

impl Model for Config {
    ghost use Rattle.std.specs.Prelude.{ℕ, List};

    ghost Value = { List ℕ };

    ghost view = { λ c. c.text.items };
}

/// What is wrong with a path that is included and is not UTF-8.
const PATH_NOT_UTF8: &str = "a krb5.conf includes this path, which is not UTF-8";

/// How deep files may include each other.
const MOST_DEEP: usize = 3;

/// The text of a `krb5.conf`, as it is read.
#[derive(Drop)]
struct Reading {
    text: Vec<u8>,
    notes: String,
}

impl Config {
    /// Reads the file that the environment names, or else the system's, with the files that it includes. It passes over
    /// what is not a plain file, and files that are included more than three deep; `notes` lists both.
    pub fn read<T: ClientStore>(
        alloc: Global,
        store: &mut T,
        defaults: &Defaults<'_>,
    ) -> Result<Config, ClientError>
        // Promise, as read_cache: reading a cache, a ..
        ensures unchanged { T.world store.new ≡ T.world store.old }
    {
        let path = defaults.config_path()?;
        let mut reading = Reading {
            text: Vec::new(alloc),
            notes: String::new(alloc),
        };
        push_file(alloc, store, &mut reading, path)?;
        for _ in 0..MOST_DEEP {
            reading = with_included(alloc, store, reading)?;
        }
        note_deeper(alloc, &mut reading)?;
        let Reading { text, notes } = reading;
        Ok(Config {
            path: String::from_str(alloc, path)?,
            text,
            notes,
        })
    }

    pub(crate) fn path(&self) -> &str {
        self.path.as_str()
    }

    /// Returns the first value with this tag in `[libdefaults]`.
    pub(crate) fn setting(&self, alloc: Global, tag: &str) -> Result<Option<&[u8]>, AllocError>
        ensures { IfOk result (λ value.
            option_map (λ octets. octets.now) value ≡ slice_get (library_values tag.now self.now) 0) }
    {
        let found = library_settings(alloc, &self.text, tag.as_bytes())?;
        Ok(found.first().copied())
    }

    /// Returns a line for each file that was passed over.
    pub fn notes(&self) -> &str {
        self.notes.as_str()
    }

    /// Returns the default realm.
    pub fn default_realm(&self, alloc: Global) -> Result<KerberosString, ClientError>
        // Promise, as Client::over of client_sockets: **a client is the ..
        ensures { IfOk result (λ realm. IsDefaultRealm self.now realm) }
    {
        match default_realm(alloc, &self.text)? {
            Some(realm) if is_component(realm) => Ok(KerberosString::from_slice(alloc, realm)?),
            Some(_) => Err(ClientError::new(alloc, self.path.as_str(), StepError::BadRealm)),
            None => Err(ClientError::new(alloc, self.path.as_str(), StepError::NoRealm)),
        }
    }

    /// Returns the principal that a text names: `alice@EXAMPLE.COM`, or `alice` of the default realm.
    pub fn principal(&self, alloc: Global, text: &str) -> Result<Principal, ClientError>
        // Promise, as Client::over of client_sockets: **a client is the ..
        ensures { IfOk result (λ principal. IsNamed self.now text.now principal) }
    {
        match text.split_once('@') {
            Some((name, realm)) => make_principal(alloc, text, name, realm),
            None => Ok(Principal {
                realm: self.default_realm(alloc)?,
                name: parse_name(alloc, text)?,
            }),
        }
    }

    /// Returns where the KDCs of a realm are, at least one. It looks up no name.
    pub fn kdcs(&self, alloc: Global, realm: &[u8]) -> Result<Vec<KdcPlace>, ClientError>
        // Promise, as Client::over of client_sockets: the KDCs that a ..
        ensures { IfOk result (λ places. ArePlacesOf self.now realm.now places.items) }
    {
        let places = parse_places(alloc, &kdcs(alloc, &self.text, realm)?)?;
        if !places.is_empty() {
            return Ok(places);
        }
        let realm = component_to_text(alloc, realm)?;
        let path = self.path.as_str();
        let subject = format!(in alloc; "{path}: {realm}")?;
        Err(ClientError::of(subject, StepError::NoKdc))
    }
}

fn with_included<T: ClientStore>(
    alloc: Global,
    store: &mut T,
    reading: Reading,
) -> Result<Reading, ClientError>
    ensures unchanged { T.world store.new ≡ T.world store.old }
{
    let Reading { text, notes } = reading;
    let mut whole = Reading {
        text: Vec::new(alloc),
        notes,
    };
    let lines = lines(alloc, &text)?;
    for line in &lines {
        push_line(alloc, store, &mut whole, line)?;
    }
    Ok(whole)
}

/// Splits a text at its line feeds.
fn lines(alloc: Global, text: &[u8]) -> Result<Vec<&[u8]>, AllocError> {
    text.split(|octet| *octet == b'\n').collect(alloc)
}

fn push_line<T: ClientStore>(
    alloc: Global,
    store: &mut T,
    whole: &mut Reading,
    line: &[u8],
) -> Result<(), ClientError>
    ensures unchanged { T.world store.new ≡ T.world store.old }
{
    match Included::read(line) {
        Some(Included::Folder(folder)) => {
            push_folder(alloc, store, whole, included_path(alloc, folder)?)
        }
        Some(Included::File(path)) => push_file(alloc, store, whole, included_path(alloc, path)?),
        None => push_text(alloc, whole, line),
    }
}

/// Returns the path that a line includes.
fn included_path(alloc: Global, path: &[u8]) -> Result<&str, ClientError> {
    match str::from_utf8(path) {
        Ok(path) => Ok(path),
        Err(_) => {
            let shown = component_to_text(alloc, path)?;
            Err(ClientError::of(shown, StepError::BadSetting(PATH_NOT_UTF8)))
        }
    }
}

/// Notes the lines that are included too deep. A file that includes itself ends in such a line.
fn note_deeper(alloc: Global, reading: &mut Reading) -> Result<(), AllocError> {
    for line in reading.text.split(|octet| *octet == b'\n') {
        if let Some(Included::File(path) | Included::Folder(path)) = Included::read(line) {
            let path = component_to_text(alloc, path)?;
            writeln!(
                reading.notes,
                "{path}: it is included more than {MOST_DEEP} deep, as by a file that includes itself, \
                 so it is passed over"
            )?;
        }
    }
    Ok(())
}

/// Appends a text and a line feed.
fn push_text(alloc: Global, whole: &mut Reading, text: &[u8]) -> Result<(), ClientError> {
    if whole.text.len() > LONGEST_FILE {
        let cause = StepError::File(FileError::LongFile);
        return Err(ClientError::new(alloc, "the krb5.conf with all that it includes", cause));
    }
    whole.text.extend_from_slice(text)?;
    Ok(whole.text.push(b'\n')?)
}

fn push_folder<T: ClientStore>(
    alloc: Global,
    store: &mut T,
    whole: &mut Reading,
    folder: &str,
) -> Result<(), ClientError>
    ensures unchanged { T.world store.new ≡ T.world store.old }
{
    match store.names_in(alloc, folder) {
        Ok(names) => push_files(alloc, store, whole, folder, &names),
        Err(error) => Err(ClientError::new(
            alloc,
            folder,
            StepError::File(FileError::Failed(error)),
        )),
    }
}

fn push_files<T: ClientStore>(
    alloc: Global,
    store: &mut T,
    whole: &mut Reading,
    folder: &str,
    names: &[String],
) -> Result<(), ClientError>
    ensures unchanged { T.world store.new ≡ T.world store.old }
{
    for name in names {
        if is_config_name(name.as_str()) {
            let path = format!(in alloc; "{folder}/{name}")?;
            push_file(alloc, store, whole, path.as_str())?;
        }
    }
    Ok(())
}

/// Checks whether MIT's library reads a file with this name in an included folder.
fn is_config_name(name: &str) -> bool {
    !name.starts_with('.') && (name.ends_with(".conf") || has_plain_name(name))
}

fn has_plain_name(name: &str) -> bool {
    name.bytes().all(|octet| octet.is_ascii_alphanumeric() || octet == b'-' || octet == b'_')
}

/// Appends the text of a file. It passes over what is not a plain file: opening that may wait forever.
fn push_file<T: ClientStore>(
    alloc: Global,
    store: &mut T,
    whole: &mut Reading,
    path: &str,
) -> Result<(), ClientError>
    ensures unchanged { T.world store.new ≡ T.world store.old }
{
    if let Ok(PathKind::NoFile) = store.path_kind(path) {
        let notes = &mut whole.notes;
        writeln!(
            notes,
            "{path}: it is not a file, but a folder, a device or a pipe, so it is passed over"
        )?;
        return Ok(());
    }
    let text = at_file(alloc, read_file(alloc, store, path))?;
    push_text(alloc, whole, &text)
}

/// The port of a KDC (RFC 4120, section 7.2.1).
const KDC_PORT: u16 = 88;

/// Returns where the KDCs are that texts name.
fn parse_places(alloc: Global, texts: &[&[u8]]) -> Result<Vec<KdcPlace>, AllocError>
    ensures { IfOk result (λ places. ArePlaces (map (λ text. text.now) texts.now) places.items) }
{
    let mut places = Vec::new(alloc);
    for text in texts {
        places.push(parse_place(alloc, text)?)?;
    }
    Ok(places)
}

/// Returns where the KDC is that a text names.
fn parse_place(alloc: Global, text: &[u8]) -> Result<KdcPlace, AllocError>
    ensures { IfOk result (λ place. IsPlace text.now place) }
{
    match kdc_address(alloc, text)? {
        Some(address) => KdcPlace::of_address(alloc, address),
        None => host_place(alloc, text),
    }
}

/// Returns the place of a host. A text that is not UTF-8 is no name of a host: what is shown in its place has no
/// address.
fn host_place(alloc: Global, text: &[u8]) -> Result<KdcPlace, AllocError>
    ensures { IfOk result (λ place. IsHostPlace text.now place) }
{
    let shown = component_to_text(alloc, text)?;
    let Host { name, port } = host_and_port(text_or(text, shown.as_str()));
    KdcPlace::of_host(alloc, name, port)
}

/// Returns the bytes as text if they are UTF-8, and else what is shown in their place.
fn text_or<'a>(octets: &'a [u8], shown: &'a str) -> &'a str
    requires { shown.now ≡ component_text octets.now }
    ensures { IsShownAs octets.entry.now result.now }
{
    match str::from_utf8(octets) {
        Ok(text) => text,
        Err(_) => shown,
    }
}

/// A host and a port of it.
#[derive(Clone, Copy)]
struct Host<'a> {
    name: &'a str,
    port: u16,
}

/// Returns a host's name, and the port after it, or else that of a KDC.
fn host_and_port(text: &str) -> Host<'_>
    ensures { IsHostText text.now result.name.now result.port }
{
    match host_with_port(text) {
        Some(host) => host,
        None => Host {
            name: text,
            port: KDC_PORT,
        },
    }
}

/// Returns a host's name, and the port after it; `None` if there is no port.
fn host_with_port(text: &str) -> Option<Host<'_>>
    ensures there { IsSome result ↔ HasPort text.now }
    ensures name { IfSome result (λ host. host.name.now ≡ before_first (λ b. b == 0x3A) text.now) }
    ensures port { IfSome result (λ host. host.port ≡ digits_value 10 (after_first (λ b. b == 0x3A) text.now)) }
{
    match text.split_once(':') {
        Some((name, port)) => match port_in(port) {
            Some(port) => Some(Host { name, port }),
            None => None,
        },
        None => None,
    }
}

/// Reads a port.
fn port_in(text: &str) -> Option<u16>
    ensures read { IsSome result ↔ (IsNumeral 10 text.now × (digits_value 10 text.now < 2 ^ 16)) }
    ensures value { IfSome result (λ port. port ≡ digits_value 10 text.now) }
{
    u16::try_from(number_u32(text)?).ok()
}
