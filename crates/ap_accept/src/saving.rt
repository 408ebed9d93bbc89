//! The bytes of a saved acceptor, from which a later process resumes.
ghost use Rattle.std.specs.Prelude.{◌≡◌, ◌++◌, [], IfOk, IfErr, Some};
ghost use Rattle.cred_files.specs.Reading.{Reads};
ghost use Rattle.ap_accept.specs.Saved.{check_of, held, held_in, mark, marked, resumed, Fails, IsFound, Puts, Saves};

use crate::clients::Clients;
use crate::options::AcceptorOptions;
use crate::saved::{append, put_list, put_second, put_word, take_list};
use crate::state::State;
use cred_files::{CredError, Keytab, Reader};
use principal_rows::NameMap;
use sha2::{Digest, Sha256};
use std::alloc::{AllocError, Global};

/// The text `ap-seen1`, after the check of a saved acceptor.
const MARK: u64 = 0x61702d7365656e31;

/// How many bytes the check has.
const CHECK: usize = 16;

/// What the bytes of a saved acceptor hold after their check.
#[derive(Drop)]
pub struct Held {
    /// [`MARK`]; with any other value the bytes are no saved acceptor.
    pub mark: u64,
    /// The floor of a service without an entry in `services`.
    pub floor: i64,
    /// The services, by their realms and names.
    pub services: NameMap<Clients>,
}

impl State {
    /// Returns the bytes from which a later process resumes.
    pub fn save(&self, alloc: Global) -> Result<Vec<u8>, AllocError>
        ensures { IfOk result (λ bytes. Saves self.now bytes.items) }
    {
        let text = self.text(alloc)?;
        let octets = text.as_slice();
        let check = check_of(octets);
        joined(alloc, &check, octets)
    }

    fn text(&self, alloc: Global) -> Result<Vec<u8>, AllocError>
        ensures { IfOk result (λ text. Puts held
            (record { mark = mark; floor = self.now.floor; services = self.now.services }) [] text.items) }
    {
        let mut text = Vec::new(alloc);
        put_word(&mut text, MARK)?;
        put_second(&mut text, self.floor)?;
        put_list(&mut text, self.services.entries())?;
        Ok(text)
    }

    /// Returns the state that these bytes hold, with these keys and options.
    pub fn resume(
        alloc: Global,
        keytab: Keytab,
        options: AcceptorOptions,
        bytes: &[u8],
    ) -> Result<State, CredError>
        ensures resumed { IfOk result (λ state. resumed keytab options bytes.now ≡ Some state) }
        ensures fault { IfErr result (λ fault. Fails fault (resumed keytab options bytes.now)) }
    {
        let Held {
            floor,
            services,
            ..
        } = held_in(alloc, bytes)?;
        Ok(State {
            keytab,
            options,
            floor,
            services,
        })
    }
}

fn joined(alloc: Global, first: &[u8], second: &[u8]) -> Result<Vec<u8>, AllocError>
    ensures { IfOk result (λ bytes. bytes.items ≡ first.now ++ second.now) }
{
    let mut bytes = Vec::from_slice(alloc, first)?;
    append(&mut bytes, second)?;
    Ok(bytes)
}

/// Returns what the bytes of a saved acceptor hold.
#[tactic(auto, unfolding(crate::specs::Saved::held_in))]
fn held_in(alloc: Global, bytes: &[u8]) -> Result<Held, CredError>
    ensures { IsFound result (held_in bytes.now) }
{
    let mut reader = Reader::new(bytes);
    let check = reader.read_part(CHECK)?;
    let text = reader.rest();
    if check != check_of(text).as_slice() {
        return Err(CredError::BadMagic);
    }
    marked(alloc, text)
}

fn marked(alloc: Global, text: &[u8]) -> Result<Held, CredError>
    ensures { IsFound result (marked (held text.now)) }
{
    let mut reader = Reader::new(text);
    let held = take_held(alloc, &mut reader)?;
    if held.mark != MARK || !reader.is_empty() {
        return Err(CredError::BadMagic);
    }
    Ok(held)
}

fn take_held(alloc: Global, reader: &mut Reader<'_>) -> Result<Held, CredError>
    ensures { Reads result reader.new (held reader.old) }
{
    let mark = reader.read_u64()?;
    let floor = reader.read_i64()?;
    let services = take_list(alloc, reader)?;
    Ok(Held {
        mark,
        floor,
        services: NameMap::from_entries(services)?,
    })
}

/// Returns the first bytes of the SHA-256 digest of a text.
fn check_of(text: &[u8]) -> [u8; CHECK]
    ensures { result ≡ check_of text.now }
{
    let mut hasher = Sha256::new();
    hasher.update(text);
    let digest = hasher.finalize();
    let mut check = [0; CHECK];
    check.copy_from_slice(&digest[..CHECK]);
    check
}
