//! The calls from C, as operations on a `Holder`.
ghost use Rattle.std.specs.Prelude.{◌≡◌, None, IfOk, IfErr, length};
ghost use Rattle.ap_accept_c.specs.Buffers.{texted};
ghost use Rattle.ap_accept_c.specs.Calls.{IsAccepted, IsChecked, IsClosing, IsFetched, IsNaming, IsOpening};
ghost use Rattle.ap_accept_c.specs.Calls.{IsReplacing, IsResuming};
ghost use Rattle.ap_accept_c.specs.Calls.{IsSaving, word_of_held};
ghost use Rattle.ap_accept_c.specs.Elements.{IsElement};
ghost use Rattle.ap_accept_c.specs.Exports.{opening_at, IsAcceptedAt, IsFetchPart, IsOpenAt, IsTextCall};
ghost use Rattle.ap_accept_c.specs.Holder.{IsHolder};
ghost use Rattle.ap_accept_c.specs.Part.{part_numbered};
ghost use Rattle.ap_accept_c.specs.Protection.{IsSharedKey};
ghost use Rattle.ap_accept_c.specs.Service.{IsOpened, IsOpenFault, IsResumed, IsResumeFault};

use crate::buffers::{Given, give_text};
use crate::elements::{Element, Place, element_at, give_element};
use crate::holder::Holder;
use crate::numbers::Numbers;
use crate::part::Part;
use crate::raw_key::RawKey;
use crate::service::Service;
use crate::status::Status;
use crate::texts::status_text;
use ap_accept::Opening;
use krb_fields::Moment;
use std::alloc::Global;

/// The `struct ap_time` of the header: two numbers, which name a moment or none.
#[repr(C)]
#[derive(Clone, Copy)]
pub struct Time {
    /// Whole seconds since the start of 1970; a moment has 0 to 253402300799.
    pub sec: i64,
    /// Microseconds; a moment has 0 to 999999.
    pub usec: u32,
}

/// The `struct ap_start` of the header: what C says about an acceptor that opens, besides its keys.
#[repr(C)]
#[derive(Clone, Copy)]
pub struct Start {
    /// The size of each client's replay cache, in authenticators.
    pub remembered: u32,
    /// Whether the service never ran before.
    pub is_first: bool,
    /// When it opens. It must name a moment, even if the service never ran before.
    pub time: Time,
}

/// The result of accepting an AP-REQ.
#[derive(Clone, Copy)]
pub struct Outcome {
    /// [`Status::Done`] if the AP-REQ is accepted; otherwise why not.
    pub status: Status,
    /// The numbers of the AP-REQ.
    pub numbers: Numbers,
}

/// Opens a closed acceptor at the moment that C names, if it names one.
pub fn open_service(holder: &mut Holder, alloc: Global, keytab: &[u8], start: &Start) -> Status
    requires { IsHolder holder.old }
    ensures holder { IsHolder holder.new }
    ensures opened { IsOpenAt result holder.old.held.value holder.new.held.value
        keytab.now start.now.remembered start.now.is_first start.now.time.sec start.now.time.usec }
{
    let Some(at) = Moment::new(start.time.sec, start.time.usec) else {
        return Status::BadArgument;
    };
    let opening = opening_at(start.is_first, at);
    open(holder, alloc, keytab, start.remembered, opening)
}

fn opening_at(is_first: bool, at: Moment) -> Opening
    ensures { result ≡ opening_at is_first at }
{
    if is_first {
        Opening::First
    } else {
        Opening::Restart(at)
    }
}

/// Opens a closed acceptor.
fn open(
    holder: &mut Holder,
    alloc: Global,
    keytab: &[u8],
    remembered: u32,
    opening: Opening,
) -> Status
    requires { IsHolder holder.old }
    ensures holder { IsHolder holder.new }
    ensures opened { IsOpening result holder.old.held.value holder.new.held.value keytab.now remembered opening }
{
    if holder.is_open {
        return Status::BadArgument;
    }
    match boxed(alloc, keytab, remembered, opening) {
        Ok(service) => {
            holder.put(service);
            Status::Done
        }
        Err(status) => status,
    }
}

fn boxed(
    alloc: Global,
    keytab: &[u8],
    remembered: u32,
    opening: Opening,
) -> Result<Box<Service>, Status>
    ensures opened { IfOk result (λ service. IsOpened service.value keytab.now remembered opening) }
    ensures fault { IfErr result (λ status. IsOpenFault status keytab.now remembered) }
{
    let service = Service::open(alloc, keytab, remembered, opening)?;
    match Box::new(alloc, service) {
        Ok(service) => Ok(service),
        Err(_) => Err(Status::NoMemory),
    }
}

/// Opens a closed acceptor, which goes on with what another one saved.
pub fn resume(
    holder: &mut Holder,
    alloc: Global,
    keytab: &[u8],
    remembered: u32,
    saved: &[u8],
) -> Status
    requires { IsHolder holder.old }
    ensures holder { IsHolder holder.new }
    ensures resumed { IsResuming result holder.old.held.value holder.new.held.value keytab.now remembered saved.now }
{
    if holder.is_open {
        return Status::BadArgument;
    }
    match boxed_again(alloc, keytab, remembered, saved) {
        Ok(service) => {
            holder.put(service);
            Status::Done
        }
        Err(status) => status,
    }
}

fn boxed_again(
    alloc: Global,
    keytab: &[u8],
    remembered: u32,
    saved: &[u8],
) -> Result<Box<Service>, Status>
    ensures resumed { IfOk result (λ service. IsResumed service.value keytab.now remembered saved.now) }
    ensures fault { IfErr result (λ status. IsResumeFault status keytab.now remembered saved.now) }
{
    let service = Service::resume(alloc, keytab, remembered, saved)?;
    match Box::new(alloc, service) {
        Ok(service) => Ok(service),
        Err(_) => Err(Status::NoMemory),
    }
}

/// Copies the bytes from which a later process resumes.
pub fn save(holder: &mut Holder, alloc: Global, to: &mut [u8]) -> Given
    requires { IsHolder holder.old }
    ensures holder { IsHolder holder.new × (holder.new.held.value ≡ holder.old.held.value) }
    ensures saved { IsSaving result.status holder.old.held.value to.old to.new result.len }
{
    let Some(service) = holder.take(alloc) else {
        return Given::none(Status::Closed);
    };
    let given = service.save(alloc, to);
    holder.put(service);
    given
}

/// Replaces the keys of an open acceptor. Its replay caches stay.
pub fn replace_keytab(holder: &mut Holder, alloc: Global, keytab: &[u8]) -> Status
    requires { IsHolder holder.old }
    ensures holder { IsHolder holder.new }
    ensures replaced { IsReplacing result holder.old.held.value holder.new.held.value keytab.now }
{
    let Some(mut service) = holder.take(alloc) else {
        return Status::Closed;
    };
    let status = service.replace_keytab(alloc, keytab);
    holder.put(service);
    status
}

/// Accepts from now on for the service of this name alone, or, if the text is empty, for each of the keytab.
pub fn name(holder: &mut Holder, alloc: Global, text: &[u8]) -> Status
    requires { IsHolder holder.old }
    ensures holder { IsHolder holder.new }
    ensures named { IsNaming result holder.old.held.value holder.new.held.value text.now }
{
    let Some(mut service) = holder.take(alloc) else {
        return Status::Closed;
    };
    let status = service.name(alloc, text);
    holder.put(service);
    status
}

/// Accepts the bytes of an AP-REQ at the moment that C names, or returns the reason to refuse it.
pub fn accept_request(
    holder: &mut Holder,
    alloc: Global,
    time: Time,
    confounder: &[u8; 16],
    ap_req: &[u8],
) -> Outcome
    requires { IsHolder holder.old }
    ensures holder { IsHolder holder.new }
    ensures accepted { IsAcceptedAt result.status holder.old.held.value holder.new.held.value
        time.sec time.usec confounder.now ap_req.now result.numbers }
{
    let Some(at) = Moment::new(time.sec, time.usec) else {
        return Outcome {
            status: Status::BadArgument,
            numbers: Numbers::NONE,
        };
    };
    accept(holder, alloc, at, confounder, ap_req)
}

fn accept(
    holder: &mut Holder,
    alloc: Global,
    at: Moment,
    confounder: &[u8; 16],
    ap_req: &[u8],
) -> Outcome
    requires { IsHolder holder.old }
    ensures holder { IsHolder holder.new }
    ensures accepted { IsAccepted result.status holder.old.held.value holder.new.held.value
        at confounder.now ap_req.now result.numbers }
{
    let Some(mut service) = holder.take(alloc) else {
        return Outcome {
            status: Status::Closed,
            numbers: Numbers::NONE,
        };
    };
    let status = service.accept(alloc, at, confounder, ap_req);
    let numbers = Numbers::of(&service.last);
    holder.put(service);
    Outcome { status, numbers }
}

/// Copies a part, given by its number, of the last AP-REQ.
pub fn fetch_numbered(holder: &mut Holder, alloc: Global, part: u32, to: &mut [u8]) -> Given
    requires { IsHolder holder.old }
    ensures holder { IsHolder holder.new × (holder.new.held.value ≡ holder.old.held.value) }
    ensures fetched { IsFetchPart result.status (part_numbered part) holder.old.held.value to.old to.new result.len }
{
    let Some(part) = Part::numbered(part) else {
        return Given::none(Status::BadArgument);
    };
    fetch(holder, alloc, part, to)
}

fn fetch(holder: &mut Holder, alloc: Global, part: Part, to: &mut [u8]) -> Given
    requires { IsHolder holder.old }
    ensures holder { IsHolder holder.new × (holder.new.held.value ≡ holder.old.held.value) }
    ensures fetched { IsFetched result.status holder.old.held.value part to.old to.new result.len }
{
    let Some(service) = holder.take(alloc) else {
        return Given::none(Status::Closed);
    };
    let given = service.fetch(alloc, part, to);
    holder.put(service);
    given
}

/// Copies an element of the authorization data of what was accepted.
pub fn fetch_element(holder: &mut Holder, alloc: Global, place: Place, to: &mut [u8]) -> Element
    requires { IsHolder holder.old }
    ensures holder { IsHolder holder.new × (holder.new.held.value ≡ holder.old.held.value) }
    ensures fetched { IsElement result.given.status holder.old.held.value place
        to.old to.new result.given.len result.number }
{
    let Some(service) = holder.take(alloc) else {
        return Element::none(Status::Closed);
    };
    let found = give_element(element_at(&service.last, place), to);
    holder.put(service);
    found
}

/// Checks the authenticator's checksum over these bytes.
pub fn check(holder: &mut Holder, alloc: Global, octets: &[u8]) -> Status
    requires { IsHolder holder.old }
    ensures holder { IsHolder holder.new × (holder.new.held.value ≡ holder.old.held.value) }
    ensures checked { IsChecked result holder.old.held.value octets.now }
{
    let Some(service) = holder.take(alloc) else {
        return Status::Closed;
    };
    let status = service.last.check(octets);
    holder.put(service);
    status
}

/// Copies the key that the service shares with the client that it accepted last.
pub fn shared_key(holder: &mut Holder, alloc: Global, key: &mut RawKey) -> Status
    requires { IsHolder holder.old }
    ensures holder { IsHolder holder.new × (holder.new.held.value ≡ holder.old.held.value) }
    ensures given { IsSharedKey result holder.old.held.value key.old key.new }
{
    let Some(service) = holder.take(alloc) else {
        return Status::Closed;
    };
    let status = service.last.give_key(key);
    holder.put(service);
    status
}

/// Writes the name of the rule that refused the last AP-REQ, and a NUL. Returns the length of the name, 0 if there is
/// none.
pub fn rule(holder: &mut Holder, alloc: Global, to: &mut [u8]) -> usize
    requires { IsHolder holder.old }
    ensures holder { IsHolder holder.new × (holder.new.held.value ≡ holder.old.held.value) }
    ensures given { to.new ≡ texted (word_of_held holder.old.held.value) to.old }
    ensures len { result ≡ length (word_of_held holder.old.held.value) }
{
    let Some(service) = holder.take(alloc) else {
        return give_text(b"", to);
    };
    let word = service.last.word();
    holder.put(service);
    give_text(word.as_bytes(), to)
}

/// Writes the text for a status number, and a NUL. Returns the length of the whole text.
pub fn text(holder: &mut Holder, alloc: Global, number: i32, to: &mut [u8]) -> usize
    requires { IsHolder holder.old }
    ensures holder { IsHolder holder.new × (holder.new.held.value ≡ holder.old.held.value) }
    ensures text { IsTextCall result to.old to.new }
{
    let Some(service) = holder.take(alloc) else {
        return give_text(status_text(number).as_bytes(), to);
    };
    let text = service.status_text(number);
    holder.put(service);
    give_text(text.as_bytes(), to)
}

/// Closes an acceptor and frees its replay caches.
pub fn close(holder: &mut Holder, alloc: Global) -> Status
    requires { IsHolder holder.old }
    ensures holder { IsHolder holder.new × (holder.new.held.value ≡ None) }
    ensures closed { IsClosing result holder.old.held.value }
{
    match holder.take(alloc) {
        Some(_) => Status::Done,
        None => Status::Closed,
    }
}
