//! The functions that `docs/ap_accept.c` calls, which has those of the header. In C a slice is a pointer and a length,
//! and an allocator is nothing.
//!
//! Null pointers and lengths above PTRDIFF_MAX can't be checked here; the callers check for them.
ghost use Rattle.std.specs.Prelude.{◌≡◌, None, length};
ghost use Rattle.ap_accept_c.specs.Buffers.{texted};
ghost use Rattle.ap_accept_c.specs.Calls.{word_of_held};
ghost use Rattle.ap_accept_c.specs.Exports.{IsAcceptCall, IsCheckCall, IsCloseCall, IsElementCall, IsFetchCall};
ghost use Rattle.ap_accept_c.specs.Exports.{IsNameCall, IsOpenCall, IsReplaceCall, IsResumeCall, IsSaveCall};
ghost use Rattle.ap_accept_c.specs.Exports.{IsTextCall};
ghost use Rattle.ap_accept_c.specs.Exports.{IsChecksumCall, IsKeyCall, IsSealCall, IsUnsealCall, IsVerifyCall};
ghost use Rattle.ap_accept_c.specs.Holder.{IsHolder};

use crate::calls::{Start, Time};
use crate::elements::Place;
use crate::holder::Holder;
use crate::numbers::Numbers;
use crate::protection::Sealing;
use crate::raw_key::RawKey;
use crate::{calls, protection};
use std::alloc::Global;

/// The AP_VERSION of the header. The names of these functions have it too, so that a program that was compiled with an
/// older header is not linked.
const VERSION: u32 = 3;

/// The type and the length of an element.
#[repr(C)]
#[derive(Clone, Copy)]
pub struct Found {
    /// Its type.
    pub number: i32,
    /// The number of its bytes.
    pub len: usize,
}

/// Opens a closed acceptor with the bytes of a keytab.
#[unsafe(no_mangle)]
pub extern "C" fn ap_accept_c_v3_open(
    alloc: Global,
    holder: &mut Holder,
    keytab: &[u8],
    start: &Start,
) -> i32
    requires { IsHolder holder.old }
    ensures holder { IsHolder holder.new }
    // Promise: in C: an acceptor that is opened, or resumes, in the caller's struct has the keys of the keytab that the
    // bytes encode.
    // Promise: in C: bytes are refused only if they are no keytab.
    ensures opened { IsOpenCall result holder.old.held.value holder.new.held.value
        keytab.now start.now.remembered start.now.is_first start.now.time.sec start.now.time.usec }
{
    calls::open_service(holder, alloc, keytab, start).number()
}

/// Opens a closed acceptor with the bytes of a keytab, to go on with what another one saved.
#[unsafe(no_mangle)]
pub extern "C" fn ap_accept_c_v3_resume(
    alloc: Global,
    holder: &mut Holder,
    keytab: &[u8],
    saved: &[u8],
    remembered: u32,
) -> i32
    requires { IsHolder holder.old }
    ensures holder { IsHolder holder.new }
    // Promise, as ap_accept_c_v3_open: in C: an acceptor ..
    // Promise, as ap_accept_c_v3_open: in C: bytes are ..
    ensures resumed { IsResumeCall result holder.old.held.value holder.new.held.value keytab.now remembered saved.now }
{
    calls::resume(holder, alloc, keytab, remembered, saved).number()
}

/// Copies the bytes from which a later process resumes, and sets `len` to their number.
#[unsafe(no_mangle)]
pub extern "C" fn ap_accept_c_v3_save(
    alloc: Global,
    holder: &mut Holder,
    to: &mut [u8],
    len: &mut usize,
) -> i32
    requires { IsHolder holder.old }
    // Promise (holder, saved): in C: what is saved is copied to the buffer.
    ensures holder { IsHolder holder.new × (holder.new.held.value ≡ holder.old.held.value) }
    ensures saved { IsSaveCall result holder.old.held.value to.old to.new len.new }
{
    let given = calls::save(holder, alloc, to);
    *len = given.len;
    given.status.number()
}

/// Replaces the keys of an open acceptor with those in the bytes of a keytab.
#[unsafe(no_mangle)]
pub extern "C" fn ap_accept_c_v3_replace_keytab(
    alloc: Global,
    holder: &mut Holder,
    keytab: &[u8],
) -> i32
    requires { IsHolder holder.old }
    ensures holder { IsHolder holder.new }
    // Promise: in C: an acceptor whose keys are replaced has the keys of the keytab that the bytes encode, and nothing
    // else changes.
    // Promise, as ap_accept_c_v3_open: in C: bytes are ..
    ensures replaced { IsReplaceCall result holder.old.held.value holder.new.held.value keytab.now }
{
    calls::replace_keytab(holder, alloc, keytab).number()
}

/// Accepts from now on for the service of this name alone, or, if the text is empty, for each of the keytab.
#[unsafe(no_mangle)]
pub extern "C" fn ap_accept_c_v3_name(alloc: Global, holder: &mut Holder, text: &[u8]) -> i32
    requires { IsHolder holder.old }
    ensures holder { IsHolder holder.new }
    // Promise: in C: an acceptor that is given a service's name accepts for this service alone, and for each of the
    // keytab if the text is empty; the status says whether it does, or why not.
    ensures named { IsNameCall result holder.old.held.value holder.new.held.value text.now }
{
    calls::name(holder, alloc, text).number()
}

/// Accepts the bytes of an AP-REQ, or returns the code of the rule that refuses them.
#[unsafe(no_mangle)]
pub extern "C" fn ap_accept_c_v3_accept(
    alloc: Global,
    holder: &mut Holder,
    time: &Time,
    confounder: &[u8; 16],
    ap_req: &[u8],
    numbers: &mut Numbers,
) -> i32
    requires { IsHolder holder.old }
    ensures holder { IsHolder holder.new }
    // Promise: in C: the returned status, the replay caches afterwards and the numbers that are given are those that
    // the rules prescribe; nothing changes if memory runs out.
    ensures accepted { IsAcceptCall result holder.old.held.value holder.new.held.value
        time.now.sec time.now.usec confounder.now ap_req.now numbers.new }
{
    let outcome = calls::accept_request(holder, alloc, *time, confounder, ap_req);
    *numbers = outcome.numbers;
    outcome.status.number()
}

/// Copies a part of the last AP-REQ, and sets `len` to its length.
#[unsafe(no_mangle)]
pub extern "C" fn ap_accept_c_v3_octets(
    alloc: Global,
    holder: &mut Holder,
    part: u32,
    to: &mut [u8],
    len: &mut usize,
) -> i32
    requires { IsHolder holder.old }
    // Promise (holder, fetched): in C: the requested part, also of a refused AP-REQ, is copied to the buffer, and its
    // length is returned.
    ensures holder { IsHolder holder.new × (holder.new.held.value ≡ holder.old.held.value) }
    ensures fetched { IsFetchCall result holder.old.held.value part to.old to.new len.new }
{
    let given = calls::fetch_numbered(holder, alloc, part, to);
    *len = given.len;
    given.status.number()
}

/// Closes an acceptor and frees its replay caches.
#[unsafe(no_mangle)]
pub extern "C" fn ap_accept_c_v3_close(alloc: Global, holder: &mut Holder) -> i32
    requires { IsHolder holder.old }
    // Promise (holder, closed): in C: closing leaves no acceptor, and returns whether there was one; a struct that was
    // opened, or is zero, stays one that each call may be given.
    ensures holder { IsHolder holder.new × (holder.new.held.value ≡ None) }
    ensures closed { IsCloseCall result holder.old.held.value }
{
    calls::close(holder, alloc).number()
}

/// Returns the version of the library.
#[unsafe(no_mangle)]
pub extern "C" fn ap_accept_c_v3_version() -> u32
    ensures { result ≡ 3 }
{
    VERSION
}

/// Writes the name of the rule that refused the last AP-REQ to a buffer, and returns its length.
#[unsafe(no_mangle)]
pub extern "C" fn ap_accept_c_v3_rule(alloc: Global, holder: &mut Holder, to: &mut [u8]) -> usize
    requires { IsHolder holder.old }
    ensures holder { IsHolder holder.new × (holder.new.held.value ≡ holder.old.held.value) }
    // Promise (given, len): in C: the buffer gets the name of the rule that refused; the text is cut to fit, and ends
    // with a NUL.
    ensures given { to.new ≡ texted (word_of_held holder.old.held.value) to.old }
    ensures len { result ≡ length (word_of_held holder.old.held.value) }
{
    calls::rule(holder, alloc, to)
}

/// Writes the text for a status to a buffer, and returns its length.
#[unsafe(no_mangle)]
pub extern "C" fn ap_accept_c_v3_text(
    alloc: Global,
    holder: &mut Holder,
    number: i32,
    to: &mut [u8],
) -> usize
    requires { IsHolder holder.old }
    ensures holder { IsHolder holder.new × (holder.new.held.value ≡ holder.old.held.value) }
    // Promise, as ap_accept_c_v3_rule: in C: the buffer ..
    ensures text { IsTextCall result to.old to.new }
{
    calls::text(holder, alloc, number, to)
}

/// Copies an element of the authorization data of what was accepted.
#[unsafe(no_mangle)]
pub extern "C" fn ap_accept_c_v3_element(
    alloc: Global,
    holder: &mut Holder,
    place: &Place,
    to: &mut [u8],
    found: &mut Found,
) -> i32
    requires { IsHolder holder.old }
    // Promise (holder, fetched), as ap_accept_c_v3_octets: in C: the requested ..
    ensures holder { IsHolder holder.new × (holder.new.held.value ≡ holder.old.held.value) }
    ensures fetched { IsElementCall result holder.old.held.value place.now to.old to.new found.new }
{
    let element = calls::fetch_element(holder, alloc, *place, to);
    *found = Found {
        number: element.number,
        len: element.given.len,
    };
    element.given.status.number()
}

/// Checks the authenticator's checksum over these bytes.
#[unsafe(no_mangle)]
pub extern "C" fn ap_accept_c_v3_check(alloc: Global, holder: &mut Holder, octets: &[u8]) -> i32
    requires { IsHolder holder.old }
    ensures holder { IsHolder holder.new × (holder.new.held.value ≡ holder.old.held.value) }
    // Promise: in C: the status says whether the authenticator's checksum is that of these bytes.
    ensures checked { IsCheckCall result holder.old.held.value octets.now }
{
    calls::check(holder, alloc, octets).number()
}

/// Copies the key that the service shares with the client that it accepted last.
#[unsafe(no_mangle)]
pub extern "C" fn ap_accept_c_v3_key(alloc: Global, holder: &mut Holder, key: &mut RawKey) -> i32
    requires { IsHolder holder.old }
    // Promise (holder, given): in C: the key that is copied is the one that is shared with the client that was accepted
    // last.
    ensures holder { IsHolder holder.new × (holder.new.held.value ≡ holder.old.held.value) }
    ensures given { IsKeyCall result holder.old.held.value key.old key.new }
{
    calls::shared_key(holder, alloc, key).number()
}

/// Seals a text, and sets `len` to the number of the sealed bytes.
#[unsafe(no_mangle)]
pub extern "C" fn ap_accept_c_v3_seal(
    alloc: Global,
    key: &RawKey,
    sealing: &Sealing,
    text: &[u8],
    to: &mut [u8],
    len: &mut usize,
) -> i32
    // Promise: in C: sealing, opening and checking with a key for a usage give what the definitions say; without a key
    // or a usage nothing is done.
    ensures { IsSealCall result key.now sealing.now text.now to.old to.new len.new }
{
    let given = protection::seal(alloc, key, sealing, text, to);
    *len = given.len;
    given.status.number()
}

/// Opens a sealed text, and sets `len` to the number of its bytes.
#[unsafe(no_mangle)]
pub extern "C" fn ap_accept_c_v3_unseal(
    alloc: Global,
    key: &RawKey,
    usage: u32,
    sealed: &[u8],
    to: &mut [u8],
    len: &mut usize,
) -> i32
    // Promise, as ap_accept_c_v3_seal: in C: sealing, opening ..
    ensures { IsUnsealCall result key.now usage sealed.now to.old to.new len.new }
{
    let given = protection::unseal(alloc, key, usage, sealed, to);
    *len = given.len;
    given.status.number()
}

/// Copies the checksum of a text, and sets `len` to the number of its bytes.
#[unsafe(no_mangle)]
pub extern "C" fn ap_accept_c_v3_checksum(
    key: &RawKey,
    usage: u32,
    text: &[u8],
    to: &mut [u8],
    len: &mut usize,
) -> i32
    // Promise, as ap_accept_c_v3_seal: in C: sealing, opening ..
    ensures { IsChecksumCall result key.now usage text.now to.old to.new len.new }
{
    let given = protection::checksum(key, usage, text, to);
    *len = given.len;
    given.status.number()
}

/// Checks whether the bytes are the checksum of a text.
#[unsafe(no_mangle)]
pub extern "C" fn ap_accept_c_v3_verify(key: &RawKey, usage: u32, text: &[u8], octets: &[u8]) -> i32
    // Promise, as ap_accept_c_v3_seal: in C: sealing, opening ..
    ensures { IsVerifyCall result key.now usage text.now octets.now }
{
    protection::verify(key, usage, text, octets).number()
}
