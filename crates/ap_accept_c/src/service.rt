//! An acceptor and the result of its last AP-REQ.
ghost use Rattle.std.specs.Prelude.{◌≡◌, None, IfOk, IfErr, option_copied};
ghost use Rattle.ap_accept.specs.Accepts.{IsAfter, IsAnswer};
ghost use Rattle.cred_files.specs.Keytab.{IsKeytab};
ghost use Rattle.ap_accept_c.specs.Calls.{IsFetchedOf};
ghost use Rattle.ap_accept_c.specs.Part.{octets_of};
ghost use Rattle.ap_accept_c.specs.Status.{status_of_answer};
ghost use Rattle.ap_accept_c.specs.Service.{IsKeytabFault, IsOpened, IsOpenFault, IsRekeyed, IsResumed, IsResumeFault};
ghost use Rattle.ap_accept_c.specs.Service.{IsNamed, IsName, IsNameFault, IsNamed, IsSaved, IsTaken, judged, judged_by};
ghost use Rattle.ap_accept_c.specs.Service.{keeping};

use crate::buffers::{Given, give};
use crate::last::{Last, Refusal};
use crate::part::Part;
use crate::status::Status;
use crate::texts::status_text;
use ap_accept::{Accepted, Acceptor, AcceptorOptions, ApFault, Opening, TicketLabel};
use cred_files::Keytab;
use krb_fields::{Moment, Name, NameFault};
use std::alloc::Global;

/// The value behind the pointer that C holds.
#[derive(Drop)]
pub struct Service {
    /// The services' keys, and the replay caches of their clients.
    pub acceptor: Acceptor,
    /// The name of the service that it accepts for; if there is none, for each of the keytab.
    pub only: Option<Name>,
    /// The result of the last AP-REQ. The caller may read it any number of times, until the next one.
    pub last: Last,
}

impl Service {
    /// Opens a service with the keys in the bytes of a keytab. `remembered` is 1 to 65,536.
    pub fn open(
        alloc: Global,
        keytab: &[u8],
        remembered: u32,
        opening: Opening,
    ) -> Result<Service, Status>
        ensures opened { IfOk result (λ service. IsOpened service keytab.now remembered opening) }
        ensures fault { IfErr result (λ status. IsOpenFault status keytab.now remembered) }
    {
        if !(1..=65_536).contains(&remembered) {
            return Err(Status::BadArgument);
        }
        let keytab = match keytab_in(alloc, keytab) {
            Ok(keytab) => keytab,
            Err(status) => return Err(status),
        };
        let options = AcceptorOptions { remembered };
        Ok(Service {
            acceptor: Acceptor::open(alloc, keytab, options, opening)?,
            only: None,
            last: Last::nothing(),
        })
    }

    /// Opens a service with the keys in the bytes of a keytab, which goes on with what another one saved. `remembered`
    /// is 1 to 65,536.
    pub fn resume(
        alloc: Global,
        keytab: &[u8],
        remembered: u32,
        saved: &[u8],
    ) -> Result<Service, Status>
        ensures resumed { IfOk result (λ service. IsResumed service keytab.now remembered saved.now) }
        ensures fault { IfErr result (λ status. IsResumeFault status keytab.now remembered saved.now) }
    {
        if !(1..=65_536).contains(&remembered) {
            return Err(Status::BadArgument);
        }
        let keytab = match keytab_in(alloc, keytab) {
            Ok(keytab) => keytab,
            Err(status) => return Err(status),
        };
        let options = AcceptorOptions { remembered };
        match Acceptor::resume(alloc, keytab, options, saved) {
            Ok(acceptor) => Ok(Service {
                acceptor,
                only: None,
                last: Last::nothing(),
            }),
            Err(fault) => Err(Status::of_cred_fault(fault, Status::BadSaved)),
        }
    }

    /// Copies the bytes from which a later process resumes.
    pub fn save(&self, alloc: Global, to: &mut [u8]) -> Given
        ensures { IsSaved result.status self.now.acceptor to.old to.new result.len }
    {
        match self.acceptor.save(alloc) {
            Ok(bytes) => give(bytes.as_slice(), to),
            Err(error) => Given::none(Status::from(error)),
        }
    }

    /// Replaces the keys with those in the bytes of a keytab. Changes nothing if it can't read them.
    pub fn replace_keytab(&mut self, alloc: Global, keytab: &[u8]) -> Status
        ensures { IsRekeyed result self.old self.new keytab.now }
    {
        match keytab_in(alloc, keytab) {
            Ok(keytab) => {
                self.acceptor.replace(keytab);
                Status::Done
            }
            Err(status) => status,
        }
    }

    /// Accepts from now on for the service of this name alone, or, if the text is empty, for each of the keytab.
    /// Changes nothing if the text is not a name's.
    pub fn name(&mut self, alloc: Global, text: &[u8]) -> Status
        ensures { IsNamed result self.old self.new text.now }
    {
        match parse_name(alloc, text) {
            Ok(only) => {
                self.only = only;
                Status::Done
            }
            Err(status) => status,
        }
    }

    /// Accepts the bytes of an AP-REQ, or returns the reason to refuse them.
    pub fn accept(
        &mut self,
        alloc: Global,
        at: Moment,
        confounder: &[u8; 16],
        ap_req: &[u8],
    ) -> Status
        ensures { IsTaken result self.old self.new at ap_req.now (judged self.old at confounder.now ap_req.now) }
    {
        self.last = Last::nothing();
        let label = match TicketLabel::read(alloc, ap_req) {
            Ok(label) => label,
            Err(fault) => return Status::of_fault(fault),
        };
        let answer = judge(
            &mut self.acceptor,
            self.only.as_ref(),
            alloc,
            at,
            confounder,
            ap_req,
        );
        self.keep(at, label, answer)
    }

    /// Keeps the result of an AP-REQ, unless memory ran out.
    fn keep(&mut self, at: Moment, label: TicketLabel, answer: Result<Accepted, ApFault>) -> Status
        ensures status { result ≡ status_of_answer answer }
        ensures kept { self.new ≡ keeping self.old at label answer }
    {
        match answer {
            Ok(accepted) => {
                self.last = Last {
                    accepted: Some(accepted),
                    label: Some(label),
                    refusal: None,
                };
                Status::Done
            }
            Err(ApFault::NotAnApReq) => {
                self.last = Last {
                    accepted: None,
                    label: Some(label),
                    refusal: None,
                };
                Status::NotAnApReq
            }
            Err(ApFault::Refused(rule)) => {
                self.last = Last {
                    accepted: None,
                    label: Some(label),
                    refusal: Some(Refusal { rule, at }),
                };
                Status::Refused(rule)
            }
            Err(ApFault::Memory) => Status::NoMemory,
        }
    }

    /// Copies a part of the last AP-REQ.
    pub fn fetch(&self, alloc: Global, part: Part, to: &mut [u8]) -> Given
        ensures { IsFetchedOf result.status (octets_of part self.now.last) to.old to.new result.len }
    {
        match part.octets(alloc, &self.last) {
            Ok(Some(octets)) => give(octets.as_slice(), to),
            Ok(None) => Given::none(Status::Absent),
            Err(_) => Given::none(Status::NoMemory),
        }
    }

    /// Returns the text for a status number: of a refusal, if it is the last one, that of its rule.
    pub fn status_text(&self, number: i32) -> &'static str {
        match self.last.refusal {
            Some(refusal) if refusal.rule.code().number() == number => refusal.rule.text(),
            _ => status_text(number),
        }
    }
}

fn keytab_in(alloc: Global, octets: &[u8]) -> Result<Keytab, Status>
    ensures read { IfOk result (λ keytab. IsKeytab keytab octets.now) }
    ensures fault { IfErr result (λ status. IsKeytabFault status octets.now) }
{
    match Keytab::read(alloc, octets) {
        Ok(keytab) => Ok(keytab),
        Err(fault) => Err(Status::of_cred_fault(fault, Status::BadKeytab)),
    }
}

/// Returns the name that the text spells, or `None` if it is empty.
fn parse_name(alloc: Global, text: &[u8]) -> Result<Option<Name>, Status>
    ensures named { IfOk result (λ name. IsName name text.now) }
    ensures fault { IfErr result (λ status. IsNameFault status text.now) }
{
    if text.is_empty() {
        return Ok(None);
    }
    let Ok(text) = str::from_utf8(text) else {
        return Err(Status::BadArgument);
    };
    match Name::from_text(alloc, text) {
        Ok(name) => Ok(Some(name)),
        Err(NameFault::BadName) => Err(Status::BadArgument),
        Err(NameFault::Memory) => Err(Status::NoMemory),
    }
}

/// Accepts the bytes of an AP-REQ, for the service of this name alone if there is one.
fn judge(
    acceptor: &mut Acceptor,
    only: Option<&Name>,
    alloc: Global,
    at: Moment,
    confounder: &[u8; 16],
    ap_req: &[u8],
) -> Result<Accepted, ApFault>
    ensures answer { IsAnswer result
        (judged_by (option_copied only.entry) acceptor.old at confounder.now ap_req.now).answer }
    ensures state { IsAfter result acceptor.old acceptor.new
        (judged_by (option_copied only.entry) acceptor.old at confounder.now ap_req.now).state }
{
    match only {
        Some(service) => acceptor.accept_for(service, alloc, at, confounder, ap_req),
        None => acceptor.accept(alloc, at, confounder, ap_req),
    }
}
