//! Answering the messages of a connection, in order.
ghost use Rattle.std.specs.Prelude.{◌≡◌, ◌+◌, if◌then◌else◌, ◌++◌, ◌∷◌, [], true, false, length, take, Some, IfOk};
ghost use Rattle.std.specs.Prelude.{IfErr, OnOk, OnErr, is_some};
ghost use Rattle.framing.specs.Splitting.{handed_out, left};
ghost use Rattle.kdc_hub.specs.Hub.{AreDraws};
ghost use Rattle.kdc_hub.specs.Issuing.{after, issuing, reply_of, too_long};
ghost use Rattle.kdc_hub.specs.StreamStep.{after_some, drawn, stream_step, stream_room, action_for};
ghost use Rattle.kdc_hub.specs.Audits.{FirstHold, ReplyHolds};
ghost use Rattle.kdc_core.specs.View.{view};
ghost use Rattle.rand_core.specs.Stream.{fill_bytes};
ghost use Rattle.kdc_hub.specs.declared.event.Action.TheVariants.{Write, Close};
ghost use Rattle.kdc_hub.specs.declared.event.CloseReason.TheVariants.{BadLength};

use crate::event::{Action, CloseReason, HubFault};
use crate::seeded_kdc::SeededKdc;
use framing::{FrameFault, Splitter};
use krb_fields::Moment;
use rand_core::Rng;
use std::alloc::{AllocError, Global};

/// The greatest size of a reply with a ticket on a connection, in bytes.
const ROOM: u32 = 131_072;

/// The answers to the messages of a connection.
#[derive(Drop)]
pub struct StreamStep {
    /// The replies to write, in order, and then a `Close` if the connection is to end.
    pub actions: Vec<Action>,
    /// Whether the connection stays open.
    pub stays: bool,
}

/// Memory ran out for a request.
#[derive(Clone, Copy)]
struct RanOut {
    /// Whether the random bytes for its reply were drawn before that.
    drawn: bool,
}

/// Answers the complete messages of a connection's stream, whose last piece came at this moment.
pub fn answer_stream<R: Rng>(
    alloc: Global,
    seeded_kdc: &mut SeededKdc<R>,
    at: Moment,
    conn: u64,
    stream: &mut Splitter,
) -> Result<StreamStep, HubFault>
    ensures actions { IfOk result
        (λ s. s.actions.items
        ≡ (stream_step (issuing R.stream seeded_kdc.old) at conn stream.old).actions) }
    ensures issuing { OnOk result
        (issuing R.stream seeded_kdc.new
        ≡ (stream_step (issuing R.stream seeded_kdc.old) at conn stream.old).issuing) }
    ensures stays { IfOk result
        (λ s. s.stays ≡ (stream_step (issuing R.stream seeded_kdc.old) at conn stream.old).stays) }
    ensures left { IfOk result (λ s. s.stays ≡ true → stream.new ≡ left stream.old) }
    ensures conn { IfErr result (λ fault. fault.conn ≡ Some conn) }
    ensures done { IfErr result
        (λ fault. fault.done.items
        ≡ take (length fault.done.items)
        (stream_step (issuing R.stream seeded_kdc.old) at conn stream.old).actions) }
    ensures kdc { IfErr result
        (λ fault. seeded_kdc.new.kdc ≡ (after_some (length fault.done.items) (issuing R.stream seeded_kdc.old) at
        (handed_out stream.old).messages).kdc) }
    ensures drawn { IfErr result (λ fault. R.stream seeded_kdc.new.rng
        ≡ drawn fault.draws (R.stream seeded_kdc.old.rng)) }
    ensures draws { IfErr result AreDraws }
    ensures keeps { seeded_kdc.new.keeps_audits ≡ seeded_kdc.old.keeps_audits }
    ensures audits { IfOk result (λ s.
        FirstHold (length s.actions.items) (issuing R.stream seeded_kdc.old) at stream_room
        (handed_out stream.old).messages) }
    ensures audits_done { IfErr result (λ fault.
        FirstHold (length fault.done.items) (issuing R.stream seeded_kdc.old) at stream_room
        (handed_out stream.old).messages) }
{
    let mut actions = Vec::new(alloc);
    loop {
        match stream.next(alloc) {
            Ok(Some(request)) => {
                match answer_request(alloc, seeded_kdc, at, conn, &request, &mut actions) {
                    Ok(true) => {}
                    Ok(false) => {
                        return Ok(StreamStep {
                            actions,
                            stays: false,
                        });
                    }
                    Err(fault) => return Err(out_of_memory(actions, conn, fault.drawn)),
                }
            }
            Ok(None) => {
                return Ok(StreamStep {
                    actions,
                    stays: true,
                });
            }
            Err(fault) => {
                return match fault {
                    FrameFault::Memory => Err(out_of_memory(actions, conn, false)),
                    _ => refuse_length(alloc, seeded_kdc, at, conn, actions),
                };
            }
        }
    }
}

/// Returns the fault for memory that ran out after these replies, and after one more draw or none.
fn out_of_memory(done: Vec<Action>, conn: u64, drawn: bool) -> HubFault
    ensures done { result.done ≡ done }
    ensures conn { result.conn ≡ Some conn }
    ensures draws { result.draws ≡ length done.items + (if drawn then 1 else 0) }
{
    let draws = done.len() + usize::from(drawn);
    HubFault {
        done,
        conn: Some(conn),
        draws,
    }
}

/// Answers one request, and returns whether the connection stays open.
#[tactic(auto, unfolding(crate::specs::StreamStep::drawn))]
fn answer_request<R: Rng>(
    alloc: Global,
    seeded_kdc: &mut SeededKdc<R>,
    at: Moment,
    conn: u64,
    request: &[u8],
    actions: &mut Vec<Action>,
) -> Result<bool, RanOut>
    ensures action { OnOk result
        (actions.new.items ≡ actions.old.items
        ++ action_for conn (reply_of (issuing R.stream seeded_kdc.old) at stream_room request.now) ∷ []) }
    ensures after { OnOk result
        (issuing R.stream seeded_kdc.new ≡ after (issuing R.stream seeded_kdc.old) at stream_room request.now) }
    ensures stays { IfOk result
        (λ stays. stays ≡ is_some (reply_of (issuing R.stream seeded_kdc.old) at stream_room request.now)) }
    ensures holds { OnOk result
        (ReplyHolds (view seeded_kdc.old.kdc request.now) at
        (fill_bytes 64 (R.stream seeded_kdc.old.rng)).0 request.now
        (reply_of (issuing R.stream seeded_kdc.old) at stream_room request.now)) }
    ensures err { OnErr result ((actions.new.items ≡ actions.old.items) × (seeded_kdc.new.kdc ≡ seeded_kdc.old.kdc)) }
    ensures audits { seeded_kdc.new.keeps_audits ≡ seeded_kdc.old.keeps_audits }
    ensures drawn { IfErr result
        (λ fault. R.stream seeded_kdc.new.rng ≡ drawn (if fault.drawn then 1 else 0) (R.stream seeded_kdc.old.rng)) }
{
    if actions.reserve(1).is_err() {
        return Err(RanOut { drawn: false });
    }
    match seeded_kdc.answer(alloc, at, ROOM, request) {
        Ok(Some(reply)) => {
            actions.push_reserved(Action::Write { conn, reply });
            Ok(true)
        }
        Ok(None) => {
            actions.push_reserved(Action::Close {
                conn,
                reason: CloseReason::NoRequest,
            });
            Ok(false)
        }
        Err(_) => Err(RanOut { drawn: true }),
    }
}

/// Answers a length that is too large, and ends the connection.
fn refuse_length<R: Rng>(
    alloc: Global,
    seeded_kdc: &SeededKdc<R>,
    at: Moment,
    conn: u64,
    mut actions: Vec<Action>,
) -> Result<StreamStep, HubFault>
    ensures actions { IfOk result
        (λ s. s.actions.items ≡ actions.items
        ++ Write conn (too_long seeded_kdc.now.kdc at) ∷ Close conn BadLength ∷ []) }
    ensures stays { IfOk result (λ s. s.stays ≡ false) }
    ensures conn { IfErr result (λ fault. fault.conn ≡ Some conn) }
    ensures done { IfErr result (λ fault. fault.done.items ≡ actions.items) }
    ensures draws { IfErr result (λ fault. fault.draws ≡ length actions.items + 0) }
{
    match push_refusal(alloc, seeded_kdc, at, conn, &mut actions) {
        Ok(()) => Ok(StreamStep {
            actions,
            stays: false,
        }),
        Err(_) => Err(out_of_memory(actions, conn, false)),
    }
}

fn push_refusal<R: Rng>(
    alloc: Global,
    seeded_kdc: &SeededKdc<R>,
    at: Moment,
    conn: u64,
    actions: &mut Vec<Action>,
) -> Result<(), AllocError>
    ensures ok { OnOk result
        (actions.new.items ≡ actions.old.items
        ++ Write conn (too_long seeded_kdc.now.kdc at) ∷ Close conn BadLength ∷ []) }
    ensures err { OnErr result (actions.new.items ≡ actions.old.items) }
{
    actions.reserve(2)?;
    let reply = seeded_kdc.too_long(alloc, at)?;
    actions.push_reserved(Action::Write { conn, reply });
    actions.push_reserved(Action::Close {
        conn,
        reason: CloseReason::BadLength,
    });
    Ok(())
}
