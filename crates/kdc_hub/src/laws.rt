//! Laws of every run of a hub, over the log that `Hub::step` meets.
ghost use Rattle.std.specs.Prelude.{◌≡◌, ◌++◌, List, map};
ghost use Rattle.kdc_hub.specs.Cutting.{IsSameInTwoPieces, RepliesAreSame};
ghost use Rattle.kdc_hub.specs.History.{AnswersWhoAsked, CanBeResumed, IsOneRun, OneTicketInProcess, OneTicketSent};
ghost use Rattle.kdc_hub.specs.History.{ServesAlike, Stepped, TidiesUnseen, Turn, Unaffected, after_turns};
ghost use Rattle.kdc_hub.specs.Hub.{HubState};
ghost use Rattle.kdc_hub.specs.Logged.{Entry, logged};
ghost use Rattle.kdc_hub.specs.Moved.{MovesNothingElse};
ghost use Rattle.kdc_hub.specs.OwnBytes.{AsksItsOwn};
ghost use Rattle.kdc_hub.specs.Parties.{GetsItsOwn, RecordsItsOwn};

use framing::two_pieces;

/// How the bytes of connections are cut into pieces makes no difference, as long as no step runs out of memory.
pub fn any_cutting()
    // Runs that complete the same requests, bad lengths, openings and ends, in the same order and at the same moments,
    // give the same replies.
    // Promise (replies, two_pieces): other pieces of the same stream give the same replies, if the same requests are
    // complete in the same order.
    ensures replies { RepliesAreSame }
    // A piece that arrives in two parts at one moment changes nothing.
    ensures two_pieces { IsSameInTwoPieces }
    // The requests on a connection are the messages of its own bytes, whatever arrives elsewhere.
    // Promise: **a connection's requests are its own**: from its opening on they are the messages of the bytes that
    // arrive on it, in order, whatever arrives elsewhere.
    // Promise: a connection's requests are all of these messages as long as it is open, and else the first ones.
    ensures own_bytes { AsksItsOwn }
{
    two_pieces();
}

/// All answers of a server are those of one run of its key distribution centre: over the complete requests on all
/// connections, the replaced databases, and the restarted processes.
pub fn one_run()
    // Promise: **all that is answered is one run**: over every history the replies that are sent, and the KDC at the
    // end, are those of the one run over its events.
    // Promise (run, isolation, one_ticket): **isolation** and **one ticket per authenticator**: what [the
    // KDC](#the-kdc) promises of its runs (`any_run`) holds of histories, over any connections and in any pieces.
    // Promise (run, unseen, resumable): **tidying is not seen**, and **a server can be resumed**, over histories too.
    // Promise (run, who_asked): over every history the audit records are those of the one run.
    ensures run { (start : HubState) (turns : List Turn) → IsOneRun start turns }
    // A history continues from the hub that it left, and a log is a history.
    // Promise (goes_on, log): a list of events is a history, and a history continues from its end.
    ensures goes_on { (start : HubState) (turns later : List Turn)
        → after_turns start (turns ++ later) ≡ after_turns (after_turns start turns) later }
    ensures log { (start : HubState) (entries : List Entry)
        → after_turns start (map Stepped entries) ≡ (logged start entries).hub }
    // What others send, over any connections and in any pieces, never changes what a client gets.
    // Promise (isolation, unaffected): **nothing that others send changes what a client gets**, with only one client's
    // requests in the second history, and with whatever others send in either.
    ensures isolation { ServesAlike }
    // Two histories in which a client sends the same requests give it the same replies, whatever others send in either.
    ensures unaffected { Unaffected }
    // Others can move the moments of replacements and tidyings, and nothing else.
    // Promise: **others can move the moment of a replacement, and nothing else**: two histories, with tidyings at any
    // places, in which the same replacements come between the same requests of a client send it the same replies.
    ensures moved { MovesNothingElse }
    // If no request is before an earlier tidying, the requests are sent what they get without any tidying.
    ensures unseen { TidiesUnseen }
    // No authenticator gets two different tickets, even across replacements and restarts, and across resumptions that
    // cover the state. Within one process there is no condition.
    ensures one_ticket { OneTicketSent }
    // Promise: while one process serves, no condition is needed for one ticket per authenticator, however often its
    // rows are replaced, with moments that may be any.
    ensures one_ticket_in_process { OneTicketInProcess }
    // What a process began with, and what its replies have reported since, is enough to resume with.
    ensures resumable { CanBeResumed }
    // Each reply goes to the peer that sent the request.
    // Promise: the first actions of a step send its replies, in order, each to the peer and socket, or on the
    // connection, that asked.
    ensures who_asked { AnswersWhoAsked }
    // A peer or a connection is sent, in order, the replies of this run to its own requests, and the ends of its own
    // connection. It is sent nothing of another's.
    // Promise: **each gets its own**: over every history, what is sent to a peer, or on a connection, is, in order, the
    // replies of that one run to its own requests, and the ends of its own connection, and nothing else.
    // Promise (own, own_record): what each gets is proved of every set of peers and connections, of one alone too, and
    // of every history, so of a server's life.
    // Promise (own, own_record): after memory ran out a connection is also sent a `Close`.
    ensures own { GetsItsOwn }
    // So a Wire records no other act for it.
    // Promise: **each gets its own in a server's record**: of the polls and acts that `serve` is proved to do, the acts
    // for a peer or a connection are these, in order, those that failed too.
    ensures own_record { RecordsItsOwn }
{}
