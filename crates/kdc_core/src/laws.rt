//! Laws of every run, from any state, over the definitions that `Kdc::run` meets.
ghost use Rattle.std.specs.Prelude.{List};
ghost use Rattle.kdc_core.specs.Marked.{KeepsMarked};
ghost use Rattle.kdc_core.specs.NewlySeen.{CanBeResumed};
ghost use Rattle.kdc_core.specs.Struck.{Isolation};
ghost use Rattle.kdc_core.specs.Tickets.{OneTicket};
ghost use Rattle.kdc_core.specs.Unaffected.{Unaffected};
ghost use Rattle.kdc_core.specs.Unseen.{TidiesUnseen};
ghost use Rattle.kdc_core.specs.declared.run.Event.{Event};
ghost use Rattle.kdc_state.specs.declared.state.State.{State};

/// What others request makes no difference to a client, and no authenticator gets two different tickets, whatever
/// events come at whatever moments.
pub fn any_run()
    // What others request, and changes of others, never change what a client gets.
    // Promise: **isolation**: for a client, a set of names (next row), and a second state of the same realm and limits
    // that agrees on the client's row and replay cache and the set's rows: the client's requests get, in order, the
    // replies of the struck run from it.
    // Promise: the set of names holds `krbtgt/REALM`, the same for each realm with which a process starts again, and
    // each service that the client's requests name.
    // Promise: the two runs agree for client and set at the end; moments may go in any direction; the struck run keeps
    // every replacement, tidying and restart.
    ensures isolation { (state : State) (events : List Event) → Isolation state events }
    // Two runs that agree on a client's own events answer it alike, whatever others request in either, and whatever
    // rows others have in replacement databases.
    // Promise: **nothing that others ask, and no row of others, changes what a client gets**: two runs that agree on
    // the client's own events, from states that agree for it, give its requests the same replies, in order, and agree
    // for it at the end.
    // Promise: two such runs may differ in the rows of others in the replacing databases.
    ensures unaffected { Unaffected }
    // If two TGS-REQs of one client have the same authenticator and both get a ticket, they get the same one.
    // Promise: **one ticket per authenticator**: if two TGS-REQs of one client have authenticators with the same ctime
    // and cusec, and both replies have a ticket, the replies are equal.
    // Promise: one ticket per authenticator holds through replacements, tidyings and restarts too, if no restart is
    // before the second of an earlier request, and through resumptions that cover the state; a tidying may have any
    // moment.
    ensures one_ticket { (state : State) (events : List Event) → OneTicket state events }
    // In every run that begins with an opening, what is stored for an authenticator says whether its reply bears a
    // ticket.
    // Promise: in every run that begins with a start, what is stored for an authenticator says correctly whether its
    // reply has a ticket.
    ensures marked { KeepsMarked }
    // What a process began with, and what it has recorded since, is enough to resume with.
    // Promise: **a process can be resumed**: what it started with, and the authenticators that its answers report as
    // recorded, cover its state, at any second that is not before one of its requests or tidyings.
    // Promise: a state that resumes with what covers it refuses each authenticator that was in a client's replay cache
    // or too old for it.
    ensures resumable { CanBeResumed }
    // If no request is before an earlier tidying, requests get the replies that they get without any tidying.
    // Promise: **tidying is not seen**: if no request is dated before an earlier tidying, requests get the same replies
    // as in the run without tidyings.
    ensures unseen { TidiesUnseen }
{}
