//! Properties of every run of an acceptor: laws over the definition that `Acceptor::accept` meets.
ghost use Rattle.ap_accept.specs.Lives.{ResumedOnce};
ghost use Rattle.ap_accept.specs.Run.{AcceptedOnce, DropsUnseen};

/// No authenticator is accepted twice for the same ticket realm, service and client, whatever comes in and whenever,
/// and however often the keys are replaced.
pub fn accepted_once()
    // Promise: no authenticator is accepted twice for one ticket realm, sname and client, in every list of calls of one
    // acceptor, of `accept` and `accept_for`, at any moments.
    // Promise: each authenticator is accepted once with any keytabs that replace the acceptor's keys between the calls,
    // and with any processes that resume with what it saved. Any other restart is another acceptor, with
    // `Opening::Restart`.
    ensures { AcceptedOnce }
{}

/// No authenticator is accepted twice through restarts either, by one process or by two, if each process resumes with
/// the bytes that the one before saved when it ended.
pub fn resumed_once()
    // Promise: where each process resumes with the bytes that the one before saved in the end, with any keys and
    // options, no authenticator is accepted twice, by one of them or by two.
    ensures { ResumedOnce }
{}

/// Dropping old entries changes no answer, as long as the clock never goes back by more than an hour. The keys may be
/// replaced at any time.
pub fn drops_unseen()
    // Promise: if no call of a list comes more than an hour before an earlier one, the answers are those of an acceptor
    // that drops nothing.
    ensures { DropsUnseen }
{}
