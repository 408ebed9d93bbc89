//! Keeping the authenticators of a server's requests.
ghost use Rattle.std.specs.Prelude.{◌≡◌, ◌∷◌, [], Bool, List, Option, is_some, option_copied};
ghost use Rattle.std.specs.Result.{is_ok};
ghost use Rattle.replay.specs.Run.{with_any};
ghost use Rattle.kdc_hub.specs.Wire.{Records};
ghost use Rattle.journal.specs.Life.{IsCall, JournalState};
ghost use Rattle.journal.specs.Life.Call.{Keep, Mend};
ghost use Rattle.kdc_files.specs.Journal.{Handed, handed_at, handed_by, is_kept, is_there_if, is_whole_if};
ghost use Rattle.kdc_files.specs.Keeping.{AsksFor, IsAskedFor, state_if};
ghost use Rattle.kdc_files.specs.Recorded.{record_of};

use journal::NotKept;
use kdc_core::Seen;
use kdc_hub::{Action, Reply};
use krb_fields::Moment;
use std::alloc::Global;

/// Keeps the authenticators that enter a KDC's replay caches. It may keep a record, for contracts alone.
pub trait JournalWriter {
    // The authenticators that it was handed so far, each with the moment of its request, in order, if it keeps a
    // record.
    ghost handed: { Self → Option (List Handed) };

    // Whether it has kept all of them.
    ghost is_whole: { Self → Bool };

    // Whether it is a journal, and does not stand for one that is absent.
    ghost is_there: { Self → Bool };

    // What its files hold, if that is recorded, the end of the newer one, and the floor of the next one.
    ghost state: { Self → JournalState };

    /// Keeps an authenticator, and whatever it could not keep before.
    fn keep(&mut self, alloc: Global, at: Moment, seen: &Seen) -> Result<(), NotKept>
        ensures handed { Records (handed self.old) (record { at = at; seen = seen.now } ∷ []) (handed self.new) }
        ensures whole { is_whole self.new ≡ is_ok result }
        // What the files held they hold, and this one too if that succeeded.
        // Promise, as run_server of kdc_server: a run's journal ..
        ensures call { IsCall (Keep seen.now result) (state self.old) (state self.new) };

    /// Keeps whatever it could not keep before.
    fn mend(&mut self, alloc: Global, at: Moment) -> Result<(), NotKept>
        ensures handed { Records (handed self.old) [] (handed self.new) }
        ensures whole { is_whole self.new ≡ is_ok result }
        // Promise, as run_server of kdc_server: a run's journal ..
        ensures call { IsCall (Mend result) (state self.old) (state self.new) };
}

/// Without a journal there is nothing to keep.
impl<J: JournalWriter> JournalWriter for Option<J> {
    ghost handed = { record_of J.handed };

    ghost is_whole = { is_whole_if J.is_whole };

    ghost is_there = { is_there_if J.is_there };

    ghost state = { state_if J.state };

    #[tactic(auto, using(crate::proofs::Calls::nothing_called))]
    fn keep(&mut self, alloc: Global, at: Moment, seen: &Seen) -> Result<(), NotKept>
        ensures handed { Records (record_of J.handed self.old) (record { at = at; seen = seen.now } ∷ [])
            (record_of J.handed self.new) }
        ensures whole { is_whole_if J.is_whole self.new ≡ is_ok result }
        ensures call { IsCall (Keep seen.now result) (state_if J.state self.old) (state_if J.state self.new) }
        ensures there { is_some self.new ≡ is_some self.old }
    {
        match self {
            Some(journal) => journal.keep(alloc, at, seen),
            None => Ok(()),
        }
    }

    #[tactic(auto, using(crate::proofs::Calls::nothing_called))]
    fn mend(&mut self, alloc: Global, at: Moment) -> Result<(), NotKept>
        ensures handed { Records (record_of J.handed self.old) [] (record_of J.handed self.new) }
        ensures whole { is_whole_if J.is_whole self.new ≡ is_ok result }
        ensures call { IsCall (Mend result) (state_if J.state self.old) (state_if J.state self.new) }
        ensures there { is_some self.new ≡ is_some self.old }
    {
        match self {
            Some(journal) => journal.mend(alloc, at),
            None => Ok(()),
        }
    }
}

/// Has a journal keep what an action's reply makes the KDC remember. Returns whether it has kept all, if the action has
/// a reply.
pub fn keep_action<J: JournalWriter>(
    alloc: Global,
    journal: &mut J,
    at: Moment,
    action: &Action,
) -> bool
    ensures handed { Records (J.handed journal.old) (handed_by at action.now) (J.handed journal.new) }
    ensures kept { result ≡ is_kept J.is_whole journal.new action.now }
    // Nothing else is asked of it.
    // Promise, as run_server of kdc_server: a run's journal ..
    ensures asks { AsksFor action.now result (J.state journal.old) (J.state journal.new) }
{
    match action {
        Action::SendTo { reply, .. } => keep_reply(alloc, journal, at, reply),
        Action::Pass { .. } => true,
        Action::Write { reply, .. } => keep_reply(alloc, journal, at, reply),
        Action::Close { .. } => true,
    }
}

fn keep_reply<J: JournalWriter>(alloc: Global, journal: &mut J, at: Moment, reply: &Reply) -> bool
    ensures handed { Records (J.handed journal.old) (handed_at at (with_any reply.now.newly_seen []))
        (J.handed journal.new) }
    ensures whole { result ≡ J.is_whole journal.new }
    ensures asked { IsAskedFor reply.now.newly_seen result (J.state journal.old) (J.state journal.new) }
{
    keep_seen(alloc, journal, at, reply.newly_seen.as_ref())
}

fn keep_seen<J: JournalWriter>(
    alloc: Global,
    journal: &mut J,
    at: Moment,
    seen: Option<&Seen>,
) -> bool
    ensures handed { Records (J.handed journal.old) (handed_at at (with_any (option_copied seen.entry) []))
        (J.handed journal.new) }
    ensures whole { result ≡ J.is_whole journal.new }
    ensures asked { IsAskedFor (option_copied seen.entry) result (J.state journal.old) (J.state journal.new) }
{
    match seen {
        Some(seen) => journal.keep(alloc, at, seen).is_ok(),
        None => journal.mend(alloc, at).is_ok(),
    }
}
