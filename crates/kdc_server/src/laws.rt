//! Laws over the life of a server with a journal, and over its processes.
ghost use Rattle.kdc_server.specs.Handing.{HandsAllInLife, HandsAllInRounds};
ghost use Rattle.kdc_server.specs.Journaled.{OneTicketThroughJournals};
ghost use Rattle.kdc_server.specs.Processes.{OneTicketThroughRestarts};
ghost use Rattle.kdc_server.specs.Runs.{OneTicketOverRuns, RanIsRun};

use journal::{every_counted_life, every_journal, every_journal_life};
use kdc_core::any_run;
use kdc_hub::one_run;

/// Over every life of a server, what a journal is handed, act by act, is what the requests made the KDC remember: all
/// of it, in order, and nothing else. A `ServerWire` hands its journal this, and nothing else (`served`).
pub fn every_life()
    // Promise (rounds, life): **over the life of a server a journal is handed every authenticator that the KDC
    // remembers**, in order, and nothing else.
    // Promise (rounds, life): of the acts that a life tries, with those that fail, each names what its request made the
    // KDC remember.
    ensures rounds { HandsAllInRounds }
    ensures life { HandsAllInLife }
{}

/// Over all processes of a server with a journal, no authenticator gets two different tickets. Each start that resumes
/// finds files that hold what the process before it knew; `every_journal` says that files are kept so.
pub fn every_restart()
    // Promise: **one ticket per authenticator, whichever process sends it**: over processes of a server, one after the
    // other and each as the next rows say, no authenticator gets two different tickets.
    // Promise: the first process began with any opening, and each lives as `serve_life` says.
    // Promise: a start may refuse what came before, or resume with what it reads of the files that the last call of the
    // process before it left.
    // Promise: no start that refuses is before the second of an earlier request; one that resumes has a floor that is
    // at most the skew before each event of the process before it.
    ensures one_ticket { OneTicketThroughRestarts }
{
    any_run();
    one_run();
    every_life();
    every_journal();
}

/// The same, where nothing is asked of what the files of the journal hold: each process does with them what a
/// `JournalFile` promises, and the next start finds what that left, or refuses to resume. Of a start between them that
/// refuses nothing is asked of its floor but that it reads the files and has the floor that they ask for, and that this
/// is not below the one that the process before it began with.
pub fn every_journaled_restart()
    // Promise: the same, by what each process does with its journal: nothing is asked of what the files hold.
    // Promise: each process kept all that it was handed, and the next one finds what that left, or refuses; other
    // starts may come between the two.
    // Promise: of a start that refuses nothing is asked of the times that it refuses, as long as the files were never
    // lost.
    // Promise: a start that refuses read the files, has the floor that they ask for, and that is not below the one with
    // which the process before it began.
    ensures one_ticket { OneTicketThroughJournals }
{
    every_journal_life();
    every_counted_life();
    every_restart();
}

/// The same of runs of a server: whatever list of them there is, each over the files of one journal as the run before
/// left them, sealed or not, no authenticator gets two different tickets. What a run did with these files, and what a
/// start did that failed, is what [`run_server`](crate::run_server) says of them. A run may end of itself, or be killed
/// at any moment, and its journal may fail from some call on.
pub fn every_run()
    // Promise: **one ticket per authenticator, over runs** of a server with a journal: each served, was killed at any
    // act, or failed to start, over the files that the one before left, sealed or not.
    // Promise: these runs ask two things of clocks, since no file shows them: no start that refuses is before an
    // earlier request; one that resumes has a floor at most the skew before the last start and each event after it.
    // Promise: a start among these runs that failed after its journal began asks the same where it would resume; where
    // it refused, it read the files and its floor is not below that of the last server, or is above all that this kept.
    // Promise: of these runs only the first may have been started with `--first`.
    ensures one_ticket { OneTicketOverRuns }
    // Promise: what `run_server` returned is such a run, with its whole life, if its journal had kept all in the end.
    ensures ran { RanIsRun }
{
    any_run();
    one_run();
    every_life();
    every_journal_life();
    every_counted_life();
}
