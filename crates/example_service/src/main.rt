//! `example_service KEYTAB [first] [save FILE]`: a service that reads AP-REQs from standard input, one a line in
//! hexadecimal digits, and prints who sent each. It takes the keys of a new keytab while it runs. When its input ends,
//! it saves its replay caches in FILE, and goes on with them the next time.
#![tactic(auto)]

use ap_accept::{Accepted, Acceptor, AcceptorOptions, ApFault, ApRefusal, Opening, TicketLabel};
use command_line::{Status, open_missing_streams};
use cred_files::Keytab;
use file_store::{FileStamp, FileStore, Written, now, sync_folder, write_file};
use hex::FromHexError;
use krb_der::KTime;
use std::io::{BufRead, Error, ErrorKind};
use std::process::ExitCode;
use std::random::RandomSource;
use std::{env, fs, io};

const USAGE: &str = "usage: example_service KEYTAB [first] [save FILE]";

/// What each word means, for the help after the usage.
const HELP: &str = "\
Reads AP-REQs from standard input, one on each line in hexadecimal digits, and prints who sent each.

  KEYTAB       the file with the service's keys; a new one is taken while it runs
  first        the service never ran before, so nobody can send it a request a second time
  save FILE    saves the replay caches at the end, and goes on with them the next time
  --help, -h   prints this";

fn main(rt: HostRuntime) -> io::Result<ExitCode> {
    if let Err(fault) = open_missing_streams(&rt) {
        println!(rt; "{fault}")?;
        return Ok(ExitCode::from(Status::Failed.code()));
    }
    let args: Vec<String> = env::args(&rt)?.collect(rt.alloc())?;
    if asks_help(args.as_slice()) {
        println!(rt; "{USAGE}\n\n{HELP}")?;
        return Ok(ExitCode::SUCCESS);
    }
    match parse_words(args.as_slice()) {
        Some(words) => serve(&rt, &words),
        None => usage(&rt),
    }
}

/// Checks whether the only word asks for help.
fn asks_help(args: &[String]) -> bool {
    match args {
        [_, word] => word.as_str() == "--help" || word.as_str() == "-h",
        _ => false,
    }
}

/// What the words of the command line ask for.
#[derive(Drop)]
struct Words<'a> {
    keytab: &'a str,
    /// Whether the service never ran before.
    is_first: bool,
    /// Where it saves its replay caches at its end.
    saved: Option<&'a str>,
}

fn parse_words(args: &[String]) -> Option<Words<'_>> {
    let (keytab, is_first, saved) = match args {
        [_, keytab] => (keytab, false, None),
        [_, keytab, first] if first.as_str() == "first" => (keytab, true, None),
        [_, keytab, save, path] if save.as_str() == "save" => (keytab, false, Some(path.as_str())),
        [_, keytab, first, save, path] if first.as_str() == "first" && save.as_str() == "save" => {
            (keytab, true, Some(path.as_str()))
        }
        _ => return None,
    };
    Some(Words {
        keytab: keytab.as_str(),
        is_first,
        saved,
    })
}

fn usage(rt: &HostRuntime) -> io::Result<ExitCode> {
    println!(rt; "{USAGE}")?;
    Ok(ExitCode::from(Status::Usage.code()))
}

fn serve(rt: &HostRuntime, words: &Words<'_>) -> io::Result<ExitCode> {
    let mut file = KeytabFile {
        path: words.keytab,
        seen: None,
    };
    let mut acceptor = open(rt, &mut file, words)?;
    answer_lines(rt, &mut acceptor, &mut file)?;
    match words.saved {
        Some(path) => save(rt, &acceptor, path),
        None => Ok(ExitCode::SUCCESS),
    }
}

/// The file of a service's keys.
#[derive(Drop)]
struct KeytabFile<'a> {
    path: &'a str,
    /// The file that was read last.
    seen: Option<FileStamp>,
}

impl<'a> KeytabFile<'a> {
    /// Reads the keytab, unless the file is the one that was read last.
    fn read_new(&mut self, rt: &HostRuntime) -> io::Result<Option<Keytab>> {
        let stamp = FileStamp::of(&fs::metadata(rt, self.path)?);
        if self.seen == Some(stamp) {
            return Ok(None);
        }
        self.seen = Some(stamp);
        Ok(Some(self.read(rt)?))
    }

    fn read(&self, rt: &HostRuntime) -> io::Result<Keytab> {
        let octets = fs::read(rt, self.path)?;
        match Keytab::read(rt.alloc(), &octets) {
            Ok(keytab) => Ok(keytab),
            Err(_) => Err(Error::from(ErrorKind::InvalidData)),
        }
    }
}

/// Returns an acceptor with the keys of a keytab file. It goes on with what the last run saved, if that is there.
fn open(rt: &HostRuntime, file: &mut KeytabFile<'_>, words: &Words<'_>) -> io::Result<Acceptor> {
    let options = AcceptorOptions::default();
    if let Some(saved) = take_saved(rt, words)? {
        match Acceptor::resume(rt.alloc(), file.read(rt)?, options, &saved) {
            Ok(acceptor) => return Ok(acceptor),
            Err(fault) => eprintln!(rt; "example_service: cannot use what was saved: {fault}")?,
        }
    }
    // A service that ran before, and saved nothing, starts as after a restart.
    let opening = if words.is_first {
        Opening::First
    } else {
        Opening::Restart(now(rt)?)
    };
    Ok(Acceptor::open(rt.alloc(), file.read(rt)?, options, opening)?)
}

/// Returns the bytes that the last run saved, if they are there, and removes their file: they may be used only once.
fn take_saved(rt: &HostRuntime, words: &Words<'_>) -> io::Result<Option<Vec<u8>>> {
    let Some(path) = words.saved else {
        return Ok(None);
    };
    match fs::read(rt, path) {
        Ok(octets) => {
            fs::remove_file(rt, path)?;
            // Otherwise a power failure could bring the file back.
            sync_folder(rt, path)?;
            Ok(Some(octets))
        }
        Err(error) if error.kind() == ErrorKind::NotFound => Ok(None),
        Err(error) => Err(error),
    }
}

/// Saves the replay caches into a file, which only its owner may read and write.
fn save(rt: &HostRuntime, acceptor: &Acceptor, path: &str) -> io::Result<ExitCode> {
    let octets = acceptor.save(rt.alloc())?;
    match write_file(rt.alloc(), &mut FileStore::new(rt), path, &octets) {
        Ok(Written::Synced) => Ok(ExitCode::SUCCESS),
        // After a power failure the file may be gone, and the next start refuses all clients for a while.
        Ok(Written::NotSynced(_)) => Ok(ExitCode::SUCCESS),
        Err(fault) => {
            eprintln!(rt; "example_service: {fault}")?;
            Ok(ExitCode::from(Status::Failed.code()))
        }
    }
}

/// Takes the keys of a new keytab file. If it can't be read, the acceptor keeps the keys that it has.
fn take_new_keys(
    rt: &HostRuntime,
    acceptor: &mut Acceptor,
    file: &mut KeytabFile<'_>,
) -> io::Result<()> {
    match file.read_new(rt) {
        Ok(Some(keytab)) => acceptor.replace(keytab),
        Ok(None) => {}
        Err(error) => eprintln!(rt; "example_service: {}: {error}", file.path)?,
    }
    Ok(())
}

fn answer_lines(
    rt: &HostRuntime,
    acceptor: &mut Acceptor,
    file: &mut KeytabFile<'_>,
) -> io::Result<()> {
    for line in rt.stdin().lines(rt.alloc()) {
        let line = line?;
        take_new_keys(rt, acceptor, file)?;
        match hex::decode(rt.alloc(), line.as_bytes()) {
            Ok(ap_req) => answer(rt, acceptor, &ap_req)?,
            Err(FromHexError::OutOfMemory) => println!(rt; "out of memory")?,
            Err(_) => println!(rt; "not hexadecimal digits")?,
        }
    }
    Ok(())
}

/// Prints who sent an AP-REQ, or why it is refused. Each call uses new random bytes.
fn answer(rt: &HostRuntime, acceptor: &mut Acceptor, ap_req: &[u8]) -> io::Result<()> {
    let mut confounder = [0; 16];
    rt.fill_bytes(&mut confounder)?;
    match acceptor.accept(rt.alloc(), now(rt)?, &confounder, ap_req) {
        Ok(accepted) => print_accepted(rt, &accepted),
        Err(ApFault::NotAnApReq) => println!(rt; "not an AP-REQ"),
        Err(ApFault::Refused(refusal)) => print_refused(rt, refusal, ap_req),
        // Nothing has changed, so the client may send the same AP-REQ again.
        Err(ApFault::Memory) => println!(rt; "out of memory"),
    }
}

/// Prints why an AP-REQ is refused, and which service and key its ticket names. Anyone may have written these.
fn print_refused(rt: &HostRuntime, refusal: ApRefusal, ap_req: &[u8]) -> io::Result<()> {
    let code = refusal.code().number();
    match TicketLabel::read(rt.alloc(), ap_req) {
        Ok(label) => println!(rt;
            "refused {code} {refusal}: for {}, key type {}",
            label.service, label.etype
        ),
        Err(_) => println!(rt; "refused {code} {refusal}"),
    }
}

/// Prints the client, what the ticket holds, and the AP-REP if the client asked for one.
fn print_accepted(rt: &HostRuntime, accepted: &Accepted) -> io::Result<()> {
    let service = accepted.service.to_text(rt.alloc())?;
    let ticket = accepted.ticket;
    print!(rt;
        "accepted {} for {service} session-key-type {} flags {:08x}",
        accepted.client,
        accepted.session_key.etype().number(),
        ticket.flags.bits()
    )?;
    print_time(rt, "authtime", Some(ticket.authtime))?;
    print_time(rt, "starttime", ticket.starttime)?;
    print_time(rt, "endtime", Some(ticket.endtime))?;
    print_time(rt, "renew-till", ticket.renew_till)?;
    if let Some(ap_rep) = &accepted.ap_rep {
        let digits = hex::encode(rt.alloc(), ap_rep.as_slice())?;
        print!(rt; " ap-rep {digits}")?;
    }
    println!(rt; "")
}

/// Prints a time in seconds since 1970, if the ticket has it.
fn print_time(rt: &HostRuntime, word: &str, time: Option<KTime>) -> io::Result<()> {
    match time {
        Some(time) => print!(rt; " {word} {}", time.seconds()),
        None => Ok(()),
    }
}
