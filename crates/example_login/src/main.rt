//! `example_login NAME SERVICE KEYTAB`: an example of a program that lets somebody in by a password. It logs in with
//! the password on the first line of standard input, checks with a keytab of this computer that the KDC is the realm's,
//! and prints when a ticket for the service ends, and the AP-REQ that presents it. A second line of standard input is
//! the service's reply: it prints whether the service sent it. Messages are in hexadecimal, as in `example_service`.
#![tactic(auto)]

use client_core::ReplyError;
use client_files::ClientError;
use client_sockets::{Client, Presented, SystemClient};
use command_line::{Status, open_missing_streams};
use cred_files::Credential;
use std::process::ExitCode;
use std::{env, io};

fn main(rt: HostRuntime) -> io::Result<ExitCode> {
    if let Err(fault) = open_missing_streams(&rt) {
        println!(rt; "{fault}")?;
        return Ok(ExitCode::from(Status::Failed.code()));
    }
    let args: Vec<String> = env::args(&rt)?.collect(rt.alloc())?;
    let [_, name, service, keytab] = args.as_slice() else {
        println!(rt; "usage: example_login NAME SERVICE KEYTAB")?;
        return Ok(ExitCode::from(Status::Usage.code()));
    };
    let status = match get_ticket(&rt, name.as_str(), service.as_str(), keytab.as_str()) {
        Ok(got) => show(&rt, &got)?,
        Err(fault) => {
            println!(rt; "{fault}")?;
            Status::Refused
        }
    };
    Ok(ExitCode::from(status.code()))
}

/// A ticket for a service, and the AP-REQ that presents it.
#[derive(Drop)]
struct Got {
    ticket: Credential,
    presented: Presented,
}

/// Opens a client for a principal, gets a ticket for a service, and makes the AP-REQ that presents it.
fn get_ticket(
    rt: &HostRuntime,
    name: &str,
    service: &str,
    keytab: &str,
) -> Result<Got, ClientError> {
    let mut client = Client::open(rt, name)?;
    let ticket = verified_ticket(&mut client, service, keytab)?;
    let presented = client.present(&ticket)?;
    Ok(Got { ticket, presented })
}

/// Logs in, verifies the login, and gets a ticket for a service. Without the second step, the person who types the
/// password could also answer in the KDC's place.
fn verified_ticket(
    client: &mut SystemClient<'_>,
    service: &str,
    keytab: &str,
) -> Result<Credential, ClientError> {
    let keytab = client.read_keytab(keytab)?;
    let password = client.ask_password()?;
    client.log_in(&password)?;
    client.verify(&keytab)?;
    client.ticket(service)
}

/// Prints when the ticket ends, and the AP-REQ. It judges the service's reply, if a line with one follows.
fn show(rt: &HostRuntime, got: &Got) -> io::Result<Status> {
    println!(rt; "{}", got.ticket.times.end_time.seconds())?;
    let ap_req = hex::encode(rt.alloc(), got.presented.ap_req.as_slice())?;
    println!(rt; "{ap_req}")?;
    match rt.stdin().lines(rt.alloc()).next() {
        Some(line) => judge(rt, &got.presented, line?.as_str()),
        None => Ok(Status::Done),
    }
}

/// Prints whether the service sent this reply.
fn judge(rt: &HostRuntime, presented: &Presented, line: &str) -> io::Result<Status> {
    let judged = match hex::decode(rt.alloc(), line.as_bytes()) {
        Ok(reply) => presented.judge(rt.alloc(), &reply),
        Err(_) => Err(ReplyError::NotAReply),
    };
    match judged {
        Ok(_) => {
            println!(rt; "the service has replied")?;
            Ok(Status::Done)
        }
        Err(fault) => {
            println!(rt; "{fault}")?;
            Ok(Status::Refused)
        }
    }
}
