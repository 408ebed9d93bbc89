//! The counts as text.
ghost use Rattle.std.specs.Prelude.{◌≡◌, ◌++◌, OnOk};
ghost use Rattle.std.specs.List.{flat_map};
ghost use Rattle.kdc_metrics.specs.CountText.{counts_text, exchange_word, outcome_word, reply_labels, reply_sample};
ghost use Rattle.kdc_metrics.specs.CountText.{ap_sample, as_sample, replies_text, request_labels, request_sample};
ghost use Rattle.kdc_metrics.specs.CountText.{rule_word, tgs_sample};
ghost use Rattle.kdc_metrics.specs.Places.{kinds};

use crate::counts::Counts;
use crate::kind::Kind;
use crate::places::{BEFORE_RULES, BETWEEN_RULES};
use crate::prometheus::{NumberType, push_head, push_sample, push_str, push_value};
use kdc_core::{ApRefusal, AsRefusal, Bears, TgsRefusal};
use request_log::Transport;
use std::alloc::AllocError;

const REQUESTS: &str = "kdcd_requests_total";

const REQUESTS_HELP: &str = "Requests, by exchange, outcome, and the rule that refused.";

const REPLIES: &str = "kdcd_replies_total";

const REPLIES_HELP: &str = "Replies, by transport, and whether they were sent.";

impl Counts {
    /// Appends the counts in Prometheus' text format: a sample for each kind of request, and for the replies of each
    /// transport that were sent, and not sent.
    pub fn push_text(&self, text: &mut Vec<u8>) -> Result<(), AllocError>
        // Promise: the text has one sample for each kind, with the log's words.
        ensures { OnOk result (text.new.items ≡ text.old.items ++ counts_text self.now) }
    {
        push_head(text, REQUESTS, NumberType::Counter, REQUESTS_HELP)?;
        push_all_requests(text, self)?;
        push_replies(text, self)
    }
}

/// Appends the samples of all kinds of requests.
fn push_all_requests(text: &mut Vec<u8>, counts: &Counts) -> Result<(), AllocError>
    ensures { OnOk result (text.new.items ≡ text.old.items ++ flat_map (request_sample counts.now) kinds) }
{
    push_requests(text, counts, BEFORE_RULES.as_slice())?;
    push_as_rules(text, counts, AsRefusal::ALL.as_slice())?;
    push_requests(text, counts, BETWEEN_RULES.as_slice())?;
    push_tgs_rules(text, counts, TgsRefusal::OWN.as_slice())?;
    push_ap_rules(text, counts, ApRefusal::ALL.as_slice())
}

/// Appends the samples of these kinds of requests.
fn push_requests(text: &mut Vec<u8>, counts: &Counts, kinds: &[Kind]) -> Result<(), AllocError>
    ensures { OnOk result (text.new.items ≡ text.old.items ++ flat_map (request_sample counts.now) kinds.now) }
{
    let mut rest = kinds;
    while let [kind, others @ ..] = rest {
        push_request(text, counts, *kind)?;
        rest = others;
    }
    Ok(())
}

/// Appends the samples of AS-REQs that these rules refused.
fn push_as_rules(text: &mut Vec<u8>, counts: &Counts, rules: &[AsRefusal]) -> Result<(), AllocError>
    ensures { OnOk result (text.new.items ≡ text.old.items ++ flat_map (as_sample counts.now) rules.now) }
{
    let mut rest = rules;
    while let [rule, others @ ..] = rest {
        push_request(text, counts, Kind::AsRefused(*rule))?;
        rest = others;
    }
    Ok(())
}

/// Appends the samples of TGS-REQs that these rules refused.
fn push_tgs_rules(
    text: &mut Vec<u8>,
    counts: &Counts,
    rules: &[TgsRefusal],
) -> Result<(), AllocError>
    ensures { OnOk result (text.new.items ≡ text.old.items ++ flat_map (tgs_sample counts.now) rules.now) }
{
    let mut rest = rules;
    while let [rule, others @ ..] = rest {
        push_request(text, counts, Kind::TgsRefused(*rule))?;
        rest = others;
    }
    Ok(())
}

/// Appends the samples of TGS-REQs that these rules of every AP-REQ refused.
fn push_ap_rules(text: &mut Vec<u8>, counts: &Counts, rules: &[ApRefusal]) -> Result<(), AllocError>
    ensures { OnOk result (text.new.items ≡ text.old.items ++ flat_map (ap_sample counts.now) rules.now) }
{
    let mut rest = rules;
    while let [rule, others @ ..] = rest {
        push_request(text, counts, Kind::TgsRefused(TgsRefusal::Ap(*rule)))?;
        rest = others;
    }
    Ok(())
}

fn push_request(text: &mut Vec<u8>, counts: &Counts, kind: Kind) -> Result<(), AllocError>
    ensures { OnOk result (text.new.items ≡ text.old.items ++ request_sample counts.now kind) }
{
    push_str(text, REQUESTS)?;
    push_request_labels(text, kind)?;
    push_value(text, counts.requests(kind))
}

fn push_request_labels(text: &mut Vec<u8>, kind: Kind) -> Result<(), AllocError>
    ensures { OnOk result (text.new.items ≡ text.old.items ++ request_labels kind) }
{
    push_pair(text, b"{exchange=\"", exchange_word(kind))?;
    push_pair(text, b"\",outcome=\"", outcome_word(kind))?;
    push_pair(text, b"\",rule=\"", rule_word(kind))?;
    text.extend_from_slice(b"\"}")
}

/// Appends what stands in front of a label's value, and the value.
fn push_pair(text: &mut Vec<u8>, front: &[u8], value: &str) -> Result<(), AllocError>
    ensures { OnOk result (text.new.items ≡ text.old.items ++ (front.now ++ value.now)) }
{
    text.extend_from_slice(front)?;
    text.extend_from_slice(value.as_bytes())
}

fn push_replies(text: &mut Vec<u8>, counts: &Counts) -> Result<(), AllocError>
    ensures { OnOk result (text.new.items ≡ text.old.items ++ replies_text counts.now) }
{
    push_head(text, REPLIES, NumberType::Counter, REPLIES_HELP)?;
    push_reply(text, counts, Transport::Udp, true)?;
    push_reply(text, counts, Transport::Udp, false)?;
    push_reply(text, counts, Transport::Tcp, true)?;
    push_reply(text, counts, Transport::Tcp, false)
}

fn push_reply(
    text: &mut Vec<u8>,
    counts: &Counts,
    transport: Transport,
    is_sent: bool,
) -> Result<(), AllocError>
    ensures { OnOk result (text.new.items ≡ text.old.items ++ reply_sample counts.now transport is_sent) }
{
    let labels = reply_labels(transport, is_sent);
    push_sample(text, REPLIES, labels, counts.replies(transport, is_sent))
}

fn reply_labels(transport: Transport, is_sent: bool) -> &'static [u8]
    ensures { result.now ≡ reply_labels transport is_sent }
{
    match (transport, is_sent) {
        (Transport::Udp, true) => b"{transport=\"udp\",sent=\"yes\"}",
        (Transport::Udp, false) => b"{transport=\"udp\",sent=\"no\"}",
        (Transport::Tcp, true) => b"{transport=\"tcp\",sent=\"yes\"}",
        (Transport::Tcp, false) => b"{transport=\"tcp\",sent=\"no\"}",
    }
}

/// Returns the exchange of a kind, or nothing for what is no request or was not read.
fn exchange_word(kind: Kind) -> &'static str
    ensures { result.now ≡ exchange_word kind }
{
    match kind {
        Kind::NoRequest => "",
        Kind::Unanswered => "",
        Kind::AsTicket => "as",
        Kind::AsTooBig => "as",
        Kind::AsRefused(_) => "as",
        Kind::TgsTicket => "tgs",
        Kind::TgsTooBig => "tgs",
        Kind::TgsAgain(_) => "tgs",
        Kind::TgsRefused(_) => "tgs",
    }
}

/// Returns the outcome of a kind, as the log has it, but for repeats and replies that were too big.
fn outcome_word(kind: Kind) -> &'static str
    ensures { result.now ≡ outcome_word kind }
{
    match kind {
        Kind::NoRequest => "none",
        Kind::Unanswered => "unanswered",
        Kind::AsTicket => "ticket",
        Kind::AsTooBig => "too-big",
        Kind::AsRefused(_) => "refused",
        Kind::TgsTicket => "ticket",
        Kind::TgsTooBig => "too-big",
        Kind::TgsAgain(Bears::Ticket) => "ticket-again",
        Kind::TgsAgain(Bears::Error) => "refused-again",
        Kind::TgsRefused(_) => "refused",
    }
}

/// Returns the log's name for the rule of a kind, or nothing if no rule refused.
fn rule_word(kind: Kind) -> &'static str
    ensures { result.now ≡ rule_word kind }
{
    match kind {
        Kind::NoRequest => "",
        Kind::Unanswered => "",
        Kind::AsTicket => "",
        Kind::AsTooBig => "",
        Kind::AsRefused(rule) => rule.word(),
        Kind::TgsTicket => "",
        Kind::TgsTooBig => "",
        Kind::TgsAgain(_) => "",
        Kind::TgsRefused(rule) => rule.word(),
    }
}
