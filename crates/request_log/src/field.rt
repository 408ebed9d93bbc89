//! The fields of a log entry.
ghost use Rattle.std.specs.Prelude.{◌≡◌, ◌++◌, ◌∷◌, [], List, OnOk, true};
ghost use Rattle.std.specs.List.{list_all};
ghost use Rattle.request_log.specs.Field.{Field, field, is_column, name_text};
ghost use Rattle.request_log.specs.Lines.{is_printable};

use std::alloc::{AllocError, Global};

/// The name of a field.
#[derive(Clone, Copy, PartialEq, Eq)]
pub enum FieldName {
    /// When the request came in, in UTC.
    Time,
    /// The address that it was sent from.
    Peer,
    /// `udp` or `tcp`.
    Transport,
    /// `as` or `tgs`.
    Exchange,
    /// The client's name.
    Client,
    /// The service's name.
    Service,
    /// `ticket`, `refused`, `none` for bytes that are not a request, or `unanswered` if memory ran out.
    Outcome,
    /// The ticket's lifetime.
    Lifetime,
    /// The error code (RFC 4120, section 7.5.9).
    Code,
    /// A word for the error code.
    Reason,
    /// The rule that refused the request.
    Rule,
    /// The encryption types of the session key and of the service's key.
    Etype,
    /// The ticket's flags, in the letters of `klist -f`.
    Flags,
    /// When the ticket ends.
    Until,
    /// How long it can be renewed.
    Renew,
    /// Whether the reply is one that was sent before.
    Repeat,
    /// `no` if the reply was not sent.
    Sent,
}

impl FieldName {
    /// Returns the name as the log writes it.
    pub fn text(self) -> &'static str
        ensures { result.now ≡ name_text self }
    {
        match self {
            FieldName::Time => "time",
            FieldName::Peer => "peer",
            FieldName::Transport => "transport",
            FieldName::Exchange => "exchange",
            FieldName::Client => "client",
            FieldName::Service => "service",
            FieldName::Outcome => "outcome",
            FieldName::Lifetime => "lifetime",
            FieldName::Code => "code",
            FieldName::Reason => "reason",
            FieldName::Rule => "rule",
            FieldName::Etype => "etype",
            FieldName::Flags => "flags",
            FieldName::Until => "until",
            FieldName::Renew => "renew",
            FieldName::Repeat => "repeat",
            FieldName::Sent => "sent",
        }
    }

    /// Checks whether a line of text has this value at a fixed place, without its name.
    pub fn is_column(self) -> bool
        ensures { result ≡ is_column self }
    {
        match self {
            FieldName::Rule
            | FieldName::Etype
            | FieldName::Flags
            | FieldName::Until
            | FieldName::Renew
            | FieldName::Repeat
            | FieldName::Sent => false,
            FieldName::Time
            | FieldName::Peer
            | FieldName::Transport
            | FieldName::Exchange
            | FieldName::Client
            | FieldName::Service
            | FieldName::Outcome
            | FieldName::Lifetime
            | FieldName::Code
            | FieldName::Reason => true,
        }
    }
}

/// Takes the fields of an entry, in their order.
pub trait FieldWriter {
    // It has these fields so far.
    ghost Holds: { Self → List Field → Type 0 };

    /// Adds a field with this value.
    fn put(&mut self, alloc: Global, name: FieldName, value: &[u8]) -> Result<(), AllocError>
        ensures { (fields : List Field) → Holds self.old fields
            → OnOk result (Holds self.new (fields ++ field name value.now ∷ [])) };

    /// Adds a field with this value, whose bytes are printable.
    fn put_printable(
        &mut self,
        alloc: Global,
        name: FieldName,
        value: &[u8],
    ) -> Result<(), AllocError>
        requires { list_all is_printable value.now ≡ true }
        ensures { (fields : List Field) → Holds self.old fields
            → OnOk result (Holds self.new (fields ++ field name value.now ∷ [])) };
}
