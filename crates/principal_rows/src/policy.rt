//! What a principal is allowed, and until when.
use krb_fields::Second;

/// What a principal is allowed as a client and as a service.
#[derive(Clone, Copy, PartialEq, Eq)]
pub struct Policy {
    /// Whether it is denied as a client and as a service.
    pub disabled: bool,
    /// When it expires. From then on it is denied as a client and as a service.
    pub expires: Option<Second>,
    /// When its password expires. From then on the password is denied.
    pub password_expires: Option<Second>,
    /// Tickets that were first issued before this moment are denied.
    pub revoked_before: Option<Second>,
    /// The maximum lifetime of its tickets, in seconds.
    pub greatest_life: u32,
    /// How long its tickets may be renewable at most, in seconds.
    pub greatest_renewable: u32,
    /// Whether a client must prove that it has its key before it gets a ticket.
    pub preauth: bool,
    /// Whether its tickets may be FORWARDABLE.
    pub forwardable: bool,
    /// Whether its tickets may be PROXIABLE.
    pub proxiable: bool,
    /// Whether its tickets may be postdated.
    pub postdate: bool,
    /// Whether tickets for it have the flag OK-AS-DELEGATE.
    pub ok_as_delegate: bool,
    /// Whether tickets may be issued for it.
    pub service: bool,
}

impl Default for Policy {
    ghost use Rattle.std.specs.Prelude.{◌≡◌};
    ghost use Rattle.principal_rows.specs.Policy.{default_policy};

    // Promise, as Row::first: the row of a ..
    ghost is_default = { λ policy. policy ≡ default_policy };

    /// Returns the policy of a new principal.
    fn default() -> Policy {
        Policy {
            disabled: false,
            expires: None,
            password_expires: None,
            revoked_before: None,
            greatest_life: u32::MAX,
            greatest_renewable: u32::MAX,
            preauth: true,
            forwardable: true,
            proxiable: true,
            postdate: false,
            ok_as_delegate: false,
            service: true,
        }
    }
}
