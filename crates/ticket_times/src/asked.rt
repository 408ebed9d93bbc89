//! What a request asks for.
ghost use Rattle.std.specs.Prelude.{◌≡◌};
ghost use Rattle.ticket_times.specs.Asked.{asks, keeps_ticket};

use krb_fields::KdcOption;
use krb_types::ReqBodyRef;

/// Checks whether the request asks for the option.
pub fn asks(body: &ReqBodyRef<'_>, option: KdcOption) -> bool
    // Promise: `asks` says whether a request asks for an option, and `keeps_ticket` whether it asks for a renewal or a
    // validation.
    ensures { result ≡ asks body.now option }
{
    body.kdc_options.has(option)
}

/// Checks whether the request renews or validates the presented ticket.
pub fn keeps_ticket(body: &ReqBodyRef<'_>) -> bool
    // Promise, as asks: `asks` says whether a ..
    ensures { result ≡ keeps_ticket body.now }
{
    asks(body, KdcOption::Renew) || asks(body, KdcOption::Validate)
}
