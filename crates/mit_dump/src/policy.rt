//! What a principal of a dump is allowed, and until when.
ghost use Rattle.std.specs.Prelude.{◌≡◌};
ghost use Rattle.mit_dump.specs.Policy.{has, life_of, moment_of, password_expiry, policy_of, renewable_life};

use crate::Attribute;
use crate::principal::{DumpedPrincipal, Numbers};
use krb_fields::Second;
use principal_rows::Policy;

impl DumpedPrincipal {
    /// Returns the policy that says the same about its tickets. A password that must be changed (`+needchange`) counts
    /// as expired. A field that a dump doesn't have gets the value of a new principal.
    pub fn policy(&self) -> Policy
        // Promise, as import_dump of kadm_changes: an imported database has ..
        ensures { result ≡ policy_of self.now.numbers }
    {
        let numbers = &self.numbers;
        Policy {
            disabled: numbers.has(Attribute::DisallowAllTix),
            expires: moment_of(numbers.expiration),
            password_expires: numbers.password_expiry(),
            greatest_life: life_of(numbers.max_life),
            greatest_renewable: numbers.renewable_life(),
            preauth: numbers.has(Attribute::RequiresPreAuth),
            forwardable: !numbers.has(Attribute::DisallowForwardable),
            proxiable: !numbers.has(Attribute::DisallowProxiable),
            postdate: !numbers.has(Attribute::DisallowPostdated),
            ok_as_delegate: numbers.has(Attribute::OkAsDelegate),
            service: !numbers.has(Attribute::DisallowSvr),
            ..Policy::default()
        }
    }
}

impl Numbers {
    /// Checks whether the principal has an attribute.
    pub fn has(&self, attribute: Attribute) -> bool
        ensures { result ≡ has self.now attribute }
    {
        self.attributes.has(attribute)
    }

    fn password_expiry(&self) -> Option<Second>
        ensures { result ≡ password_expiry self.now }
    {
        if self.has(Attribute::RequiresPwchange) {
            return Second::new(0);
        }
        moment_of(self.pw_expiration)
    }

    fn renewable_life(&self) -> u32
        ensures { result ≡ renewable_life self.now }
    {
        if self.has(Attribute::DisallowRenewable) {
            return 0;
        }
        self.max_renewable_life
    }
}

/// Returns a second, or `None` for 0, which is never.
fn moment_of(second: u32) -> Option<Second>
    ensures { result ≡ moment_of second }
{
    if second == 0 {
        return None;
    }
    Second::new(i64::from(second))
}

/// Returns a lifetime: 0 sets no limit.
fn life_of(seconds: u32) -> u32
    ensures { result ≡ life_of seconds }
{
    if seconds == 0 { u32::MAX } else { seconds }
}
