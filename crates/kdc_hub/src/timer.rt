//! The timer of tasks that are repeated after some seconds.
ghost use Rattle.std.specs.Prelude.{◌≡◌};
ghost use Rattle.kdc_hub.specs.Timer.{due_at};

use krb_fields::Moment;

/// Returns the moment of the last poll if a task is due that is repeated after this number of seconds. It is due if it
/// was never done, if the seconds have passed since it was done last, or if the clock went back behind that moment.
pub fn due_at(seconds: i64, last: &Option<Moment>, polled: &Option<Moment>) -> Option<Moment>
    // Promise, as serve_life: after a period's rounds ..
    ensures { result ≡ due_at seconds last.now polled.now }
{
    match (last, polled) {
        (_, None) => None,
        (None, Some(at)) => Some(*at),
        (Some(before), Some(at)) => {
            if before.sec <= at.sec && at.sec - before.sec < seconds {
                None
            } else {
                Some(*at)
            }
        }
    }
}
