//! Lists of refusals: named reasons, each with its condition, in the order in which they are checked.
#![tactic(auto)]

ghost use Rattle.std.specs.Prelude.{◌≡◌};
ghost use Rattle.rule_lists.specs.Refusals.{decided, first_holding};

use std::alloc::AllocError;

/// What was found, or why it is refused. The outer error says that memory ran out before either was known.
pub type Attempt<T, R> = Result<Result<T, R>, AllocError>;

/// Returns the reason of the first condition that holds.
pub fn first_holding<R: Copy>(rules: &[(bool, R)]) -> Option<R>
    // Promise: the result is the reason of the first condition that holds; if none holds, it is what was found.
    ensures { result ≡ first_holding rules.now }
{
    for (holds, reason) in rules {
        if *holds {
            return Some(*reason);
        }
    }
    None
}

/// Returns `found` if none of the conditions holds. Fails with the reason of the first that holds, or with `otherwise`
/// if nothing was found.
pub fn decide<T: Drop, R: Copy>(rules: &[(bool, R)], found: Option<T>, otherwise: R) -> Result<T, R>
    // Promise, as first_holding: the result is the ..
    ensures { result ≡ decided rules.now found otherwise }
{
    match first_holding(rules) {
        Some(reason) => Err(reason),
        None => found.ok_or(otherwise),
    }
}
