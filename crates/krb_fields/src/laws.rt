//! Laws of the numbers that are assigned.
ghost use Rattle.krb_fields.specs.Assigned.{AreAssigned};

/// Each number of [`numbers`](crate::numbers) is the one that RFC 4120 or IANA assigns. The code and the definitions
/// cite the constants by name, so it is this law that fails if two of them are exchanged.
pub fn every_number()
    // Promise, as every_number of enctypes: each number that RFC ..
    ensures { AreAssigned }
{}
