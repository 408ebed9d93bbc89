//! Laws of the numbers that are assigned.
ghost use Rattle.enctypes.specs.Assigned.{AreNumbered};

/// Each encryption type, checksum type and key usage has the number that RFC 4120, 3962 or 8009 assigns.
pub fn every_number()
    // Promise: each number that RFC 4120 or IANA assigns is the one in their tables: of messages, padata, names,
    // encryption and checksum types, key usages, error codes.
    ensures { AreNumbered }
{}
