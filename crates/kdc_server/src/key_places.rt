//! Where the KDC's cache has its keys.
ghost use Rattle.std.specs.Prelude.{◌≡◌};

use kdc_core::Kdc;
use rand_chacha::ChaCha20Rng;
use rand_core::{Rng, SeedableRng};

/// Has the KDC place the keys of its cache by a secret of this start: 16 bytes of the seed's second stream. No answer
/// draws from that.
pub(crate) fn placed(mut kdc: Kdc, seed: [u8; 32]) -> Kdc
    ensures { result ≡ kdc }
{
    let mut rng = ChaCha20Rng::from_seed(seed);
    rng.set_stream(1);
    let mut secret = [0; 16];
    rng.fill_bytes(&mut secret);
    kdc.place_keys(&secret);
    kdc
}
