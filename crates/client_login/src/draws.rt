//! What a client draws at random. Each call takes its bytes from the generator once.
ghost use Rattle.std.specs.Prelude.{◌≡◌, ◌<◌};
ghost use Rattle.client_login.specs.Draws.{after_confounder, after_nonce, drawn_confounder, drawn_nonce};

use rand_core::Rng;

/// Returns the number that a reply repeats. It is below 2147483648, because many KDCs drop a request with a larger one.
pub fn draw_nonce<R: Rng>(rng: &mut R) -> u32
    // Promise (value, small, drawn): a nonce is the number in the generator's next 4 bytes, without its highest bit, so
    // that it is below 2147483648.
    ensures value { result ≡ drawn_nonce (R.stream rng.old) }
    ensures small { result < 2147483648 }
    ensures drawn { R.stream rng.new ≡ after_nonce (R.stream rng.old) }
{
    let mut octets = [0; 4];
    rng.fill_bytes(&mut octets);
    u32::from_be_bytes(octets) % 0x8000_0000
}

/// Returns the confounder for what the client encrypts: 16 bytes.
pub fn draw_confounder<R: Rng>(rng: &mut R) -> [u8; 16]
    // Promise (value, drawn): a confounder is the generator's next 16 bytes.
    ensures value { result ≡ drawn_confounder (R.stream rng.old) }
    ensures drawn { R.stream rng.new ≡ after_confounder (R.stream rng.old) }
{
    let mut octets = [0; 16];
    rng.fill_bytes(&mut octets);
    octets
}
