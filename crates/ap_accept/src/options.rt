//! What an acceptor is given besides its keys.
ghost use Rattle.std.specs.Prelude.{◌≡◌};

/// The options of an acceptor. `AcceptorOptions::default()` suits most services.
#[derive(Debug, Clone, Copy, PartialEq, Eq)]
pub struct AcceptorOptions {
    /// The size of each client's replay cache, in authenticators. That is how many AP-REQs one client may send in five
    /// minutes. With 0 the acceptor refuses everyone.
    pub remembered: u32,
}

impl Default for AcceptorOptions {
    ghost is_default = { λ options. options.remembered ≡ 1024 };

    /// Returns the options with a replay cache of 1,024 authenticators for each client.
    fn default() -> AcceptorOptions {
        AcceptorOptions { remembered: 1_024 }
    }
}
