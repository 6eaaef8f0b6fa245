//! A change of the values of a map.
ghost use Rattle.std.specs.Prelude.{◌≡◌, true, IfOk};

use std::alloc::{AllocError, Global};

/// What puts another value in the place of each.
pub trait Change<V> {
    /// The other value.
    ghost changed: { Self → V → V };

    /// The value that takes the place of this one.
    fn changed(&self, alloc: Global, value: &V) -> Result<V, AllocError>
        ensures { IfOk result (λ after. after ≡ changed self.now value.now) };

    /// Whether it leaves this value. It may say no of one that it leaves.
    fn keeps(&self, value: &V) -> bool
        ensures { result ≡ true → changed self.now value.now ≡ value.now };
}
