ghost use Rattle.std.specs.Prelude.{◌≡◌};

use crate::quantity::Quantity;

// What has a delay of a kind: a delay, or a value that holds one.
pub trait HasDelay<D: Quantity> {
    ghost delay_of: { Self → D };

    fn delay(&self) -> D
        ensures { result ≡ delay_of self.now };
}

impl<D: Quantity> HasDelay<D> for D {
    ghost delay_of = { λ x. x };

    fn delay(&self) -> D {
        *self
    }
}
