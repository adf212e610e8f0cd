//! Lists of values as a client wrote them.

use std::marker::Model;

/// Values in the order in which they were written.
pub struct WrittenValues<T> {
    values: Vec<T>,
}

// By hand, so that crates above drop it whole.
impl<T: Drop> Drop for WrittenValues<T> {
    fn drop(self) {
        let Self { values: _ } = self;
    }
}

impl<T> Model for WrittenValues<T> {
    ghost use Rattle.std.specs.Prelude.{List};

    ghost Value = { List T };

    ghost view = { λ m. m.values.items };
}

impl<T> WrittenValues<T> {
    ghost use Rattle.std.specs.Prelude.{◌≡◌};

    /// These values, in the vector's memory.
    pub fn new(values: Vec<T>) -> WrittenValues<T>
        ensures { result ≡ values.items }
    {
        WrittenValues { values }
    }

    /// The values, in order.
    pub fn as_slice(&self) -> &[T]
        ensures { result.now ≡ self.now }
    {
        &self.values
    }
}
