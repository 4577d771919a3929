//! Values that are a fixed number of bytes.
ghost use Rattle.std.specs.Prelude.{◌≡◌, ℕ, List, replicate, length};

/// A value of `WIDTH` bytes.
pub trait Record: Copy {
    /// The number of bytes of each value.
    const WIDTH: usize;

    ghost WIDTH: { ℕ };

    // the bytes of a value
    ghost bytes_of: { Self → List ℕ };

    /// The value whose bytes are all zero.
    fn zero() -> Self
        ensures { bytes_of result ≡ replicate WIDTH 0 };

    /// The bytes of the value, `WIDTH` of them.
    fn bytes(&self) -> &[u8]
        ensures value { result.now ≡ bytes_of self.now }
        ensures width { length result.now ≡ WIDTH };
}

impl<const W: usize> Record for [u8; W] {
    const WIDTH: usize = W;

    ghost WIDTH = { W };

    ghost bytes_of = { λ r. r };

    fn zero() -> [u8; W] {
        [0; W]
    }

    fn bytes(&self) -> &[u8] {
        self
    }
}
