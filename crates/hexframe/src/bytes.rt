// A few bytes held by value, in memory of fixed size.
ghost use Rattle.std.specs.Prelude.{◌≡◌, [], ◌++◌, ◌+◌, ◌≤◌, length};

use std::marker::Model;

/// At most N bytes, held in N places that are cleared to zero beforehand.
#[derive(Clone, Copy)]
pub struct Bytes<const N: usize> {
    pub(crate) places: [u8; N],
    pub(crate) count: usize,
}

impl<const N: usize> Model for Bytes<N> {
    ghost use Rattle.std.specs.Prelude.{ℕ, List, take};
    ghost use Rattle.hexframe.specs.Held.{Held, held, held-take};

    ghost Value = { List ℕ };

    ghost view = { λ b. take b.count b.places };

    ghost invariant = { Held N };

    ghost inverse = { held N };

    ghost inverse_ok = { held-take N };
}

impl<const N: usize> Bytes<N> {
    /// No byte.
    pub fn new() -> Bytes<N>
        ensures { result ≡ [] }
    {
        Bytes {
            places: [0; N],
            count: 0,
        }
    }

    /// How many there are.
    pub fn len(&self) -> usize
        ensures { result ≡ length self.now }
    {
        self.as_slice().len()
    }

    /// The bytes as a part of what is held.
    pub fn as_slice(&self) -> &[u8]
        ensures { result.now ≡ self.now }
    {
        &self.places[..self.count]
    }

    /// Puts more bytes behind the last.
    pub fn extend(&mut self, more: &[u8])
        requires { length self.old + length more.now ≤ N }
        ensures { self.new ≡ self.old ++ more.now }
    {
        let from = self.count;
        let to = from + more.len();
        let places = &mut self.places[..];
        places[from..to].copy_from_slice(more);
        self.count = to;
    }
}
