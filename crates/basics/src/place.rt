// A place in an array of N.

ghost use Rattle.std.specs.Prelude.{◌≡◌, ◌<◌, ℕ, ltb, Some, None, if◌then◌else◌};

use std::marker::Model;

// A number below N. In a clause it is that number.
#[derive(Clone, Copy, PartialEq, Eq)]
pub struct Place<const N: usize> {
    pub at: usize,
}

impl<const N: usize> Model for Place<N> {
    ghost Value = { ℕ };

    ghost view = { λ p. p.at };

    ghost invariant = { λ p. p.at < N };

    ghost inverse = { λ n. record { at = n } };
}

impl<const N: usize> Place<N> {
    // The place of a number; at N and past it there is none.
    pub fn of(at: usize) -> Option<Self>
        ensures { result ≡ (if ltb at N then Some at else None) }
    {
        if at < N { Some(Place { at }) } else { None }
    }

    pub fn index(&self) -> usize
        ensures same { result ≡ self.now }
        ensures below { result < N }
    {
        self.at
    }
}
