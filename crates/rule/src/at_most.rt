// Short lists in fixed memory.
ghost use Rattle.std.specs.Prelude.{◌≡◌, ◌<◌, ◌≤◌, List, [], ◌∷◌, ◌++◌, length, take, ⊤};

use std::alloc::AllocError;
use std::marker::Model;

// What stands behind the last value of a list. It is always the same, so that a list gives its fields back and may be copied.
pub trait Blank: Copy {
    ghost blank: { Self };

    fn blank() -> Self
        ensures { result ≡ blank };
}

impl Blank for usize {
    ghost blank = { 0 };

    fn blank() -> usize {
        0
    }
}

impl Blank for bool {
    ghost use Rattle.std.specs.Prelude.{false};

    ghost blank = { false };

    fn blank() -> bool {
        false
    }
}

// At most N values, in order.
pub struct AtMost<T: Blank, const N: usize> {
    values: [T; N],
    many: usize,
}

// Clauses see the list of the values.
impl<T: Blank, const N: usize> Model for AtMost<T, N> {
    ghost use Rattle.std.specs.Prelude.{◌≡◌, ◌≤◌, ◌-◌, ◌++◌, List, length, take, drop, replicate};
    ghost use Rattle.std.proofs.Common.{arith, length-take-le, take-append-drop};

    ghost Value = { List T };

    ghost view = { λ s. take s.many s.values };

    ghost invariant = { λ s. (s.many ≤ N) × (length s.values ≡ N) × (drop s.many s.values ≡ replicate (N - s.many) T.blank) };

    ghost inverse = { λ xs. record { values = xs ++ replicate (N - length xs) T.blank; many = length xs } };

    ghost inverse_ok = { λ s h i. record {
      values = (let full : take s.many s.values ++ replicate (N - length (take s.many s.values)) T.blank ≡ s.values = rw (length-take-le s.many s.values (omega (arith, h.0, h.1)), ← h.2) (take-append-drop s.many s.values) in full) i;
      many = length-take-le s.many s.values (omega (arith, h.0, h.1)) i;
    } };
}

impl<T: Blank, const N: usize> Copy for AtMost<T, N> {}

impl<T: Blank, const N: usize> Clone for AtMost<T, N> {
    ghost is_clone = { λ a b. a ≡ b };

    ghost is_infallible = { λ _. ⊤ };

    fn clone(&self) -> Result<Self, AllocError> {
        Ok(*self)
    }
}

impl<T: Blank, const N: usize> Default for AtMost<T, N> {
    ghost is_default = { λ s. s ≡ [] };

    fn default() -> Self {
        AtMost {
            values: [T::blank(); N],
            many: 0,
        }
    }
}

impl<T: Blank, const N: usize> AtMost<T, N> {
    pub fn push(&mut self, value: T)
        requires { length self.old < N }
        ensures { self.new ≡ self.old ++ value ∷ [] }
    {
        self.values[self.many] = value;
        self.many += 1;
    }

    pub fn as_slice(&self) -> &[T]
        ensures values { result.now ≡ self.now }
        ensures within { length self.now ≤ N }
    {
        &self.values[..self.many]
    }
}
