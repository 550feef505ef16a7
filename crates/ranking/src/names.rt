// Names, and the order by name.

ghost use Rattle.std.specs.Prelude.{◌≡◌, ℕ, List};
ghost use Rattle.std.specs.Int.{w64, from_be_bytes};
ghost use Rattle.ranking.specs.Ahead.{lower_first, name_first, by_name};
ghost use Rattle.ranking.specs.Compares.{by_name_laws};

use crate::orders::{Numbered, Order};
use std::marker::PhantomData;

// The name of a unit: eight bytes, padded on the right.
pub type Name = [u8; 8];

// An item that carries a name beside its unit number.
pub trait Named: Numbered {
    ghost name: { Self → List ℕ };

    fn name(&self) -> Name
        ensures { result ≡ name self.now };
}

// A name as one number, which is lower for a lower name: compared as arrays, names took several times as long.
fn number(name: Name) -> u64
    ensures { result ≡ from_be_bytes w64 name }
{
    u64::from_be_bytes(name)
}

// Whether the number `m` is lower, with `ties` as the answer for equal numbers.
fn lower_first(m: u64, n: u64, ties: bool) -> bool
    ensures { result ≡ lower_first m n ties }
{
    m < n || m == n && ties
}

// Whether the name `a` is ahead of the name `b`, with `ties` as the answer for equal names.
fn name_first(a: Name, b: Name, ties: bool) -> bool
    ensures { result ≡ name_first a b ties }
{
    lower_first(number(a), number(b), ties)
}

// The order by name: the lower name is ahead, byte by byte, then the lower unit number.
// `ByName { of: PhantomData }` is one, also in a constant; so is `default()` of an item that has a default, as exits and rows have.
#[derive(Clone, Copy, Default)]
pub struct ByName<T> {
    pub of: PhantomData<T>,
}

impl<T: Named + Copy> Order for ByName<T> {
    type Item = T;

    ghost ahead = { λ _. by_name T.unit T.name };

    ghost laws = { λ s. by_name_laws T.unit T.name };

    fn ahead(&self, a: &T, b: &T) -> bool {
        name_first(a.name(), b.name(), a.unit() < b.unit())
    }
}
