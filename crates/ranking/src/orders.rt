// The interface of an order over one kind of item.

ghost use Rattle.std.specs.Prelude.{◌≡◌, ℕ, Bool};
ghost use Rattle.ranking.specs.Laws.{Laws};

// An item that carries a unit number.
pub trait Numbered {
    ghost unit: { Self → ℕ };

    fn unit(&self) -> usize
        ensures { result ≡ unit self.now };
}

// An order of items. Its meaning is one relation, ahead, and its laws are owed by each implementation.
pub trait Order {
    type Item: Numbered + Copy;

    ghost ahead: { Self → Self.Item → Self.Item → Bool };

    // Whether `a` is ahead of `b`.
    fn ahead(&self, a: &Self::Item, b: &Self::Item) -> bool
        ensures { result ≡ ahead self.now a.now b.now };

    ghost laws: { (s : Self) → Laws Self.Item.Numbered.unit (ahead s) };
}
