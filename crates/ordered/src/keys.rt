// Keys and their order.
ghost use Rattle.std.specs.Prelude.{◌≡◌, Bool, true, false};

/// A total order of keys. Whoever brings one shows its three laws.
pub trait KeyOrder: Copy {
    ghost before: { Self → Self → Bool };

    /// Whether this key comes before another.
    fn is_before(&self, other: &Self) -> bool
        ensures { result ≡ before self.now other.now };

    ghost irreflexive: { (x : Self) → before x x ≡ false };

    ghost transitive: { (x y z : Self) → before x y ≡ true → before y z ≡ true
        → before x z ≡ true };

    ghost total: { (x y : Self) → before x y ≡ false → before y x ≡ false → x ≡ y };
}

/// An element that has a key. Each kind of element names its own kind of key.
pub trait Keyed: Copy {
    /// What an element is found by.
    type Key: KeyOrder;

    ghost keyed: { Self → Self.Key };

    /// The key of this element.
    fn key(&self) -> Self::Key
        ensures { result ≡ keyed self.now };
}
