// The test by which an element is found.
ghost use Rattle.std.specs.Prelude.{◌≡◌, Bool};

// An element that can be told by a key. A trait and no closure: the contract cites what is to match, for every key.
pub trait Sought {
    type Key: Copy;

    ghost hit: { Self → Self.Key → Bool };

    fn matches(&self, key: Self::Key) -> bool
        ensures { result ≡ hit self.now key };
}
