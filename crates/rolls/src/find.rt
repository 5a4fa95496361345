// Finding by key: one function for members, resources and trades.
ghost use Rattle.std.specs.Prelude.{◌≡◌, ◌<◌, Bool, length, IfSome, position};

// What is found by a key.
pub trait Keyed {
    type Key;

    // Whether an element has a key.
    ghost matches: { Self → Self.Key → Bool };

    fn has_key(&self, key: &Self::Key) -> bool
        ensures { result ≡ matches self.now key.now };
}

// The first place whose element has the key.
pub fn find<X: Keyed>(items: &[X], key: &X::Key) -> Option<usize>
    ensures value { result ≡ position (λ x. X.matches x key.now) items.now }
    ensures within { IfSome result (λ i. i < length items.now) }
{
    items.iter().position(|x| x.has_key(key))
}
