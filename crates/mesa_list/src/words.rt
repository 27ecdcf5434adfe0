// Words, wherever they stand.
ghost use Rattle.std.specs.Prelude.{◌≡◌, ◌<◌, ℕ, List, [], length, slice_index_or};

/// Words that may be copied from where they stand.
pub trait Words {
    ghost words: { Self → List (List ℕ) };

    /// How many there are.
    fn count(&self) -> usize
        ensures { result ≡ length (words self.now) };

    /// The word at a place, counted from 0.
    fn word(&self, place: usize) -> &[u8]
        requires { place < length (words self.now) }
        ensures { result.now ≡ slice_index_or (words self.now) place [] };
}
