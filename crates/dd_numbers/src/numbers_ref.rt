ghost use Rattle.std.specs.Prelude.{◌≡◌, ◌+◌, ◌<◌, ◌∷◌, [], length, slice_index};

/// Numbers that are lent, in the form in which they are kept. A reader of many numbers matches the
/// form once, and reads slices from then on.
#[derive(Clone, Copy, Drop)]
pub enum NumbersRef<'a> {
    Bytes(&'a [u8]),
    Words(&'a [u32]),
}

impl<'a> NumbersRef<'a> {
    ghost use Rattle.dd_numbers.specs.Numbers.{lent_items};

    /// The number at a place, counted from 0.
    pub fn get(self, place: usize) -> u32
        requires { place < length (lent_items self) }
        ensures { result ≡ slice_index (lent_items self.entry) place }
    {
        match self {
            NumbersRef::Bytes(bytes) => u32::from(bytes[place]),
            NumbersRef::Words(words) => words[place],
        }
    }

    /// The number at a place, and the two after it.
    pub fn three_from(self, place: usize) -> [u32; 3]
        requires { place + 2 < length (lent_items self) }
        ensures { result ≡ slice_index (lent_items self.entry) place
            ∷ slice_index (lent_items self.entry) (place + 1)
            ∷ slice_index (lent_items self.entry) (place + 2) ∷ [] }
    {
        match self {
            NumbersRef::Bytes(bytes) => [
                u32::from(bytes[place]),
                u32::from(bytes[place + 1]),
                u32::from(bytes[place + 2]),
            ],
            NumbersRef::Words(words) => [words[place], words[place + 1], words[place + 2]],
        }
    }
}
