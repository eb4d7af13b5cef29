//! The numbers of further nodes, place by place.
ghost use Rattle.std.specs.Prelude.{◌≡◌, ◌<◌, ◌^◌};
ghost use Rattle.bit_blast.specs.Numbering.{nth};

/// A number for each place: that of place 0 first, and then each one, or each third one.
#[derive(Clone, Copy, Debug)]
pub(crate) enum Numbers {
    Each(u32),
    EachThird(u32),
}

impl Numbers {
    /// The number of this place.
    pub(crate) fn at(self, place: u32) -> u32
        requires { nth self place < 2 ^ 32 }
        ensures { result ≡ nth self place }
    {
        match self {
            Numbers::Each(from) => from + place,
            Numbers::EachThird(from) => from + 3 * place,
        }
    }
}
