// The versions of the binary format.
ghost use Rattle.std.specs.Prelude.{◌≡◌};
ghost use Rattle.mv_move_types.specs.Versions.{version_number};

/// A version of the binary format.
#[derive(Clone, Copy, PartialEq, Eq, Debug)]
pub enum Version {
    /// The first that is read.
    Five,
    /// It has numbers of 16 and 32 bits besides.
    Six,
}

impl Version {
    /// Its number, as a module's bytes have it.
    pub fn number(self) -> u8
        ensures { result ≡ version_number self }
    {
        match self {
            Version::Five => 5,
            Version::Six => 6,
        }
    }
}
