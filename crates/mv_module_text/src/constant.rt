// Constants.
ghost use Rattle.std.specs.Prelude.{◌≡◌};

use mv_move_types::Token;
use std::marker::Model;

/// A constant: its type, and the bytes of its value, which are a slice of the module's.
#[derive(Drop)]
pub struct Constant<'a> {
    token: Token,
    bytes: &'a [u8],
}

impl<'a> Model for Constant<'a> {
    ghost use Rattle.mv_move_types.specs.Module.{Constant as ConstantEntry};

    ghost Value = { ConstantEntry };

    ghost view = { λ c. record { token = c.token; bytes = c.bytes.now } };
}

impl<'a> Constant<'a> {
    // A constant of this type with these bytes.
    pub(crate) fn new(token: Token, bytes: &'a [u8]) -> Self
        ensures { result ≡ record { token = token; bytes = bytes.entry.now } }
    {
        Constant { token, bytes }
    }

    /// Its type.
    pub fn token(&self) -> Token
        ensures { result ≡ self.now.token }
    {
        self.token
    }

    /// The bytes of its value.
    pub fn bytes(&self) -> &'a [u8]
        ensures { result.now ≡ self.now.bytes }
    {
        self.bytes
    }
}
