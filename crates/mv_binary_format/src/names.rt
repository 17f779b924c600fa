// Signatures and identifiers: lists that are entries of their own.
ghost use Rattle.std.specs.Prelude.{◌≡◌};
ghost use Rattle.mv_module_text.specs.Parsing.{signature_from, identifier_from};
ghost use Rattle.mv_module_text.specs.Entries.{signature_text, identifier_text};

use super::entries::Entry;
use mv_module_text::{Reader, write_identifier, write_signature};
use mv_move_types::{Refusal, Token, Version};
use std::alloc::{AllocError, Global};
use std::marker::Model;

// A signature: its types.
#[derive(Drop)]
pub struct Signature {
    tokens: Vec<Token>,
}

impl Model for Signature {
    ghost use Rattle.std.specs.Prelude.{List};
    ghost use Rattle.mv_move_types.specs.declared.token.Token.{Token as SignatureToken};

    ghost Value = { List SignatureToken };

    ghost view = { λ s. s.tokens.items };
}

impl Signature {
    // Its types.
    pub fn tokens(&self) -> &[Token]
        ensures { result.now ≡ self.now }
    {
        &self.tokens
    }
}

impl<'a> Entry<'a> for Signature {
    ghost from = { signature_from };

    ghost text = { signature_text };

    fn read(alloc: Global, version: Version, reader: &mut Reader<'a>) -> Result<Self, Refusal> {
        let tokens = reader.signature(alloc, version)?;
        Ok(Signature { tokens })
    }

    fn write(&self, _alloc: Global, out: &mut Vec<u8>) -> Result<(), AllocError> {
        write_signature(&self.tokens, out)
    }
}

// An identifier: its bytes, which are a slice of the module's.
#[derive(Drop)]
pub struct Identifier<'a> {
    name: &'a [u8],
}

impl<'a> Model for Identifier<'a> {
    ghost use Rattle.std.specs.Prelude.{ℕ, List};

    ghost Value = { List ℕ };

    ghost view = { λ i. i.name.now };
}

impl<'a> Identifier<'a> {
    // Its bytes.
    pub fn name(&self) -> &'a [u8]
        ensures { result.now ≡ self.now }
    {
        self.name
    }
}

impl<'a> Entry<'a> for Identifier<'a> {
    ghost from = { λ version. identifier_from };

    ghost text = { identifier_text };

    fn read(_alloc: Global, _version: Version, reader: &mut Reader<'a>) -> Result<Self, Refusal> {
        let name = reader.identifier()?;
        Ok(Identifier { name })
    }

    fn write(&self, _alloc: Global, out: &mut Vec<u8>) -> Result<(), AllocError> {
        write_identifier(self.name, out)
    }
}
