// A published module as the store keeps it: its name, by which it is found, and its texts.
ghost use Rattle.std.specs.Prelude.{◌≡◌, Some, All, IfOk, OnOk};
ghost use Rattle.mv_move_types.specs.Module.{own_name};
ghost use Rattle.mv_linker.specs.Kept.{AreKeyed, name_in, published_as, published_in, published_under};
ghost use Rattle.mv_linker.specs.News.{HasItsTexts, AreTexts, published_of, published_one};
ghost use Rattle.mv_link_rules.specs.Link.{IsPublishable};

use crate::New;
use indexmap::IndexMap;
use mv_interface::name_of;
use mv_move_types::Address;
use std::alloc::{AllocError, Global};
use std::borrow::CowSlice;
use std::marker::Model;

/// A module's name: the store owns the identifiers of its modules, and a question borrows one.
#[derive(PartialEq, Eq, Hash, Drop)]
pub struct Name<'a> {
    /// The address that the module is published at.
    pub address: Address,
    /// The bytes of its identifier.
    pub identifier: CowSlice<'a, u8>,
}

/// The key that a module with this address and identifier is found by.
pub fn asked_for(address: Address, identifier: &[u8]) -> Name<'_>
    ensures { name_in result ≡ record { address = address; name = identifier.now } }
{
    Name {
        address,
        identifier: CowSlice::Borrowed(identifier),
    }
}

/// What a published module came in.
#[derive(Drop)]
pub struct Texts {
    /// The bytes of the module.
    pub module: Vec<u8>,
    /// The bytes of the certificate that it was checked with.
    pub certificate: Vec<u8>,
}

/// A module that may join a store. Its model has the texts, the tables that they spell, and the name.
#[derive(Drop)]
pub struct Entry {
    name: Name<'static>,
    texts: Texts,
}

impl Model for Entry {
    ghost use Rattle.std.specs.Prelude.{◌≡◌, Some};
    ghost use Rattle.mv_move_types.specs.Module.{own_name};
    ghost use Rattle.mv_binary_format.specs.Parsing.{tables_of};
    ghost use Rattle.mv_linker.specs.Kept.{Kept, name_in, published_as};

    ghost Value = { Kept };

    ghost view = { λ e. record { published = published_as e.texts; name = name_in e.name } };

    ghost invariant = { λ e. own_name (tables_of e.texts.module.items) ≡ Some (name_in e.name) };
}

impl Entry {
    /// The address that it is published at.
    pub fn address(&self) -> Address
        ensures { result ≡ self.now.name.address }
    {
        self.name.address
    }

    /// Its identifier.
    pub fn name(&self) -> &[u8]
        ensures value { result.now ≡ self.now.name.name }
        ensures own { own_name self.now.published.tables ≡ Some self.now.name }
    {
        self.name.identifier.as_slice()
    }

    /// The key that it is found by.
    pub fn key(&self) -> Name<'_>
        ensures { own_name self.now.published.tables ≡ Some (name_in result) }
    {
        asked_for(self.name.address, self.name.identifier.as_slice())
    }

    /// The bytes of the module, and of the certificate that it was checked with.
    pub fn texts(&self) -> (&[u8], &[u8])
        ensures text { result.0.now ≡ self.now.published.text }
        ensures certificate { result.1.now ≡ self.now.published.certificate }
    {
        (
            self.texts.module.as_slice(),
            self.texts.certificate.as_slice(),
        )
    }

    /// The name and the texts apart.
    pub fn into_parts(self) -> (Name<'static>, Texts)
        ensures name { name_in result.0 ≡ self.name }
        ensures texts { published_as result.1 ≡ self.published }
        ensures own { own_name (published_as result.1).tables ≡ Some (name_in result.0) }
    {
        let Entry { name, texts } = self;
        (name, texts)
    }
}

/// A new module with its texts copied.
fn entry_of(alloc: Global, new: &New<'_>) -> Result<Entry, AllocError>
    requires { HasItsTexts new.now }
    ensures value { IfOk result (λ e. e.published ≡ published_one new.now) }
    ensures passed { OnOk result (IsPublishable (published_one new.now)) }
{
    let module = new.module.module();
    // For the prover: a module has a text.
    module.has_text();
    let Some((address, name)) = name_of(module) else {
        unreachable!();
    };
    Ok(Entry {
        name: Name {
            address,
            identifier: CowSlice::Owned(Vec::from_slice(alloc, name)?),
        },
        texts: Texts {
            module: Vec::from_slice(alloc, new.text)?,
            certificate: Vec::from_slice(alloc, new.certificate)?,
        },
    })
}

/// New modules with their texts copied.
pub fn entries_of(alloc: Global, new: &[New<'_>]) -> Result<Vec<Entry>, AllocError>
    requires { AreTexts new.now }
    ensures value { IfOk result (λ entries. published_in entries.items ≡ published_of new.now) }
    ensures passed { OnOk result (All IsPublishable (published_of new.now)) }
{
    let mut entries = Vec::with_capacity(alloc, new.len())?;
    for n in new {
        entries.push(entry_of(alloc, n)?)?;
    }
    Ok(entries)
}

/// A module of a store with its name and its texts copied.
fn entry_copied(alloc: Global, name: &Name<'static>, texts: &Texts) -> Result<Entry, AllocError>
    requires { own_name (published_as texts.now).tables ≡ Some (name_in name.now) }
    ensures { IfOk result (λ e. e.published ≡ published_as texts.now) }
{
    let identifier = Vec::from_slice(alloc, name.identifier.as_slice())?;
    let module = Vec::from_slice(alloc, &texts.module)?;
    let certificate = Vec::from_slice(alloc, &texts.certificate)?;
    Ok(Entry {
        name: Name {
            address: name.address,
            identifier: CowSlice::Owned(identifier),
        },
        texts: Texts {
            module,
            certificate,
        },
    })
}

/// The modules of a store with their names and their texts copied.
///
/// # Errors
///
/// If an allocation failed.
pub fn entries_copied(
    alloc: Global,
    modules: &IndexMap<Name<'static>, Texts>,
) -> Result<Vec<Entry>, AllocError>
    requires { AreKeyed modules.now.entries }
    ensures { IfOk result (λ entries. published_in entries.items ≡ published_under modules.now.entries) }
{
    let mut entries = Vec::with_capacity(alloc, modules.len())?;
    for i in 0..modules.len() {
        // There is one.
        let (key, texts) = modules.get_index(i).unwrap();
        let entry = entry_copied(alloc, key, texts)?;
        entries.push(entry)?;
    }
    Ok(entries)
}
