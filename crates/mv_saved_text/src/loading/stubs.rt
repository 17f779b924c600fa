// Stubs: a module that names one that isn't published yet is first published as a stub, a module of the same name that defines
// nothing. The stub holds its place until all that the module names is there. Then the module takes the place.
use mv_binary_format::Module;
use mv_ledger_state::Offered;
use mv_linker::{Store, module_name, name_of};
use mv_move_types::Refusal;
use std::alloc::{AllocError, Global};

// How a stub's text begins: the magic bytes, version 5 and the number of tables. Their headers follow: of one module handle, of
// one address, and of the identifiers but for its length.
const BEGINNING: &[u8] = &[
    0xA1, 0x1C, 0xEB, 0x0B, 5, 0, 0, 0, 3, 0x01, 0, 2, 0x08, 2, 16, 0x07, 18,
];

// The module handle: the first address and the first identifier.
const HANDLE: &[u8] = &[0, 0];

// The certificate of a module without functions.
const NO_CERTIFICATE: &[u8] = &[];

/// Bytes after their number.
fn sized(alloc: Global, bytes: &[u8]) -> Result<Vec<u8>, AllocError> {
    let mut text = Vec::new(alloc);
    mv_uleb::write(bytes.len() as u64, &mut text)?;
    text.extend_from_slice(bytes)?;
    Ok(text)
}

/// The text of a module of this name that defines nothing.
fn text_of(alloc: Global, address: u128, name: &[u8]) -> Result<Vec<u8>, AllocError> {
    let identifier = sized(alloc, name)?;
    let mut text = Vec::from_slice(alloc, BEGINNING)?;
    mv_uleb::write(identifier.len() as u64, &mut text)?;
    text.extend_from_slice(HANDLE)?;
    text.extend_from_slice(&address.to_be_bytes())?;
    text.extend_from_slice(&identifier)?;
    // Its own handle is the first one.
    text.push(0)?;
    Ok(text)
}

/// A module that defines nothing.
#[derive(Drop)]
pub struct Stub {
    text: Vec<u8>,
}

impl Stub {
    /// The one of this name.
    pub fn new(alloc: Global, address: u128, name: &[u8]) -> Result<Self, AllocError> {
        Ok(Stub {
            text: text_of(alloc, address, name)?,
        })
    }

    /// What is offered of it.
    pub fn offer(&self) -> Offered<'_> {
        Offered {
            text: &self.text,
            certificate: NO_CERTIFICATE,
        }
    }
}

/// Which of the published modules are stubs, by their places.
#[derive(Drop)]
pub struct Stubs {
    are: Vec<bool>,
}

impl Stubs {
    /// Of no module.
    pub fn new(alloc: Global) -> Self {
        Stubs {
            are: Vec::new(alloc),
        }
    }

    /// Notes of the next module whether it is one.
    pub fn put(&mut self, is_stub: bool) -> Result<(), AllocError> {
        self.are.push(is_stub)?;
        Ok(())
    }

    /// Whether there is one at a place.
    pub fn has(&self, place: usize) -> bool {
        self.are.get(place).copied().unwrap_or(false)
    }

    /// Whether all that a module names is published and no stub, itself left out.
    fn are_none_named(&self, store: &Store, m: &Module<'_>) -> bool {
        for handle in 0..m.module_handles().len() {
            if handle == usize::from(m.own()) {
                continue;
            }
            match place_named(store, m, handle) {
                Some(place) if !self.has(place) => {}
                _ => return false,
            }
        }
        true
    }

    /// The name of a module that has to be published as a stub first, because not all that it names is there.
    pub fn needed_for<'a>(&self, store: &Store, m: &Module<'a>) -> Option<(u128, &'a [u8])> {
        if self.are_none_named(store, m) {
            None
        } else {
            name_of(m)
        }
    }
}

/// The place of the published module that a handle names, if there is one.
pub fn place_named(store: &Store, m: &Module<'_>, handle: usize) -> Option<usize> {
    let (address, name) = module_name(m, handle)?;
    store.find(address, name)
}
