// Bytes that C reads and gives back.
ghost use Rattle.std.specs.Prelude.{◌≡◌, ℕ, List, [], Some, None, MatchOption, OnErr, IfOk};
ghost use Rattle.std.specs.Vec.{vec_ptr, vec_len};

use crate::parts::Parts;
use std::alloc::{AllocError, Global};
use std::marker::Model;
use std::mem;
use std::ptr::{null, null_mut};

/// C's `moveledger_bytes`: so many bytes at a pointer, in a list on the heap; or none, where the list's pointer is null.
#[repr(C)]
#[derive(Drop)]
pub struct Bytes {
    bytes: *const u8,
    length: usize,
    own: *mut u8,
    pub ghost items: { List ℕ },
}

impl Model for Bytes {
    ghost use Rattle.moveledger_c.specs.Owning.{holds_bytes};

    ghost also_owns = { λ b. holds_bytes b.bytes b.length b.own b.items };
}

impl Bytes {
    /// No bytes.
    pub(crate) fn none() -> Bytes
        ensures { result.items ≡ [] }
    {
        Bytes {
            bytes: null(),
            length: 0,
            own: null_mut(),
        }
    }

    /// The bytes of a list that is on the heap.
    fn hold(bytes: *const u8, length: usize, parts: Parts<Vec<u8>, Global>) -> Bytes
        requires at { bytes ≡ vec_ptr parts.value }
        requires count { length ≡ vec_len parts.value }
        ensures { result.items ≡ parts.value.items }
    {
        let Parts { at, alloc: _ } = parts;
        Bytes {
            bytes,
            length,
            own: at as *mut u8,
        }
    }

    /// The list.
    fn release(self, alloc: Global) -> Option<Parts<Vec<u8>, Global>>
        ensures { MatchOption result (self.items ≡ []) (λ p. self.items ≡ p.value.items) }
    {
        let Bytes {
            bytes: _,
            length: _,
            own,
        } = self;
        if own.is_null() {
            return None;
        }
        Some(Parts {
            at: own as *mut Vec<u8>,
            alloc,
        })
    }

    /// These bytes.
    pub(crate) fn of(list: Box<Vec<u8>>) -> Bytes
        ensures { result.items ≡ list.value.items }
    {
        let bytes = list.as_ptr();
        let length = list.len();
        Bytes::hold(bytes, length, Parts::of(list))
    }

    /// A list of these bytes, to append to; none are left.
    pub(crate) fn take(&mut self, alloc: Global) -> Result<Box<Vec<u8>>, AllocError>
        ensures taken { IfOk result (λ b. b.value.items ≡ self.old.items) }
        ensures kept { OnErr result (self.old.items ≡ []) }
        ensures none { self.new.items ≡ [] }
    {
        match mem::replace(self, Bytes::none()).release(alloc) {
            None => Ok(Box::new(alloc, Vec::new(alloc))?),
            Some(parts) => Ok(parts.into_box()),
        }
    }
}
