// Names in memory: each call is done, and on the disk, at once. They show that the laws of `Names` can be kept.
ghost use Rattle.std.specs.Prelude.{◌≡◌};
ghost use Rattle.mv_commands.specs.Shelf.{stands_of};

use crate::names::{Names, NotPut};

/// What four names lead to.
#[derive(Clone, Copy, Debug, PartialEq, Eq)]
pub struct Shelf<'a> {
    pub place: Option<&'a [u8]>,
    pub beside: Option<&'a [u8]>,
    pub fresh: Option<&'a [u8]>,
    pub unsaved: Option<&'a [u8]>,
}

impl Names for Shelf<'_> {
    ghost seen = { λ m. stands_of m };

    ghost may_leave = { λ m c. c ≡ stands_of m };

    ghost moment = { λ _. 0 };

    ghost left_since = { λ m _ c. c ≡ stands_of m };

    ghost only_now = { λ _ _ left. left };

    fn keep_beside(&mut self) -> Result<(), NotPut> {
        self.beside = self.place;
        Ok(())
    }

    fn place(&mut self) -> Result<(), NotPut> {
        self.place = self.fresh;
        self.fresh = None;
        Ok(())
    }

    fn place_too(&mut self) -> Result<(), NotPut> {
        self.place = self.fresh;
        Ok(())
    }

    fn keep_unsaved(&mut self) -> Result<(), NotPut> {
        self.unsaved = self.fresh;
        Ok(())
    }

    fn sync(&mut self) -> Result<(), NotPut> {
        Ok(())
    }
}
