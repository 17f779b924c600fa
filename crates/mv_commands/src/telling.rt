// What is told while a ledger is saved, each before the next step is taken.

/// What is told of files that stay.
#[derive(Clone, Copy, Debug, PartialEq, Eq)]
pub enum Notice<'a> {
    /// The ledger that stood in the place is kept by this name.
    Previous(&'a str),
    /// The ledger that an earlier program couldn't put into the place is kept by this name.
    Earlier(&'a str),
    /// The new ledger isn't in its place: it is whole by this name.
    Unsaved(&'a str),
    /// The disk hasn't confirmed the name that was told last, for the system's reason of this number.
    Unconfirmed(Option<i32>),
    /// The new ledger is in its place, but the disk hasn't confirmed that, for the system's reason of this number.
    Placed(Option<i32>),
}

/// One who is told.
pub trait Tell {
    /// Is told this.
    fn tell(&self, notice: Notice<'_>);
}
