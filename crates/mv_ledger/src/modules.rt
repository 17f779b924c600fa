// Going over the names of the published modules.
ghost use Rattle.std.specs.Prelude.{◌≡◌, ◌∷◌, [], Some, MatchOption};
ghost use Rattle.mv_move_types.specs.Module.{own_name};
ghost use Rattle.mv_move_types.specs.Published.{PublishedModule};

use mv_ledger_state::Store;
use mv_move_types::Address;
use std::marker::Model;

/// The names of the published modules in order of publication. Its model is the list of the modules that are left.
#[derive(Drop)]
pub struct Modules<'a> {
    pub(crate) store: &'a Store,
    // the place of the next one
    pub(crate) place: usize,
}

impl<'a> Model for Modules<'a> {
    ghost use Rattle.std.specs.Prelude.{◌≤◌, List, drop, length};
    ghost use Rattle.mv_move_types.specs.Published.{PublishedModule};

    ghost Value = { List PublishedModule };

    ghost view = { λ m. drop m.place m.store.now };

    ghost invariant = { λ m. m.place ≤ length m.store.now };
}

impl<'a> Modules<'a> {
    /// The address and the identifier of the next module; None at the end.
    pub fn next(&mut self) -> Option<(Address, &'a [u8])>
        ensures { MatchOption result ((self.old ≡ []) × (self.new ≡ []))
            (λ name. (p : PublishedModule) × (self.old ≡ p ∷ self.new) × (own_name p.tables ≡ Some (record { address = name.0; name = name.1.now }))) }
    {
        // For the prover: what it goes over is a store.
        let _len = self.store.len();
        let name = self.store.module_name(self.place)?;
        self.place += 1;
        Some(name)
    }
}
