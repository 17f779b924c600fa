//! What a certificate of a module is, and when it holds: the rules of phases 9 to 12, as definitions, and a module that one holds of.
//! `mv_certificate` contains the code that tests them, `mv_link_rules` asks each module of a store for one, and `mv_soundness` proves
//! what follows from them for runs.
#![tactic(auto)]

use mv_type_rules::{Module, Tops};
use std::marker::Model;

/// A module that passed phases 3 to 12, with the two topmost types before each instruction.
#[derive(Drop)]
pub struct Verified<'a> {
    tops: Tops<'a>,
}

impl<'a> Model for Verified<'a> {
    ghost use Rattle.mv_move_types.specs.Module.{Module as Tables};
    ghost use Rattle.mv_type_rules.specs.Sound.{IsSound};
    ghost use Rattle.mv_acquires.specs.Acquires.{AcquiresHold};
    ghost use Rattle.mv_certificate_rules.specs.Verified.{HasCertificate};

    ghost Value = { Tables };

    ghost view = { λ v. v.tops };

    ghost invariant = { λ v. IsSound v.tops × AcquiresHold v.tops × HasCertificate v.tops };
}

impl<'a> Verified<'a> {
    ghost use Rattle.std.specs.Prelude.{◌≡◌};
    ghost use Rattle.mv_type_rules.specs.Sound.{IsSound};
    ghost use Rattle.mv_acquires.specs.Acquires.{AcquiresHold};
    ghost use Rattle.mv_certificate_rules.specs.Verified.{HasCertificate};

    /// A module that passed phases 3 to 8, once a certificate holds of it and its acquires lists are right. `mv_certificate::check`
    /// is what finds this out.
    pub fn new(tops: Tops<'a>) -> Self
        requires acquires { AcquiresHold tops }
        requires certificate { HasCertificate tops }
        ensures { result ≡ tops.entry }
    {
        Verified { tops }
    }

    /// The module.
    pub fn module(&self) -> &Module<'a>
        ensures value { result.now ≡ self.now }
        ensures sound { IsSound self.now }
        ensures acquires { AcquiresHold self.now }
        ensures certificate { HasCertificate self.now }
    {
        self.tops.module()
    }

    /// The module with the two topmost types before each instruction, which linking reads.
    pub fn tops(&self) -> &Tops<'a>
        ensures { result.now ≡ self.now }
    {
        &self.tops
    }
}
