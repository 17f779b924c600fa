// The modules of a saved ledger: they pass every phase, are linked, and have empty tallies.
ghost use Rattle.std.specs.Prelude.{◌≡◌, ◌≤◌, [], length, IfErr, IfOk};
ghost use Rattle.mv_move_types.specs.Limits.{most_modules};
ghost use Rattle.mv_ledger_state.specs.Asking.{offers_of};
ghost use Rattle.mv_saved_text.specs.Parts.LoadedParts.{AreNotJoined};
ghost use Rattle.mv_ledger_state.specs.Publishing.{AllPass};

use crate::loading::singly::of_offers_singly;
use crate::loading::{LoadError, because};
use mv_ledger_state::{Offered, Published, all_verified};
use std::alloc::Global;

/// These offered modules, which join together. All of them are held decoded at once.
///
/// # Errors
///
/// `Module`, where one of them fails one of phases 2 to 12; otherwise `Link`, where they are not linked; `Memory`, where a
/// growth was refused.
fn of_offers_together(alloc: Global, offers: &[Offered<'_>]) -> Result<Published, LoadError>
    requires { length offers.now ≤ most_modules }
    ensures marks { IfOk result (λ p. p.marks ≡ []) }
    ensures passed { IfOk result (λ p. AllPass (offers_of offers.now) p.modules) }
    ensures refused { IfErr result (AreNotJoined (offers_of offers.now)) }
{
    let news = match all_verified(alloc, offers) {
        Ok(news) => news,
        Err(refusal) => return Err(because(refusal, LoadError::Module)),
    };
    let mut published = Published::new(alloc);
    match published.join(alloc, None, news) {
        Ok(()) => Ok(published),
        Err(refusal) => Err(because(refusal, LoadError::Link)),
    }
}

/// These offered modules. They join one by one; only where that fails they join together, which tells what is wrong.
///
/// # Errors
///
/// `Module`, where one of them fails one of phases 2 to 12; otherwise `Link`, where they are not linked; `Memory`, where a growth
/// was refused.
pub fn of_offers(alloc: Global, offers: &[Offered<'_>]) -> Result<Published, LoadError>
    requires { length offers.now ≤ most_modules }
    ensures marks { IfOk result (λ p. p.marks ≡ []) }
    ensures passed { IfOk result (λ p. AllPass (offers_of offers.now) p.modules) }
    ensures refused { IfErr result (AreNotJoined (offers_of offers.now)) }
{
    match of_offers_singly(alloc, offers)? {
        Some(published) => Ok(published),
        None => of_offers_together(alloc, offers),
    }
}
