// The bytes of a module: phases 2 to 8.
ghost use Rattle.std.specs.Prelude.{ℕ, List, IfOk, IfErr};
ghost use Rattle.mv_move_types.specs.Refusals.{IsRefusedBy};
ghost use Rattle.mv_type_rules.specs.Sound.{IsSound};
ghost use Rattle.mv_ledger_state.specs.Publishing.{Spells, FailsAt};
ghost use Rattle.moveledger.specs.Checking.{offer_of};

use mv_ledger_state::are_bytes;
use mv_move_types::Refusal;
use mv_type_rules::Typed;
use std::alloc::Global;

/// The module that bytes spell, with what it passed: phases 2 to 8 in order.
pub fn sound<'a>(alloc: Global, bytes: &'a [u8]) -> Result<Typed<'a>, Refusal>
    ensures spelled { IfOk result (Spells bytes.entry.now) }
    ensures sound { IfOk result IsSound }
    ensures refused { (certificate : List ℕ) → IfErr result (IsRefusedBy (FailsAt (offer_of bytes.entry.now certificate))) }
{
    // For the prover: bytes spell one module alone.
    mv_binary_format::modules_are_read_by_text();
    are_bytes(bytes);
    let module = mv_binary_format::decode(alloc, bytes)?;
    let bounded = mv_bounds::check(alloc, module)?;
    // For the prover: the module is in bounds, and its definitions are its own.
    let _defined = bounded.module();
    let typed = mv_type_states::check(alloc, bounded)?;
    // For the prover: the module is well typed.
    let _sound = typed.module();
    Ok(typed)
}
