// `push` for functions that return `Refusal`.
ghost use Rattle.std.specs.Prelude.{◌≡◌, ◌++◌, ◌∷◌, [], IfErr, OnOk};

use mv_move_types::Refusal;

/// Puts one more at the end; `Memory`, where an allocation failed.
pub fn pushed<T: Drop>(v: &mut Vec<T>, one: T) -> Result<(), Refusal>
    ensures ok { OnOk result (v.new.items ≡ v.old.items ++ one ∷ []) }
    ensures errors { IfErr result (λ e. e ≡ Refusal.Memory) }
{
    match v.push(one) {
        Ok(()) => Ok(()),
        Err(_) => Err(Refusal::Memory),
    }
}
