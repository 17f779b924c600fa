// What a module's tables say of a function.
ghost use Rattle.std.specs.Prelude.{◌≡◌, slice_get};
ghost use Rattle.mv_move_types.specs.Named.{is_public as may_be_called};

use mv_binary_format::{FunctionDefinition, Module};
use mv_move_types::{FunctionHandle, Visibility};

/// Whether other modules may call a function.
pub fn is_public(d: &FunctionDefinition) -> bool
    ensures { result ≡ may_be_called d.now }
{
    match d.visibility() {
        Visibility::Private => false,
        Visibility::Public => true,
    }
}

/// The function handle at an index, if it is there.
pub fn function_handle(m: &Module<'_>, h: usize) -> Option<FunctionHandle>
    ensures { result ≡ slice_get m.now.function_handles h }
{
    m.function_handles().get(h).copied()
}
