// The form of a number.

ghost use Rattle.std.specs.Prelude.{◌≡◌, ◌++◌, OnOk, OnErr};
ghost use Rattle.mv_uleb.specs.Uleb.{uleb};

use std::alloc::AllocError;

/// Appends the number's one form to `out`.
///
/// # Errors
/// If an allocation failed. Then `out` is as before.
pub fn write(n: u64, out: &mut Vec<u8>) -> Result<(), AllocError>
    ensures written { OnOk result (out.new.items ≡ out.old.items ++ uleb n) }
    ensures kept { OnErr result (out.new.items ≡ out.old.items) }
{
    if n < 128 {
        out.push(n as u8)?;
        return Ok(());
    }
    out.push((n % 128) as u8 + 128)?;
    let high = write(n / 128, out);
    if high.is_err() {
        let _ = out.pop();
    }
    high
}
