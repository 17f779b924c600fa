// The number at the front of bytes.

ghost use Rattle.std.specs.Prelude.{◌≡◌, ℕ, ◌≤◌, ◌++◌, ◌↔◌, List, length, take, drop, Ok, Err, Some, None, IfOk, IsErr};
ghost use Rattle.mv_uleb.specs.Uleb.{IsUlebUpTo, uleb};
ghost use Rattle.mv_uleb.specs.Parsing.{number_from};
ghost use Rattle.mv_uleb.specs.Reading.{EndsEarly, IsLong, IsBeyond, Gives};

use super::UlebError;

// The most bytes that are looked at: a number of 64 bits has no more.
const MOST_BYTES: u8 = 10;

/// Reads the number at the front of `bytes`, at most `max`, and how many bytes it takes. It looks at no more than ten
/// bytes.
///
/// # Errors
/// [`UlebError::Ends`] if the bytes end before the number does; [`UlebError::Long`] if a shorter form would do, however
/// great the number; [`UlebError::Range`] if the number is above `max`, or has more than ten bytes.
pub fn read(bytes: &[u8], max: u64) -> Result<(u64, usize), UlebError>
    ensures found { IfOk result (λ f. IsUlebUpTo max (take f.1 bytes.now) f.0) }
    ensures within { IfOk result (λ f. f.1 ≤ length bytes.now) }
    ensures few { IfOk result (λ f. f.1 ≤ 10) }
    ensures parsed { IfOk result (λ f. number_from max bytes.now ≡ Some (f.0, drop f.1 bytes.now)) }
    ensures refused { IsErr result → number_from max bytes.now ≡ None }
    ensures ends { result ≡ Err UlebError.Ends ↔ EndsEarly bytes.now }
    ensures long { result ≡ Err UlebError.Long ↔ IsLong bytes.now }
    ensures range { result ≡ Err UlebError.Range ↔ IsBeyond max bytes.now }
    ensures spelled { (n : ℕ) (rest : List ℕ) → n ≤ max → bytes.now ≡ uleb n ++ rest → result ≡ Ok (n, length (uleb n)) }
{
    read_front(bytes, max)
}

// The same; most numbers have one byte.
fn read_front(bytes: &[u8], max: u64) -> Result<(u64, usize), UlebError>
    ensures { Gives 10 max bytes.now result }
{
    if let Some(first) = bytes.first() {
        let low = u64::from(*first);
        if low < 128 && low <= max {
            return Ok((low, 1));
        }
    }
    read_within(bytes, MOST_BYTES, max)
}

// The same, of at most so many bytes.
fn read_within(bytes: &[u8], most: u8, max: u64) -> Result<(u64, usize), UlebError>
    ensures { Gives most max bytes.now result }
{
    if most == 0 {
        return Err(UlebError::Range);
    }
    let Some((first, rest)) = bytes.split_first() else {
        return Err(UlebError::Ends);
    };
    let low = u64::from(*first);
    if low < 128 {
        return if low <= max {
            Ok((low, 1))
        } else {
            Err(UlebError::Range)
        };
    }
    let (high, used) = read_within(rest, most - 1, max / 128)?;
    if high == 0 {
        return Err(UlebError::Long);
    }
    let number = low - 128 + 128 * high;
    if number > max {
        return Err(UlebError::Range);
    }
    Ok((number, used + 1))
}
