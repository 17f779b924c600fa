// The keys that were looked up last, each with its place, so that no search is needed as long as few keys take turns.
ghost use Rattle.std.specs.Prelude.{◌≡◌, ◌<◌, false, Some, MatchOption, option_copied, slice_get};
ghost use Rattle.std.specs.BTreeMap.{get};
ghost use Rattle.mv_storage.specs.Slots.{key_cmp, IsRemembered, IsForgotten, IsNotedDown};

use mv_move_types::Key;
use std::collections::BTreeMap;

// Each address has one of eight lines, which holds the key with such an address that was looked up last, if any was.
#[derive(Drop)]
pub(crate) struct Known {
    pub(crate) lines: [Option<(Key, usize)>; 8],
    // whether any was looked up since all were forgotten
    is_used: bool,
    ghost unused: { is_used ≡ false → IsForgotten lines },
}

// 2^64.
const HALF: u128 = 0x1_0000_0000_0000_0000;

// The line of an address. All its bits count: the halves are put over each other, and mixed by an odd factor.
#[inline(always)]
fn line_of(address: u128) -> usize
    ensures { result < 8 }
{
    let low = (address % HALF) as u64;
    let high = (address / HALF) as u64;
    let mixed = (low ^ high).wrapping_mul(0x9e37_79b9_7f4a_7c15);
    (mixed / 0x2000_0000_0000_0000) as usize
}

// The line at an index.
#[inline(always)]
fn line_at(lines: &[Option<(Key, usize)>], i: usize) -> Option<&Option<(Key, usize)>>
    ensures { option_copied result ≡ slice_get lines.now i }
{
    lines.get(i)
}

// The place that a line has for a key, if it is this key's.
#[inline(always)]
fn place_in(line: &Option<(Key, usize)>, key: &Key) -> Option<usize>
    ensures { MatchOption result (Unit {0}) (λ place. line.now ≡ Some (key.now, place)) }
{
    let Some((known, place)) = line else {
        return None;
    };
    if known.address == key.address && known.place == key.place && known.index == key.index {
        return Some(*place);
    }
    None
}

impl Known {
    // No keys.
    pub(crate) fn new() -> Self
        ensures { IsForgotten result.lines }
    {
        Known {
            lines: [None; 8],
            is_used: false,
        }
    }

    // Forgets all keys.
    #[inline(always)]
    pub(crate) fn forget(&mut self)
        ensures { IsForgotten self.new.lines }
    {
        if self.is_used {
            self.lines = [None; 8];
            self.is_used = false;
        }
    }

    // The place that is remembered for a key.
    #[inline(always)]
    pub(crate) fn recalled(&self, tree: &BTreeMap<Key, usize>, key: &Key) -> Option<usize>
        requires { IsRemembered tree.now self.now.lines }
        ensures { MatchOption result (Unit {0}) (λ place. get key_cmp tree.now key.now ≡ Some place) }
    {
        match line_at(&self.lines, line_of(key.address)) {
            Some(line) => place_in(line, key),
            None => None,
        }
    }

    // Remembers a key's place.
    #[inline]
    pub(crate) fn note(&mut self, key: Key, place: usize)
        ensures { IsNotedDown key place self.old.lines self.new.lines }
    {
        let line = line_of(key.address);
        self.lines[line] = Some((key, place));
        self.is_used = true;
    }
}
