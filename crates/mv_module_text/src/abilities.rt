// Abilities as bits.

ghost use Rattle.std.specs.Prelude.{◌≡◌};
ghost use Rattle.mv_module_text.specs.Entries.{ability_bits};
ghost use Rattle.mv_module_text.specs.Parsing.{abilities_of_bits};

use mv_move_types::Abilities;

// The abilities whose bits these are.
pub fn of_bits(bits: u64) -> Abilities
    ensures { result ≡ abilities_of_bits bits }
{
    Abilities {
        copy: bits & 1 == 1,
        drop: bits & 2 == 2,
        store: bits & 4 == 4,
        key: bits & 8 == 8,
    }
}

// The bits of abilities.
pub fn bits(abilities: Abilities) -> u64
    ensures { result ≡ ability_bits abilities }
{
    u64::from(abilities.copy)
        + 2 * u64::from(abilities.drop)
        + 4 * u64::from(abilities.store)
        + 8 * u64::from(abilities.key)
}
