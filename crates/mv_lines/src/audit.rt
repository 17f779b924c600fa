// The tallies of an audit, and their lines.
ghost use Rattle.std.specs.Prelude.{◌≡◌, [], ◌∷◌, IfOk, MatchOption};
ghost use Rattle.mv_link_rules.specs.Link.{tables_in};
ghost use Rattle.mv_machine.specs.Lines.{count_line, struct_text};
ghost use Rattle.mv_lines.specs.Auditing.{counted_in, stored_of};
ghost use Rattle.mv_lines.specs.Plain.{IsPlain};
ghost use Rattle.mv_machine.specs.Tallies.{all_of, lists_of, nameless, tallied};

use crate::texts::{put_labelled, put_name};
use mv_linker::{Store, StructName};
use mv_machine::Tally;
use mv_move_types::Definition;
use std::alloc::{AllocError, Global};
use std::marker::Model;

/// A struct, and how often its values were made and taken apart.
#[derive(Drop)]
pub struct Counted<'a> {
    pub name: StructName<'a>,
    pub packs: u128,
    pub unpacks: u128,
}

/// The name of no struct.
fn unnamed<'a>() -> StructName<'a>
    ensures { result ≡ nameless }
{
    StructName::new(0, &[], &[])
}

/// The counts of a tally, with the struct's name.
pub fn count_of<'s>(store: &'s Store, tally: &Tally) -> Counted<'s>
    ensures counts { counted_in result ≡ tallied (tables_in store.entry.now) tally.now }
    ensures plain { IsPlain (struct_text result.name) }
{
    // For the prover: what it holds is a store.
    let _len = store.len();
    let definition = Definition {
        place: tally.place,
        index: tally.index,
    };
    Counted {
        name: store.struct_name(definition).unwrap_or(unnamed()),
        packs: tally.packs,
        unpacks: tally.unpacks,
    }
}

/// The line of a struct's counts.
pub fn count_text(alloc: Global, counted: &Counted<'_>) -> Result<Vec<u8>, AllocError>
    ensures { IfOk result (λ text. text.items ≡ count_line (stored_of (counted_in counted.now)) (counted_in counted.now)) }
{
    let mut text = Vec::new(alloc);
    text.extend_from_slice(b"count ")?;
    put_name(&mut text, &counted.name)?;
    put_labelled(
        &mut text,
        b" stored ",
        counted.packs.saturating_sub(counted.unpacks),
    )?;
    put_labelled(&mut text, b" packed ", counted.packs)?;
    put_labelled(&mut text, b" unpacked ", counted.unpacks)?;
    Ok(text)
}

/// The tallies of all modules that are left, module by module. Its model is the list of them.
#[derive(Drop)]
pub struct Tallies<'a> {
    left: &'a [Tally],
    rest: &'a [Vec<Tally>],
}

impl<'a> Model for Tallies<'a> {
    ghost use Rattle.std.specs.Prelude.{List, ◌++◌};
    ghost use Rattle.mv_machine.specs.Tallies.{all_of, lists_of};
    ghost use Rattle.mv_machine.specs.declared.Tally.{Tally};

    ghost Value = { List Tally };

    ghost view = { λ t. t.left.now ++ all_of (lists_of t.rest.now) };
}

impl<'a> Tallies<'a> {
    /// All of these.
    pub fn new(tallies: &'a [Vec<Tally>]) -> Self
        ensures { result ≡ all_of (lists_of tallies.entry.now) }
    {
        Tallies {
            left: &[],
            rest: tallies,
        }
    }

    /// The next tally; None at the end.
    pub fn next(&mut self) -> Option<&'a Tally>
        ensures { MatchOption result ((self.old ≡ []) × (self.new ≡ [])) (λ t. self.old ≡ t.now ∷ self.new) }
    {
        'modules: loop {
            if let [tally, left @ ..] = self.left {
                self.left = left;
                return Some(tally);
            }
            let [own, rest @ ..] = self.rest else {
                return None;
            };
            self.left = own.as_slice();
            self.rest = rest;
        }
    }
}
