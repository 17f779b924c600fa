// What is kept of a module beside its text and its code.
ghost use Rattle.std.specs.Prelude.{◌≡◌, ◌≤◌, List, [], length, map, slice_get, unwrap_or, IfOk, IfNone, IfSome, OnOk};
ghost use Rattle.mv_move_types.specs.Limits.{most_types};
ghost use Rattle.mv_move_types.specs.Module.{Module as Tables};
ghost use Rattle.mv_bound_rules.specs.Bounds.{InBounds};
ghost use Rattle.mv_interface.specs.Handles.{AreStructsAt};
ghost use Rattle.mv_interface.specs.Interface.{IsInterface, IsSignatureOf, tokens_on, type_by, types_by};
ghost use Rattle.mv_interface.specs.Outline.{IsOutline};
ghost use Rattle.mv_interface.specs.Shapes.{parts_by};

use crate::lists::Lists;
use crate::outline::{Outline, field_count};
use crate::shapes::{Part, part_of, put_parts};
use mv_binary_format::{FunctionDefinition, Module};
use mv_move_types::{Definition, Token};
use std::alloc::{AllocError, Global};

/// A type of a module, with each struct given by where it is defined, so that types of two modules can be compared.
#[derive(Clone, Copy)]
pub enum LinkedType {
    /// The type of a value.
    Plain(Part),
    /// An immutable reference to a value.
    Reference(Part),
    /// A mutable reference to a value.
    MutableReference(Part),
}

/// What is kept of a module besides its text and its code, so that nothing reads its bytes again. It answers all that is asked of
/// the module when others name it or run it. Each list is in the order of the definitions.
#[derive(Drop)]
pub struct Interface {
    /// What others can name of it.
    pub outline: Outline,
    /// What the fields of each struct are made of.
    pub parts: Lists<Part>,
    /// The types of each function's parameters.
    pub parameters: Lists<LinkedType>,
    /// The types of each function's results.
    pub results: Lists<LinkedType>,
}

/// What a call from outside asks of a function.
#[derive(Clone, Copy)]
pub struct Signature<'a> {
    /// The types of its parameters.
    pub parameters: &'a [LinkedType],
    /// Whether it is an entry.
    pub is_entry: bool,
}

// A type, where `structs` has where the struct of each struct handle is defined.
fn type_of(structs: &[Definition], token: Token) -> LinkedType
    ensures { result ≡ type_by structs.now token }
{
    match token {
        Token::Plain(_) => LinkedType::Plain(part_of(structs, token)),
        Token::Reference(to) => LinkedType::Reference(part_of(structs, Token::Plain(to))),
        Token::MutableReference(to) => {
            LinkedType::MutableReference(part_of(structs, Token::Plain(to)))
        }
    }
}

// Puts types into a list that is empty.
fn put_types(
    types: &mut Vec<LinkedType>,
    structs: &[Definition],
    tokens: &[Token],
) -> Result<(), AllocError>
    requires { types.old.items ≡ [] }
    ensures { OnOk result (types.new.items ≡ types_by structs.now tokens.now) }
{
    for token in tokens {
        types.push(type_of(structs, *token))?;
    }
    Ok(())
}

// The types of a signature, if it is there.
fn tokens_at<'m>(m: &'m Module<'_>, signature: u16) -> &'m [Token]
    ensures value { result.now ≡ unwrap_or (slice_get m.entry.now.signatures signature) [] }
    ensures few { length result.now ≤ most_types }
{
    match m.signature(usize::from(signature)) {
        Some(tokens) => tokens,
        None => &[],
    }
}

// Its parameters, or its results.
#[derive(Clone, Copy)]
pub enum Side {
    Parameters,
    Results,
}

// The types of a function's parameters or results, if they are there.
fn tokens_of<'m>(m: &'m Module<'_>, d: &FunctionDefinition, side: Side) -> &'m [Token]
    ensures value { result.now ≡ unwrap_or (tokens_on side m.entry.now d.now) [] }
    ensures few { length result.now ≤ most_types }
{
    let Some(handle) = m.function_handles().get(usize::from(d.handle())) else {
        return &[];
    };
    match side {
        Side::Parameters => tokens_at(m, handle.parameters),
        Side::Results => tokens_at(m, handle.results),
    }
}

// Of what the fields of each struct of a module are made.
fn parts_of(
    alloc: Global,
    m: &Module<'_>,
    structs: &[Definition],
) -> Result<Lists<Part>, AllocError>
    ensures { IfOk result (λ l. l ≡ map (λ d. parts_by structs.now d.fields) m.now.structs) }
{
    let definitions = m.structs();
    let mut parts = Lists::with_capacity(alloc, definitions.len(), field_count(m))?;
    let mut one = Vec::new(alloc);
    for d in definitions {
        one.clear();
        put_parts(&mut one, structs, d.fields())?;
        parts.push(&one)?;
    }
    Ok(parts)
}

// How many parameters or results the functions of a module have together, so that their types get just the room that they take.
fn type_count(m: &Module<'_>, side: Side) -> usize {
    let mut count: usize = 0;
    for d in m.functions() {
        count = count.saturating_add(tokens_of(m, d, side).len());
    }
    count
}

// The types of the parameters of each function of a module, or of the results.
fn types_of(
    alloc: Global,
    m: &Module<'_>,
    structs: &[Definition],
    side: Side,
) -> Result<Lists<LinkedType>, AllocError>
    ensures { IfOk result (λ l. l ≡ map (λ d. types_by structs.now (unwrap_or (tokens_on side m.now d) [])) m.now.functions) }
{
    let functions = m.functions();
    let mut types = Lists::with_capacity(alloc, functions.len(), type_count(m, side))?;
    let mut one = Vec::new(alloc);
    for d in functions {
        one.clear();
        put_types(&mut one, structs, tokens_of(m, d, side))?;
        types.push(&one)?;
    }
    Ok(types)
}

impl Interface {
    /// The interface of a module with this outline. `structs` says where the struct of each struct handle is defined.
    ///
    /// # Errors
    ///
    /// If an allocation failed.
    pub fn of(
        alloc: Global,
        outline: Outline,
        m: &Module<'_>,
        structs: &[Definition],
    ) -> Result<Self, AllocError>
        ensures { IfOk result (λ i. (modules : List Tables) → InBounds m.now → IsOutline m.now outline → AreStructsAt modules m.now structs.now → IsInterface modules m.now i) }
    {
        Ok(Interface {
            outline,
            parts: parts_of(alloc, m, structs)?,
            parameters: types_of(alloc, m, structs, Side::Parameters)?,
            results: types_of(alloc, m, structs, Side::Results)?,
        })
    }

    /// What a call from outside asks of the function at an index, if it is there.
    pub fn signature(&self, index: usize) -> Option<Signature<'_>>
        requires { length self.now.parameters ≡ length self.now.outline.functions }
        ensures there { IfSome result (IsSignatureOf self.now index) }
        ensures none { IfNone result (length self.now.parameters ≤ index) }
    {
        let parameters = self.parameters.get(index)?;
        Some(Signature {
            parameters,
            is_entry: self.outline.is_entry(index),
        })
    }

    /// The same interface in memory of its own.
    ///
    /// # Errors
    ///
    /// If an allocation failed.
    pub fn copied(&self, alloc: Global) -> Result<Self, AllocError>
        ensures { IfOk result (λ i. i ≡ self.now) }
    {
        let outline = self.outline.copied(alloc)?;
        let parts = self.parts.copied(alloc)?;
        let parameters = self.parameters.copied(alloc)?;
        let results = self.results.copied(alloc)?;
        Ok(Interface {
            outline,
            parts,
            parameters,
            results,
        })
    }
}
