// What a function's index leads to, in a module whose indices are in bounds.
ghost use Rattle.std.specs.Prelude.{◌≡◌, ◌<◌, ◌++◌, ◌==◌, length, slice_get, Some, IfSome};
ghost use Rattle.mv_move_types.specs.Module.{FunctionDefinition as FunctionTable, parameter_tokens, result_tokens, local_type, has_key, own_acquires};
ghost use Rattle.mv_move_types.specs.Options.{find_index};
ghost use Rattle.mv_bound_rules.specs.Bounds.{local_count};
ghost use Rattle.mv_bound_rules.specs.Functions.{IsDefined};

use super::Bounded;
use super::places::place_at;
use mv_binary_format::FunctionDefinition;
use mv_move_types::{FunctionHandle, Token};

impl<'a> Bounded<'a> {
    // The definition of function `f`, and its handle.
    fn defined(&self, f: usize) -> (&FunctionDefinition<'a>, &FunctionHandle)
        requires { f < length self.now.functions }
        ensures { IsDefined self.now f result.0.now result.1.now }
    {
        let module = self.module();
        let definition = &module.functions()[f];
        let handle = &module.function_handles()[usize::from(definition.handle())];
        (definition, handle)
    }

    // The types of a signature.
    fn signature(&self, index: u16) -> &[Token]
        requires { index < length self.now.signatures }
        ensures { slice_get self.now.signatures index ≡ Some result.now }
    {
        self.module().signature(usize::from(index)).unwrap()
    }

    /// The types of the parameters of function `f`.
    pub fn parameters(&self, f: usize) -> &[Token]
        requires { f < length self.now.functions }
        ensures { IfSome (slice_get self.now.functions f) (λ d. parameter_tokens self.now d ≡ Some result.now) }
    {
        let (_, handle) = self.defined(f);
        self.signature(handle.parameters)
    }

    /// The types of the results of function `f`.
    pub fn results(&self, f: usize) -> &[Token]
        requires { f < length self.now.functions }
        ensures { IfSome (slice_get self.now.functions f) (λ d. result_tokens self.now d ≡ Some result.now) }
    {
        let (_, handle) = self.defined(f);
        self.signature(handle.results)
    }

    /// The types of the locals of function `f` other than its parameters.
    pub fn other_locals(&self, f: usize) -> &[Token]
        requires { f < length self.now.functions }
        ensures { IfSome (slice_get self.now.functions f) (λ d. slice_get self.now.signatures d.locals ≡ Some result.now) }
    {
        let (definition, _) = self.defined(f);
        self.signature(definition.locals())
    }

    /// How many locals function `f` has, parameters included.
    pub fn local_count(&self, f: usize) -> usize
        requires { f < length self.now.functions }
        ensures { IfSome (slice_get self.now.functions f) (λ d. result ≡ local_count self.now d) }
    {
        self.parameters(f).len() + self.other_locals(f).len()
    }

    /// The type of a local of function `f`, parameters first, if it is there.
    pub fn local(&self, f: usize, index: u16) -> Option<Token>
        requires { f < length self.now.functions }
        ensures { IfSome (slice_get self.now.functions f) (λ d. result ≡ local_type self.now d index) }
    {
        let (definition, handle) = self.defined(f);
        let parameters = self.signature(handle.parameters);
        let others = self.signature(definition.locals());
        among(parameters, others, usize::from(index))
    }

    /// Whether the struct of a definition is declared with key; it is not, if there is no such definition.
    pub fn has_key(&self, definition: u16) -> bool
        ensures { result ≡ has_key self.now definition }
    {
        let module = self.module();
        let Some(definition) = module.structs().get(usize::from(definition)) else {
            return false;
        };
        match module
            .struct_handles()
            .get(usize::from(definition.handle()))
        {
            Some(handle) => handle.abilities.key,
            None => false,
        }
    }

    /// The struct definitions that the function of a handle says it reaches in the storage; none, if the function is
    /// another module's.
    pub fn own_acquires(&self, handle: u16) -> &[u16]
        ensures { result.now ≡ own_acquires self.now handle }
    {
        match self.definition(handle) {
            Some(f) => self.module().functions()[f].acquires(),
            None => &[],
        }
    }

    // The place of the function that a handle is defined by, if there is one.
    fn definition(&self, handle: u16) -> Option<usize>
        ensures place { result ≡ find_index (λ (d : FunctionTable). d.handle == handle) self.now.functions }
        ensures below { IfSome result (λ f. f < length self.now.functions) }
    {
        place_at(&self.places, handle)
    }
}

// The type at an index of two lists, one after the other.
fn among(first: &[Token], second: &[Token], index: usize) -> Option<Token>
    ensures { result ≡ slice_get (first.now ++ second.now) index }
{
    match index.checked_sub(first.len()) {
        None => first.get(index).copied(),
        Some(beyond) => second.get(beyond).copied(),
    }
}
