// Phase 3: every index is below the length of its table.
ghost use Rattle.std.specs.Prelude.{◌≡◌, ◌↔◌, length, map, IsTrue};
ghost use Rattle.std.specs.List.{list_all};
ghost use Rattle.mv_move_types.specs.Module.{Constant as ConstantEntry};
ghost use Rattle.mv_bound_rules.specs.Bounds.{InBounds, below, value_type_in, token_in, module_handle_in, struct_handle_in, function_handle_in, field_in};
ghost use Rattle.mv_bound_rules.specs.Bounds.{struct_in, field_handle_in, immediate_in, instruction_in, local_count, function_in};
ghost use Rattle.mv_bound_rules.specs.Functions.{codes_of};

use mv_binary_format::{FunctionDefinition, Module, StructDefinition};
use mv_move_types::{
    Field, FieldHandle, FunctionHandle, Immediate, Instruction, ModuleHandle, StructHandle, Token,
    ValueType,
};

/// Whether every index of a module is below the length of its table. `codes` are the instructions of each function.
pub fn in_bounds(m: &Module, codes: &[Vec<Instruction>]) -> bool
    requires { map (λ c. c.items) codes.now ≡ codes_of m.now }
    ensures { IsTrue result ↔ InBounds m.now }
{
    module_handles_in(m)
        && struct_handles_in(m)
        && function_handles_in(m)
        && signatures_in(m)
        && constants_in(m)
        && structs_in(m)
        && functions_in(m, codes)
        && field_handles_in(m)
        && usize::from(m.own()) < m.module_handles().len()
}

/// Whether a module handle's address and name are there.
fn module_handle_in(m: &Module, h: ModuleHandle) -> bool
    ensures { result ≡ module_handle_in m.now h }
{
    usize::from(h.address) < m.addresses().len() && usize::from(h.name) < m.identifier_count()
}

/// Whether the module handles' addresses and names are there.
fn module_handles_in(m: &Module) -> bool
    ensures { result ≡ list_all (module_handle_in m.now) m.now.module_handles }
{
    m.module_handles().iter().all(|h| module_handle_in(m, *h))
}

/// Whether a struct handle's module and name are there.
fn struct_handle_in(m: &Module, h: StructHandle) -> bool
    ensures { result ≡ struct_handle_in m.now h }
{
    usize::from(h.module) < m.module_handles().len() && usize::from(h.name) < m.identifier_count()
}

/// Whether the struct handles' modules and names are there.
fn struct_handles_in(m: &Module) -> bool
    ensures { result ≡ list_all (struct_handle_in m.now) m.now.struct_handles }
{
    m.struct_handles().iter().all(|h| struct_handle_in(m, *h))
}

/// Whether a function handle's module, name and signatures are there.
fn function_handle_in(m: &Module, h: FunctionHandle) -> bool
    ensures { result ≡ function_handle_in m.now h }
{
    let modules = m.module_handles().len();
    let identifiers = m.identifier_count();
    let signatures = m.signature_count();
    usize::from(h.module) < modules
        && usize::from(h.name) < identifiers
        && usize::from(h.parameters) < signatures
        && usize::from(h.results) < signatures
}

/// Whether the function handles' modules, names and signatures are there.
fn function_handles_in(m: &Module) -> bool
    ensures { result ≡ list_all (function_handle_in m.now) m.now.function_handles }
{
    m.function_handles()
        .iter()
        .all(|h| function_handle_in(m, *h))
}

/// Whether a type's struct handle is there.
fn value_type_in(m: &Module, t: ValueType) -> bool
    ensures { result ≡ value_type_in m.now t }
{
    match t {
        ValueType::OfLeaf(_) => true,
        ValueType::OfStruct(h) => usize::from(h) < m.struct_handles().len(),
    }
}

/// Whether a type's struct handle is there, behind a reference too.
fn token_in(m: &Module, t: Token) -> bool
    ensures { result ≡ token_in m.now t }
{
    match t {
        Token::Plain(t) | Token::Reference(t) | Token::MutableReference(t) => value_type_in(m, t),
    }
}

/// Whether the struct handles of a signature's types are there.
fn tokens_in(m: &Module, tokens: &[Token]) -> bool
    ensures { result ≡ list_all (token_in m.now) tokens.now }
{
    tokens.iter().all(|t| token_in(m, *t))
}

/// Whether the struct handles of the types in signatures are there.
fn signatures_in(m: &Module) -> bool
    ensures { result ≡ list_all (list_all (token_in m.now)) m.now.signatures }
{
    for i in 0..m.signature_count() {
        let Some(tokens) = m.signature(i) else {
            return false;
        };
        if !tokens_in(m, tokens) {
            return false;
        }
    }
    true
}

/// Whether the struct handles of the constants' types are there.
fn constants_in(m: &Module) -> bool
    ensures { result ≡ list_all (λ (c : ConstantEntry). token_in m.now c.token) m.now.constants }
{
    m.constants().iter().all(|c| token_in(m, c.token()))
}

/// Whether a field's name and type are there.
fn field_in(m: &Module, f: Field) -> bool
    ensures { result ≡ field_in m.now f }
{
    usize::from(f.name) < m.identifier_count() && token_in(m, f.token)
}

/// Whether the names and types of fields are there.
fn fields_in(m: &Module, fields: &[Field]) -> bool
    ensures { result ≡ list_all (field_in m.now) fields.now }
{
    fields.iter().all(|f| field_in(m, *f))
}

/// Whether a struct's handle is there, and what its fields name.
fn struct_in(m: &Module, d: &StructDefinition) -> bool
    ensures { result ≡ struct_in m.now d.now }
{
    usize::from(d.handle()) < m.struct_handles().len() && fields_in(m, d.fields())
}

/// Whether the structs' handles are there, and what their fields name.
fn structs_in(m: &Module) -> bool
    ensures { result ≡ list_all (struct_in m.now) m.now.structs }
{
    m.structs().iter().all(|d| struct_in(m, d))
}

/// Whether a field handle's struct definition is there and has the position.
fn field_handle_in(m: &Module, h: FieldHandle) -> bool
    ensures { result ≡ field_handle_in m.now h }
{
    m.structs()
        .get(usize::from(h.definition))
        .is_some_and(|d| usize::from(h.position) < d.fields().len())
}

/// Whether the field handles' struct definitions are there and have the positions.
fn field_handles_in(m: &Module) -> bool
    ensures { result ≡ list_all (field_handle_in m.now) m.now.field_handles }
{
    m.field_handles().iter().all(|h| field_handle_in(m, *h))
}

/// How many locals a function has, parameters included; 0 where a signature is missing.
fn local_count(m: &Module, d: &FunctionDefinition) -> usize
    ensures { result ≡ local_count m.now d.now }
{
    let Some(handle) = m.function_handles().get(usize::from(d.handle())) else {
        return 0;
    };
    let Some(parameters) = m.signature(usize::from(handle.parameters)) else {
        return 0;
    };
    let Some(others) = m.signature(usize::from(d.locals())) else {
        return 0;
    };
    parameters.len() + others.len()
}

/// Whether an immediate is in bounds: a local is below `locals`, a target below `size`, any other index in its table.
fn immediate_in(m: &Module, locals: usize, size: usize, i: Immediate) -> bool
    ensures { result ≡ immediate_in m.now locals size i }
{
    match i {
        Immediate::Nothing | Immediate::Literal(_, _) => true,
        Immediate::Local(l) => usize::from(l) < locals,
        Immediate::Struct(s) => usize::from(s) < m.structs().len(),
        Immediate::Field(f) => usize::from(f) < m.field_handles().len(),
        Immediate::Function(f) => usize::from(f) < m.function_handles().len(),
        Immediate::Constant(c) => usize::from(c) < m.constants().len(),
        Immediate::Target(t) => usize::from(t) < size,
    }
}

/// Whether the immediates of these instructions are in bounds, in a function with `locals` locals.
fn code_in(m: &Module, locals: usize, code: &[Instruction]) -> bool
    ensures { result ≡ list_all (instruction_in m.now locals (length code.now)) code.now }
{
    let size = code.len();
    code.iter()
        .all(|i| immediate_in(m, locals, size, i.immediate()))
}

/// Whether the struct definitions that a function says it reaches are there.
fn acquires_in(m: &Module, d: &FunctionDefinition) -> bool
    ensures { result ≡ list_all (λ i. below i m.now.structs) d.now.acquires }
{
    let structs = m.structs().len();
    d.acquires().iter().all(|i| usize::from(*i) < structs)
}

/// Whether a function's handle, locals, acquires list and code name what is there.
fn function_in(m: &Module, d: &FunctionDefinition, code: &[Instruction]) -> bool
    requires { code.now ≡ d.now.code }
    ensures { result ≡ function_in m.now d.now }
{
    let locals = local_count(m, d);
    usize::from(d.handle()) < m.function_handles().len()
        && usize::from(d.locals()) < m.signature_count()
        && acquires_in(m, d)
        && code_in(m, locals, code)
}

/// Whether what the functions name is there. `codes` are the instructions of each.
fn functions_in(m: &Module, codes: &[Vec<Instruction>]) -> bool
    requires { map (λ c. c.items) codes.now ≡ codes_of m.now }
    ensures { result ≡ list_all (function_in m.now) m.now.functions }
{
    let functions = m.functions();
    for f in 0..codes.len() {
        if !function_in(m, &functions[f], &codes[f]) {
            return false;
        }
    }
    true
}
