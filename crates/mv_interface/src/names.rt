// What a module's handles and definitions name.
ghost use Rattle.std.specs.Prelude.{◌≡◌, false, option_map, position};
ghost use Rattle.std.specs.Option.{option_map_or};
ghost use Rattle.mv_move_types.specs.Names.{same_module, same_struct};
ghost use Rattle.std.specs.Str.{bytes_eq};
ghost use Rattle.mv_move_types.specs.Module.{module_name as name_of_module, own_name, struct_name as name_at_handle, name_of_function};
ghost use Rattle.mv_move_types.specs.Named.{function_place as place_of_function, have_one_name as are_of_one_name, is_module as has_this_name};
ghost use Rattle.mv_bound_rules.specs.TypesByName.{both_there};

use mv_binary_format::{FunctionDefinition, Module};
use mv_move_types::Address;
use std::marker::Model;

/// A struct, by the address and the identifier of the module that defines it, and its identifier there.
#[derive(Drop)]
pub struct StructName<'a> {
    address: Address,
    home: &'a [u8],
    identifier: &'a [u8],
}

impl<'a> Model for StructName<'a> {
    ghost use Rattle.mv_move_types.specs.Names.{StructName as ByNames};

    ghost Value = { ByNames };

    ghost view = { λ s. record { home = record { address = s.address; name = s.home.now }; name = s.identifier.now } };
}

impl<'a> StructName<'a> {
    /// The name of the struct `identifier` of the module `home` at `address`.
    pub fn new(address: Address, home: &'a [u8], identifier: &'a [u8]) -> Self
        ensures { result ≡ record { home = record { address = address; name = home.entry.now }; name = identifier.entry.now } }
    {
        StructName {
            address,
            home,
            identifier,
        }
    }

    /// The address of the module that defines it.
    pub fn address(&self) -> Address
        ensures { result ≡ self.now.home.address }
    {
        self.address
    }

    /// The identifier of the module that defines it.
    pub fn home(&self) -> &'a [u8]
        ensures { result.now ≡ self.now.home.name }
    {
        self.home
    }

    /// Its identifier there.
    pub fn identifier(&self) -> &'a [u8]
        ensures { result.now ≡ self.now.name }
    {
        self.identifier
    }

    /// Whether two names are of one struct.
    pub fn is_same(&self, other: &StructName<'_>) -> bool
        ensures { result ≡ same_struct self.now other.now }
    {
        self.address == other.address
            && self.home == other.home
            && self.identifier == other.identifier
    }

    /// Whether two structs have the same identifier, whatever their modules.
    pub fn has_identifier_of(&self, other: &StructName<'_>) -> bool
        ensures { result ≡ bytes_eq self.now.name other.now.name }
    {
        self.identifier == other.identifier
    }
}

/// The address and the identifier of the module that a handle names, if they are there.
pub fn module_name<'a>(m: &Module<'a>, h: usize) -> Option<(Address, &'a [u8])>
    ensures { option_map (λ p. record { address = p.0; name = p.1.now }) result ≡ name_of_module m.now h }
{
    let handle = m.module_handles().get(h)?;
    let address = m.addresses().get(handle.address as usize)?;
    let name = m.identifier(handle.name as usize)?;
    Some((*address, name))
}

/// The module's own address and identifier, if they are there.
pub fn name_of<'a>(m: &Module<'a>) -> Option<(Address, &'a [u8])>
    ensures { option_map (λ p. record { address = p.0; name = p.1.now }) result ≡ own_name m.now }
{
    module_name(m, m.own() as usize)
}

/// Whether it is the module of this address and identifier.
fn is_module(m: &Module<'_>, address: Address, name: &[u8]) -> bool
    ensures { result ≡ has_this_name (record { address = address; name = name.now }) m.now }
{
    match name_of(m) {
        Some((own_address, own)) => own_address == address && own == name,
        None => false,
    }
}

/// Whether two modules have one name.
pub fn have_one_name(m: &Module<'_>, n: &Module<'_>) -> bool
    ensures { result ≡ are_of_one_name m.now n.now }
{
    match name_of(m) {
        Some((address, name)) => is_module(n, address, name),
        None => false,
    }
}

/// Whether a module handle names its own module.
pub fn names_own(m: &Module<'_>, h: usize) -> bool
    ensures { result ≡ both_there same_module (name_of_module m.now h) (own_name m.now) }
{
    match (module_name(m, h), name_of(m)) {
        (Some((address, name)), Some((own_address, own))) => {
            address == own_address && name == own
        }
        _ => false,
    }
}

/// The struct that a handle names, if its parts are there.
pub fn struct_name<'a>(m: &Module<'a>, h: usize) -> Option<StructName<'a>>
    ensures { result ≡ name_at_handle m.now h }
{
    let handle = m.struct_handles().get(h)?;
    let (address, home) = module_name(m, handle.module as usize)?;
    let identifier = m.identifier(handle.name as usize)?;
    Some(StructName {
        address,
        home,
        identifier,
    })
}

/// Whether a function definition of the module has this identifier.
fn has_identifier(m: &Module<'_>, name: &[u8], d: &FunctionDefinition) -> bool
    ensures { result ≡ option_map_or (bytes_eq name.now) (name_of_function m.now d.now) false }
{
    match function_name(m, d) {
        Some(own) => name == own,
        None => false,
    }
}

/// The identifier of a function definition, if it is there.
fn function_name<'a>(m: &Module<'a>, d: &FunctionDefinition) -> Option<&'a [u8]>
    ensures { option_map (λ p. p.now) result ≡ name_of_function m.now d.now }
{
    let handle = m.function_handles().get(d.handle() as usize)?;
    m.identifier(handle.name as usize)
}

/// The index of the first of the module's function definitions with this identifier.
fn first_function(m: &Module<'_>, name: &[u8]) -> Option<usize>
    ensures { result ≡ position (λ d. option_map_or (bytes_eq name.now) (name_of_function m.now d) false) m.now.functions }
{
    m.functions()
        .iter()
        .position(|d| has_identifier(m, name, d))
}

/// The index of the module's function definition with this identifier.
pub fn function_place(m: &Module<'_>, name: &[u8]) -> Option<usize>
    ensures { result ≡ place_of_function m.now name.now }
{
    first_function(m, name)
}
