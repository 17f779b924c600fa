// A module as its tables.
ghost use Rattle.std.specs.Prelude.{◌≡◌, ◌≤◌, length, slice_get, option_map, Some, IsTrue, IfOk, IfErr, nat_le};
ghost use Rattle.std.specs.List.{list_all};
ghost use Rattle.mv_move_types.specs.Versions.{version_number};
ghost use Rattle.mv_move_types.specs.Module.{Module as Tables};
ghost use Rattle.mv_binary_format.specs.ModuleText.{HasText};
ghost use Rattle.mv_binary_format.specs.Parsing.{module_from};
ghost use Rattle.mv_binary_format.specs.Tables.{tables_of};
ghost use Rattle.mv_binary_format.specs.Held.{tables_of_parts};
ghost use Rattle.mv_binary_format.specs.Outcomes.{Decides};
ghost use Rattle.mv_module_text.specs.Fits.{signature_fits, struct_definition_fits, function_definition_fits};

use super::contents::{Table, read_entries};
use super::headers::TableKind;
use super::names::{Identifier, Signature};
use super::{FunctionDefinition, StructDefinition};
use mv_module_text::Constant;
use mv_move_types::limits::MOST_FUNCTIONS;
use mv_move_types::{
    Address, FieldHandle, FunctionHandle, ModuleHandle, Refusal, StructHandle, Token, Version,
};
use std::alloc::Global;
use std::marker::Model;

// What a module has.
#[derive(Drop)]
pub(crate) struct Parts<'a> {
    version: Version,
    module_handles: Vec<ModuleHandle>,
    struct_handles: Vec<StructHandle>,
    function_handles: Vec<FunctionHandle>,
    signatures: Vec<Signature>,
    constants: Vec<Constant<'a>>,
    identifiers: Vec<Identifier<'a>>,
    addresses: Vec<Address>,
    structs: Vec<StructDefinition>,
    functions: Vec<FunctionDefinition<'a>>,
    field_handles: Vec<FieldHandle>,
    own: u16,
}

/// A module that `decode` returned. Names, the bytes of constants and code are slices of its bytes. Its model is the record of its
/// tables, each part of which has a text. Its parts are allocated separately, so that handing the module from phase to phase
/// doesn't move them. They are the one element of a vector, since a box can't be given a shorter lifetime.
#[derive(Drop)]
pub struct Module<'a> {
    parts: Vec<Parts<'a>>,
}

impl<'a> Model for Module<'a> {
    ghost use Rattle.std.specs.Prelude.{◌≡◌, length};
    ghost use Rattle.mv_move_types.specs.Module.{Module as Tables};
    ghost use Rattle.mv_binary_format.specs.ModuleText.{HasText};
    ghost use Rattle.mv_binary_format.specs.Held.{tables_held};

    ghost Value = { Tables };

    ghost view = { λ m. tables_held m.parts.items };

    ghost invariant = { λ m. length m.parts.items ≡ 1 × HasText (view m) };
}

impl<'a> Module<'a> {
    // The module with these parts.
    fn of(alloc: Global, all: Parts<'a>) -> Result<Self, Refusal>
        requires { HasText (tables_of_parts all) }
        ensures ok { IfOk result (λ m. m ≡ tables_of_parts all.entry) }
        ensures errors { IfErr result (λ e. e ≡ Refusal.Memory) }
    {
        let mut parts = Vec::with_capacity(alloc, 1)?;
        parts.push(all).map_err(|_| Refusal::Memory)?;
        Ok(Module { parts })
    }

    // Reads the entries of its tables, of which no kind stands twice. The module that they spell has to have a text.
    #[tactic(auto, unfolding(crate::specs::Parsing::module_from))]
    pub(crate) fn read(
        alloc: Global,
        version: Version,
        own: u16,
        mut tables: Vec<Table<'a>>,
    ) -> Result<Self, Refusal>
        requires { (m : Tables) → module_from (version_number version) own (tables_of tables.items) ≡ Some m → HasText m }
        ensures { Decides (module_from (version_number version) own (tables_of tables.entry.items)) result }
    {
        let t = &mut tables;
        let module_handles = read_entries(alloc, version, TableKind::ModuleHandles, t)?;
        let struct_handles = read_entries(alloc, version, TableKind::StructHandles, t)?;
        let function_handles = read_entries(alloc, version, TableKind::FunctionHandles, t)?;
        let signatures = read_entries(alloc, version, TableKind::Signatures, t)?;
        let constants = read_entries(alloc, version, TableKind::Constants, t)?;
        let identifiers = read_entries(alloc, version, TableKind::Identifiers, t)?;
        let addresses = read_entries(alloc, version, TableKind::Addresses, t)?;
        let structs = read_entries(alloc, version, TableKind::Structs, t)?;
        let functions: Vec<FunctionDefinition<'_>> = read_entries(
            alloc,
            version,
            TableKind::Functions,
            t,
        )?;
        let field_handles = read_entries(alloc, version, TableKind::FieldHandles, t)?;
        if !tables.is_empty() || functions.len() > MOST_FUNCTIONS {
            return Err(Refusal::Phase(2));
        }
        Module::of(
            alloc,
            Parts {
                version,
                module_handles,
                struct_handles,
                function_handles,
                signatures,
                constants,
                identifiers,
                addresses,
                structs,
                functions,
                field_handles,
                own,
            },
        )
    }

    // What it has.
    fn parts(&self) -> &Parts<'a>
        ensures value { tables_of_parts result.now ≡ self.now }
        ensures text { HasText self.now }
    {
        &self.parts[0]
    }

    /// Its version.
    pub fn version(&self) -> Version
        ensures { version_number result ≡ self.now.version }
    {
        self.parts().version
    }

    /// The modules that it names, itself among them.
    pub fn module_handles(&self) -> &[ModuleHandle]
        ensures { result.now ≡ self.now.module_handles }
    {
        &self.parts().module_handles
    }

    /// The structs that it names.
    pub fn struct_handles(&self) -> &[StructHandle]
        ensures { result.now ≡ self.now.struct_handles }
    {
        &self.parts().struct_handles
    }

    /// The functions that it names.
    pub fn function_handles(&self) -> &[FunctionHandle]
        ensures { result.now ≡ self.now.function_handles }
    {
        &self.parts().function_handles
    }

    /// How many signatures it has.
    pub fn signature_count(&self) -> usize
        ensures { result ≡ length self.now.signatures }
    {
        self.parts().signatures.len()
    }

    /// The types of a signature, if it is there.
    pub fn signature(&self, index: usize) -> Option<&[Token]>
        ensures value { option_map (λ s. s.now) result ≡ slice_get self.now.signatures index }
        ensures fits { IsTrue (list_all (signature_fits self.now.version) self.now.signatures) }
    {
        self.parts().signatures.get(index).map(|s| s.tokens())
    }

    // Its signatures.
    pub(crate) fn signatures(&self) -> &[Signature]
        ensures { result.now ≡ self.now.signatures }
    {
        &self.parts().signatures
    }

    // Its identifiers.
    pub(crate) fn identifiers(&self) -> &[Identifier<'a>]
        ensures { result.now ≡ self.now.identifiers }
    {
        &self.parts().identifiers
    }

    /// Its constants.
    pub fn constants(&self) -> &[Constant<'a>]
        ensures { result.now ≡ self.now.constants }
    {
        &self.parts().constants
    }

    /// How many identifiers it has.
    pub fn identifier_count(&self) -> usize
        ensures { result ≡ length self.now.identifiers }
    {
        self.parts().identifiers.len()
    }

    /// An identifier, if it is there.
    pub fn identifier(&self, index: usize) -> Option<&'a [u8]>
        ensures { option_map (λ name. name.now) result ≡ slice_get self.now.identifiers index }
    {
        self.parts().identifiers.get(index).map(|i| i.name())
    }

    /// The addresses that it names, each as the number that its 16 bytes are, big-endian.
    pub fn addresses(&self) -> &[Address]
        ensures { result.now ≡ self.now.addresses }
    {
        &self.parts().addresses
    }

    /// The structs that it defines, at most 65,536.
    pub fn structs(&self) -> &[StructDefinition]
        ensures value { result.now ≡ self.now.structs }
        ensures fits { IsTrue (list_all (struct_definition_fits self.now.version) self.now.structs) }
        ensures few { length self.now.structs ≤ 65536 }
    {
        &self.parts().structs
    }

    /// The functions that it defines, at most 256.
    pub fn functions(&self) -> &[FunctionDefinition<'a>]
        ensures value { result.now ≡ self.now.functions }
        ensures fits { IsTrue (list_all (function_definition_fits self.now.version) self.now.functions) }
        ensures few { IsTrue (nat_le (length self.now.functions) 256) }
    {
        &self.parts().functions
    }

    /// The fields that its code names.
    pub fn field_handles(&self) -> &[FieldHandle]
        ensures { result.now ≡ self.now.field_handles }
    {
        &self.parts().field_handles
    }

    /// For the prover: each of its parts has a text, and so the whole module has one.
    pub fn has_text(&self)
        ensures { HasText self.now }
    {
        let _parts = self.parts();
    }

    /// The index of its own module handle.
    pub fn own(&self) -> u16
        ensures { result ≡ self.now.own }
    {
        self.parts().own
    }
}
