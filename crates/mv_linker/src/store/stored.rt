// What a store keeps of its modules beside their texts.
ghost use Rattle.std.specs.Prelude.{◌≡◌, ◌<◌, ◌≤◌, IsSome, Some, length, option_map, slice_get, IfSome};
ghost use Rattle.mv_move_types.specs.Limits.{most_functions};
ghost use Rattle.mv_move_types.specs.Module.{name_at};
ghost use Rattle.mv_move_types.specs.Named.{function_place};
ghost use Rattle.mv_link_rules.specs.Link.{IsStore, tables_in};
ghost use Rattle.mv_linker.specs.Code.{program};
ghost use Rattle.mv_interface.specs.Interface.{IsInterface, IsSignatureAt};
ghost use Rattle.mv_lowering.specs.Linked.{program_of, width_of_others};
ghost use Rattle.mv_interface.specs.Shapes.{AreFieldsAt, is_keyed, structs_in};
ghost use Rattle.mv_linker.specs.ScopeDependencies.{AreNeedsAt};
ghost use Rattle.mv_linker.specs.Stored.{IsSizeAt};

use crate::Store;
use crate::rules::sizes::Size;
use crate::store::code::Code;
use mv_bit_sets::BitSet;
use mv_interface::{Interface, Part, Signature, StructName};
use mv_move_types::Definition;

impl Store {
    /// The linked code of each module, by its place.
    pub fn codes(&self) -> &[Code]
        ensures code { program result.now ≡ program_of (tables_in self.now) }
        ensures store { IsStore self.now }
        ensures few { length self.now ≤ 65536 }
    {
        &self.codes
    }

    /// The words of the locals of a function after its arguments, if the function is there.
    pub fn others(&self, f: Definition) -> Option<u16>
        ensures { result ≡ width_of_others (tables_in self.now) f }
    {
        let code = self.codes.get(usize::from(f.place))?;
        code.others.get(usize::from(f.index)).copied()
    }

    /// The name of the struct that the module at a place defines at an index, if it is there. No memory is taken, and no byte
    /// of the module is read.
    pub fn struct_name(&self, d: Definition) -> Option<StructName<'_>>
        ensures { result ≡ name_at (tables_in self.now) d.place d.index }
    {
        let code = self.codes.get(usize::from(d.place))?;
        let identifier = code
            .interface
            .outline
            .struct_identifier(usize::from(d.index))?;
        let (name, _) = self.modules.get_index(usize::from(d.place))?;
        Some(StructName::new(name.address, name.identifier.as_slice(), identifier))
    }

    /// What the fields of a struct are made of, in order, if the struct is there. It takes no memory, and reads no byte of the
    /// module.
    pub fn fields(&self, d: Definition) -> Option<&[Part]>
        ensures fields { AreFieldsAt (tables_in self.now) d (option_map (λ p. p.now) result) }
        ensures store { IsStore self.now }
    {
        let code = self.codes.get(usize::from(d.place))?;
        code.interface.parts.get(usize::from(d.index))
    }

    /// Whether the struct that the module at a place defines at an index is there and has key. No byte of the module is read.
    pub fn is_keyed(&self, d: Definition) -> bool
        ensures { result ≡ is_keyed (tables_in self.now) d }
    {
        match self.codes.get(usize::from(d.place)) {
            Some(code) => code.interface.outline.is_keyed(usize::from(d.index)),
            None => false,
        }
    }

    /// How many structs the module at a place defines; none, if no module is there. No byte of the module is read.
    pub fn structs(&self, place: usize) -> usize
        ensures count { result ≡ structs_in (tables_in self.now) place }
        ensures few { result ≤ 65536 }
    {
        match self.codes.get(place) {
            Some(code) => code.interface.outline.struct_count(),
            None => 0,
        }
    }

    /// The function with this identifier in the module at a place: its index there, and what a call from outside asks of it.
    /// No memory is taken, and no byte of the module is read.
    pub fn function(&self, place: usize, name: &[u8]) -> Option<(usize, Signature<'_>)>
        requires { place < length self.now }
        ensures index { IfSome (slice_get (tables_in self.now) place) (λ m. option_map (λ p. p.0) result ≡ function_place m name.now) }
        ensures interface { IfSome result (λ p. IsSignatureAt (tables_in self.now) place p.0 p.1) }
        ensures few { IfSome result (λ p. p.0 < most_functions) }
        ensures store { IsStore self.now }
    {
        let interface = &self.codes[place].interface;
        let index = interface.outline.find_function(name)?;
        Some((index, interface.signature(index)?))
    }

    /// What is kept of the module at a place.
    pub(crate) fn interface(&self, place: usize) -> &Interface
        requires { place < length self.now }
        ensures { IfSome (slice_get (tables_in self.now) place) (λ m. IsInterface (tables_in self.now) m result.now) }
    {
        &self.codes[place].interface
    }

    /// The places of the modules that the module at a place depends on.
    pub(crate) fn needs_at(&self, place: usize) -> &BitSet
        requires { place < length self.now }
        ensures { AreNeedsAt (tables_in self.now) place result.now }
    {
        &self.codes[place].needs
    }

    /// The size of a struct.
    pub(crate) fn size(&self, d: Definition) -> Size
        requires { IsSome (name_at (tables_in self.now) d.place d.index) }
        ensures { IsSizeAt (tables_in self.now) d result }
    {
        self.codes[usize::from(d.place)].sizes[usize::from(d.index)]
    }

    /// The bytes that the module at a place was read from, and those of the certificate that it was checked with.
    pub fn texts(&self, place: usize) -> (&[u8], &[u8])
        requires { place < length self.now }
        ensures text { IfSome (slice_get self.now place) (λ p. result.0.now ≡ p.text) }
        ensures certificate { IfSome (slice_get self.now place) (λ p. result.1.now ≡ p.certificate) }
    {
        let texts = &self.modules[place];
        (texts.module.as_slice(), texts.certificate.as_slice())
    }
}
