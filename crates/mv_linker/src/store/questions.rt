// What a store is asked by names. Each answer is a search, takes no memory, and reads no byte of a module.
ghost use Rattle.std.specs.Prelude.{◌≡◌, ◌<◌, Some, option_and_then, option_map, slice_get, IfSome};
ghost use Rattle.mv_move_types.specs.Module.{own_name};
ghost use Rattle.mv_move_types.specs.Named.{is_struct, module_place};
ghost use Rattle.mv_move_types.specs.Options.{find_index};
ghost use Rattle.mv_link_rules.specs.Link.{tables_in};
ghost use Rattle.mv_linker.specs.Questions.{struct_place, texts_of};

use crate::Store;
use mv_interface::StructName;
use mv_move_types::{Address, Definition};

impl Store {
    /// Where the struct of a name is defined, if it is.
    pub fn definition(&self, name: &StructName<'_>) -> Option<Definition>
        ensures { result ≡ struct_place (tables_in self.now) name.now }
    {
        match self.find(name.address(), name.home()) {
            Some(place) => self.definition_in(place, name),
            None => None,
        }
    }

    /// Where the struct of a name is defined in the module that has the name of its home, if it is.
    fn definition_in(&self, place: usize, name: &StructName<'_>) -> Option<Definition>
        requires { module_place (tables_in self.now) name.now.home ≡ Some place }
        ensures { result ≡ struct_place (tables_in self.now) name.now }
    {
        // For the prover: at most 65,536 modules, so a place fits.
        let _modules = self.len();
        match self.struct_index(place, name) {
            Some(index) => Some(Definition {
                place: place as u16,
                index: index as u16,
            }),
            None => None,
        }
    }

    /// The index of the struct of a name in the module that has the name of its home.
    fn struct_index(&self, place: usize, name: &StructName<'_>) -> Option<usize>
        requires { module_place (tables_in self.now) name.now.home ≡ Some place }
        ensures index { IfSome (slice_get (tables_in self.now) place) (λ m. result ≡ find_index (is_struct m name.now) m.structs) }
        ensures few { IfSome result (λ index. index < 65536) }
    {
        self.codes[place]
            .interface
            .outline
            .find_struct(name.identifier())
    }

    /// The address and the identifier of the module at a place in the order of publication, if one is there.
    pub fn module_name(&self, place: usize) -> Option<(Address, &[u8])>
        ensures { option_map (λ p. record { address = p.0; name = p.1.now }) result ≡ option_and_then own_name (slice_get (tables_in self.now) place) }
    {
        match self.modules.get_index(place) {
            Some((name, _)) => Some((name.address, name.identifier.as_slice())),
            None => None,
        }
    }

    /// The bytes that the module with this address and name was read from, and those of the certificate that it was checked
    /// with, if there is such a module.
    pub fn module_texts(&self, address: Address, name: &[u8]) -> Option<(&[u8], &[u8])>
        ensures { option_map (λ p. (p.0.now, p.1.now)) result ≡ texts_of self.now (record { address = address; name = name.now }) }
    {
        match self.find(address, name) {
            Some(place) => Some(self.texts(place)),
            None => None,
        }
    }
}
