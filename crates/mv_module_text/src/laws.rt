// That entries are read exactly where their texts stand.

ghost use Rattle.std.specs.Prelude.{ℕ};
ghost use Rattle.mv_uleb.specs.Uleb.{uleb};
ghost use Rattle.mv_module_text.specs.Entries.{token_text, field_text, instruction_text};
ghost use Rattle.mv_module_text.specs.Fits.{is_index, token_fits, field_fits, instruction_fits};
ghost use Rattle.mv_module_text.specs.Parsing.{index_from, token_from, field_from, instruction_from};
ghost use Rattle.mv_module_text.specs.Laws.{OfEachTable, StandsByText, StandAsTexts};

/// In each version, an entry is read at the front of bytes exactly if its text stands there and the entry may be written.
pub fn entries_stand_by_text()
    ensures indices { StandsByText index_from uleb is_index }
    ensures tokens { (version : ℕ) → StandsByText (token_from version) token_text (token_fits version) }
    ensures fields { (version : ℕ) → StandsByText (field_from version) field_text (field_fits version) }
    ensures instructions { (version : ℕ) → StandsByText (instruction_from version) instruction_text (instruction_fits version) }
    ensures tables { (version : ℕ) → OfEachTable (λ A. StandsByText) version }
{}

/// In each version, bytes are read to their end as a table's entries exactly if they are the entries' texts and each entry
/// may be written.
pub fn tables_stand_as_texts()
    ensures { (version : ℕ) → OfEachTable (λ A. StandAsTexts) version }
{}
