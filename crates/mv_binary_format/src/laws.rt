// That modules are read exactly where their texts stand.

ghost use Rattle.mv_module_text.specs.Laws.{AreBytes};
ghost use Rattle.mv_binary_format.specs.Laws.{IsReadByText, IsOfOneModule};

/// Bytes are read as a module exactly where they are a text of it.
pub fn modules_are_read_by_text()
    ensures { IsReadByText }
{
    mv_uleb::stands_by_form();
    mv_module_text::entries_stand_by_text();
    mv_module_text::tables_stand_as_texts();
}

/// No bytes are texts of two modules.
pub fn texts_are_of_one_module()
    ensures { IsOfOneModule }
{
    modules_are_read_by_text();
}

// Bytes are bytes.
pub fn are_bytes(bytes: &[u8])
    ensures { AreBytes bytes.now }
{}
