// That a text is of one certificate.

ghost use Rattle.mv_certificate.specs.Laws.{IsOfOneCertificate};

/// No bytes are texts of two certificates of one module.
pub fn texts_are_of_one_certificate()
    ensures { IsOfOneCertificate }
{}
