// That a document renews one of version 1. The law stands on a function with an empty body, whose contract it is.
ghost use Rattle.mrdt_renewal.specs.Renewals.{Renews};
ghost use Rattle.branch_doc.specs.Document.{document};
ghost use Rattle.mrdt_old_doc.specs.OldDocument.{old_document, renewed_op};

/// Over renewed events a document replies and answers as one of version 1 does over the old ones, and operations and
/// replies are spelled as before.
pub fn renews_documents()
    ensures { Renews old_document document renewed_op }
{}
