//! The law.

ghost use Rattle.pdp_core_laws.specs.Laws.{OthersKeepTheirBytes};

/// An instruction changes no byte that its task may not use, and not who may use what.
pub fn others_keep_their_bytes()
    ensures { OthersKeepTheirBytes }
{}
