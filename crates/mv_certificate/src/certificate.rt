// Certificates as values.

use mv_edges::Edges;
use mv_locals_safety::Availabilities;
use std::marker::Model;

/// What is known where a block begins: the availability of each local, parameters first, and the edges.
#[derive(Drop)]
pub struct Known {
    pub locals: Availabilities,
    pub edges: Edges,
}

impl Model for Known {
    ghost use Rattle.mv_certificate_rules.specs.Certificate.{Known as KnownRecord};

    ghost Value = { KnownRecord };

    ghost view = { λ k. record { locals = k.locals; edges = k.edges } };
}

/// What is stated of each block of each function, the blocks by ascending first instruction: nothing where the block isn't
/// reached, otherwise a state.
#[derive(Drop)]
pub struct Cert {
    pub functions: Vec<Vec<Option<Known>>>,
}

impl Model for Cert {
    ghost use Rattle.std.specs.Prelude.{map};
    ghost use Rattle.mv_certificate_rules.specs.Certificate.{Certificate};

    ghost Value = { Certificate };

    ghost view = { λ c. map (λ f. f.items) c.functions.items };
}
