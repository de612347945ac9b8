use std::marker::Model;

/// Spans of a stripe's regions, some of them marked.
#[derive(Drop)]
pub struct Spans {
    /// The marks, one a span.
    pub marked: Vec<bool>,
    /// How many regions a span has: one at least.
    pub regions: u64,
}

impl Model for Spans {
    ghost use Rattle.nm_rules.specs.Reopening.{Marks};

    ghost Value = { Marks };

    ghost view = { λ s. record { marked = s.marked.items; span = s.regions } };
}
