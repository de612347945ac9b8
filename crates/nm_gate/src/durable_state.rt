//! What the durable superblock may say of a stripe.
ghost use Rattle.std.specs.Prelude.{◌≡◌, ◌<◌, ◌≤◌, false, length, slice_index_or};
ghost use Rattle.nm_gate.specs.Durable.{is_lacking, is_listed, is_marked, is_named};

use nm_geometry::LegSet;
use std::marker::Model;

/// What the durable superblock may say of a stripe. While a save is under way both the old one and
/// the new one may be the durable one, so these are bounds: what it may say, or surely says.
#[derive(Drop)]
pub struct DurableState {
    pub(crate) named: LegSet,
    pub(crate) listed: LegSet,
    pub(crate) lacking: LegSet,
    pub(crate) marked: Vec<bool>,
    pub(crate) span: u64,
    pub(crate) broken: bool,
    ghost some: { 0 < span },
    ghost few: { length marked.items ≤ 16384 },
}

impl Model for DurableState {
    ghost use Rattle.nm_gate.specs.Durable as kept;

    ghost Value = { kept.Durable };

    ghost view = { λ d. record {
      named = d.named;
      listed = d.listed;
      lacking = d.lacking;
      marked = d.marked.items;
      span = d.span;
      broken = d.broken;
    } };
}

// The bit of this number, and none past the end.
pub(crate) fn bit(bits: &[bool], at: u64) -> bool
    ensures { result ≡ slice_index_or bits.now at false }
{
    if at < bits.len() as u64 {
        bits[at as usize]
    } else {
        false
    }
}

impl DurableState {
    /// What one superblock says of a stripe: the legs that it calls in sync, those that it lists,
    /// in sync or about to be, those that lack no more than marked spans, and the marks of spans of
    /// so many regions. A superblock has 16,384 marks at most, and a stripe always as many as here.
    pub fn new(
        named: LegSet,
        listed: LegSet,
        lacking: LegSet,
        marked: Vec<bool>,
        span: u64,
    ) -> DurableState
        requires some { 0 < span }
        requires few { length marked.items ≤ 16384 }
        ensures { result ≡ record {
          named = named;
          listed = listed;
          lacking = lacking;
          marked = marked.items;
          span = span;
          broken = false;
        } }
    {
        DurableState {
            named,
            listed,
            lacking,
            marked,
            span,
            broken: false,
        }
    }

    /// Whether it may call the leg in sync.
    pub fn is_named(&self, leg: u8) -> bool
        ensures { result ≡ is_named leg self.now }
    {
        self.named.has(leg as usize)
    }

    /// Whether it surely lists the leg: in sync, or about to be.
    pub fn is_listed(&self, leg: u8) -> bool
        ensures { result ≡ is_listed leg self.now }
    {
        self.listed.has(leg as usize)
    }

    /// Whether it may say that the leg lacks no more than marked spans.
    pub fn is_lacking(&self, leg: u8) -> bool
        ensures { result ≡ is_lacking leg self.now }
    {
        self.lacking.has(leg as usize)
    }

    /// Whether it surely marks the region's span.
    pub fn is_marked(&self, region: u64) -> bool
        ensures { result ≡ is_marked region self.now }
    {
        bit(&self.marked, region / self.span)
    }

    /// How many regions a span has.
    pub fn span(&self) -> u64
        ensures span { result ≡ self.now.span }
        ensures some { 0 < result }
    {
        self.span
    }

    /// The marks that it surely has, one a span.
    pub fn marks(&self) -> &[bool]
        ensures marks { result.now ≡ self.now.marked }
        ensures few { length result.now ≤ 16384 }
    {
        &self.marked
    }

    /// Whether a save could not be done.
    pub fn is_broken(&self) -> bool
        ensures { result ≡ self.now.broken }
    {
        self.broken
    }

    // Says that it has a place for each of eight legs, and does nothing: for proofs.
    pub(crate) fn eight_legs(&self)
        ensures named { length self.now.named ≡ 8 }
        ensures lacking { length self.now.lacking ≡ 8 }
    {
        self.named.eight_legs();
        self.lacking.eight_legs();
    }
}
