/// The place of a stripe in the mirror, and its shape.
#[derive(Clone, Copy, PartialEq, Eq)]
pub struct At {
    /// The stripe's number.
    pub stripe: u32,
    /// How many blocks the stripe has, and so each of its legs.
    pub blocks: u64,
    /// How many blocks a region has.
    pub region: u64,
    /// How many blocks a chunk has.
    pub chunk: u64,
    /// How many entries the stripe's history keeps at most.
    pub history: u16,
}
