/// Which leg a read of a block takes.
#[derive(Clone, Copy)]
pub struct ReadChoice {
    pub leg: u8,
    /// Whether no write is under way in the block's region.
    pub quiet: bool,
}
