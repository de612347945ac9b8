use crate::next::Next;

/// What a piece was answered with.
#[derive(Drop)]
pub struct Turn {
    /// How many bytes of the piece were used. The others are not the haggling's.
    pub used: usize,
    /// The bytes that go out to the client.
    pub out: Vec<u8>,
    /// What comes next.
    pub next: Next,
}
