use bytes::BytesMut;

/// What the thread that reads from the client sends.
#[derive(Drop)]
pub enum Piece {
    /// Bytes that were read, in the room that they were read into.
    Bytes(BytesMut),
    /// The client's bytes have ended.
    Ended,
    /// A read failed.
    Failed,
}

/// What is received: a piece, or the outcome of a request.
#[derive(Drop)]
pub enum Message<O: Drop> {
    /// A piece of what the client sent.
    Piece(Piece),
    /// The outcome of a request.
    Outcome(O),
}
