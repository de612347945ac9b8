use nm_replies::ReadFrame;

/// What came of a request's task.
#[derive(Drop)]
pub enum Outcome {
    /// It was done, and asked for no data.
    Done,
    /// The bytes that it read, in the frame of their reply.
    Data(ReadFrame),
    /// It failed with this error, which is not 0 ("Error values").
    Error(u32),
}
