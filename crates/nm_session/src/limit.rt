/// What a session may have outstanding: requests that were read and are not answered.
#[derive(Clone, Copy, PartialEq, Eq)]
pub struct Limit {
    /// How many requests.
    pub requests: usize,
    /// How many bytes the replies to them may carry.
    pub bytes: usize,
}
