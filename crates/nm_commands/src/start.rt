/// How the legs other than the master are to stand as the server starts.
#[derive(Clone, Copy, Debug, PartialEq, Eq)]
pub enum Start {
    /// Each is compared with the master, and only what differs is copied.
    Compare,
    /// Each is copied whole.
    Full,
    /// Each is taken to be equal to the master, and none is read.
    Equal,
}
