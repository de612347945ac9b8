/// How legs are copied, and when one is out that does not answer.
#[derive(Clone, Copy, PartialEq, Eq)]
pub struct CopySettings {
    /// Whether a leg that went out by a failed call is attached again by itself.
    pub auto_attach: bool,
    /// At how many MiB a second legs are copied, where that was named.
    pub copy_rate: Option<u16>,
    /// After how many seconds without an answer a call of a leg is left, where it is.
    pub leg_timeout: Option<u32>,
}
