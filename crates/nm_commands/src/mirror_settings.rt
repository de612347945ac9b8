use nm_choice::Policy;

/// What mirror it is.
#[derive(Drop)]
pub struct MirrorSettings<'a> {
    /// The legs' file names, from leg 0 on.
    pub legs: Vec<&'a str>,
    /// Whether legs are served that the system has in use.
    pub force_in_use: bool,
    /// How many stripes are wanted.
    pub stripes: u8,
    /// Whether the words say so.
    pub names_stripes: bool,
    /// Which leg a read takes.
    pub policy: Policy,
    /// How many entries of its history each stripe keeps: 0 to 1,024.
    pub history: u16,
}
