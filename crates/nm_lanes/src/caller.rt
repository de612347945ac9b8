use nm_geometry::Shape;

/// Who calls a mirror: by the pass of this number, or by none.
#[derive(Drop)]
pub struct Caller<'a, R, G, K> {
    /// What a step that has to wait asks for.
    pub rt: &'a R,
    /// The mirror's shape.
    pub shape: &'a Shape,
    /// The gate that each step is told to.
    pub gate: &'a G,
    /// The lock of each stripe, by rising number.
    pub locks: &'a [K],
    /// The number of the pass.
    pub pass: Option<u32>,
}
