use mesa_model::Entry;

/// The sink, the disk and the benches of a call.
pub struct Devices<K, D, B> {
    pub out: K,
    pub disk: D,
    pub benches: Vec<B>,
}

/// What a call of the program leaves.
pub struct Done<K, D, B> {
    pub status: u8,
    /// The sink, with what was printed.
    pub out: K,
    pub disk: D,
    pub benches: Vec<B>,
    /// The turns of the run, in order; none where no run began.
    pub history: Vec<Entry>,
}
