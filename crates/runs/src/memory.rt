// What a run lends to the calls that write.

/// Memory that calls write into. A call says how much of it is handed in, from its beginning on.
#[derive(Drop)]
pub struct Memory<'a> {
    /// Bytes, any number of them, for a page.
    pub bytes: &'a mut [u8],
}
