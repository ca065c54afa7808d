// A file on a shelf in memory. A real one is in the folder's adapter.

/// A name and bytes.
#[derive(Drop)]
pub(crate) struct File {
    pub(crate) name: String,
    pub(crate) bytes: Vec<u8>,
}
