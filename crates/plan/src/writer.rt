// Bytes for an area that the caller lends: written as long as there is room, and counted to their end, so that whether the area was
// long enough is known without a second look.
#[derive(Drop)]
pub(crate) struct Writer<'a> {
    pub(crate) area: &'a mut [u8],
    pub(crate) count: usize,
}
