// What goes in and what is told: the bytes of a sheet or a plan, how many slots the list has, and the line that tells the
// refusal, or else the counts.
#[derive(Clone, Copy)]
pub(crate) struct Case {
    pub(crate) bytes: &'static [u8],
    pub(crate) slots: usize,
    pub(crate) told: &'static str,
}
