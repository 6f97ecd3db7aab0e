// There is no slot left for one more record.
#[derive(Clone, Copy, Debug, PartialEq, Eq)]
pub struct ListFull;
