// What an accepted plan counts.
#[derive(Clone, Copy, Debug, PartialEq, Eq)]
pub struct Counts {
    pub steps: u32,
    pub waits: u32,
    pub exchanges: usize,
}
