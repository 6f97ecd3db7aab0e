// What one disk is doing.
ghost use Rattle.std.specs.Prelude.{◌≡◌};
ghost use Rattle.bank.specs.Ticking.{lowered};

// A disk is idle, or it fetches a block that lies ready when no step is left.
#[derive(Clone, Copy, Debug, PartialEq, Eq)]
pub enum DiskState {
    Idle,
    Busy { block: u16, left: u8 },
}

impl DiskState {
    // The state one step later: a count above zero is one lower, zero stays.
    pub(crate) fn ticked(self) -> DiskState
        ensures { result ≡ lowered self }
    {
        match self {
            DiskState::Idle => DiskState::Idle,
            DiskState::Busy { block, left } => DiskState::Busy {
                block,
                left: left.saturating_sub(1),
            },
        }
    }
}
