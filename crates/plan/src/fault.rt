use model::Cause;
use refusal::Refused;

// A refused plan: why, and at which byte of it.
pub type PlanFault = Refused<Cause>;
