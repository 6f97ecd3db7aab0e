// Tests of the library, from the outside: tables of damaged sheets and plans, both at their limits, and mirrors.

#![tactic(auto)]

#[cfg(test)]
mod case;
#[cfg(test)]
mod mirrors;
#[cfg(test)]
mod plans;
#[cfg(test)]
mod sheets;
