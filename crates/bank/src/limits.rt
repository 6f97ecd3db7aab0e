// The limits of a bank. Clauses and specs say the numbers themselves: a clause that named a constant here would hold of a wrong one.
ghost use Rattle.std.specs.Prelude.{◌≡◌};
ghost use Rattle.bank.specs.Limits.{count_within, fetch_within};

pub(crate) const DISKS: usize = 8;

pub(crate) const BLOCK: usize = 512;

const MOST_BLOCKS: usize = 1024;

const MOST_STEPS: u8 = 64;

pub(crate) fn count_fits(blocks: usize) -> bool
    ensures { result ≡ count_within blocks }
{
    (1..=MOST_BLOCKS).contains(&blocks)
}

pub(crate) fn fetch_fits(fetch: u8) -> bool
    ensures { result ≡ fetch_within fetch }
{
    (1..=MOST_STEPS).contains(&fetch)
}
