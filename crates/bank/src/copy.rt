// Blocks out of a list of blocks.
ghost use Rattle.std.specs.Prelude.{◌≡◌, ◌+◌, ◌*◌, ◌≤◌, length};
ghost use Rattle.bank.specs.Recording.{block_at};

use crate::limits::BLOCK;

// One block of the list.
#[tactic(auto, using(crate::proofs::Chunks::first_chunk_at))]
pub(crate) fn block_of(bytes: &[u8], block: usize) -> &[u8; BLOCK]
    requires { 512 * block + 512 ≤ length bytes.now }
    ensures { result.now ≡ block_at bytes.now block }
{
    let (blocks, _) = bytes.as_chunks::<BLOCK>();
    &blocks[block]
}
