// One block read through a whole fetch, from each kind of bank. The two bodies are one: what they say is what the generic fetch
// promises at each bank, in whatever state it is.
ghost use Rattle.std.specs.Prelude.{◌≡◌, length};
ghost use Rattle.bank.specs.Fetched.{fetch_answer, fetch_after, fetch_buffer};
ghost use Rattle.bank.specs.Image.{image_meaning};
ghost use Rattle.bank.specs.Rebuilt.{rebuilt_meaning};

use bank::{BankFault, ImageBank, RebuiltBank, fetch_block};

pub fn read_image(image: &mut ImageBank<'_>, block: u16, buffer: &mut [u8]) -> Result<(), BankFault>
    ensures answer { result ≡ fetch_answer (image_meaning image.old) block (length buffer.old) }
    ensures after { image_meaning image.new ≡ fetch_after (image_meaning image.old) block (length buffer.old) }
    ensures bytes { buffer.new ≡ fetch_buffer (image_meaning image.old) block buffer.old }
{
    fetch_block(image, block, buffer)
}

pub fn read_rebuilt(
    rebuilt: &mut RebuiltBank<'_>,
    block: u16,
    buffer: &mut [u8],
) -> Result<(), BankFault>
    ensures answer { result ≡ fetch_answer (rebuilt_meaning rebuilt.old) block (length buffer.old) }
    ensures after { rebuilt_meaning rebuilt.new ≡ fetch_after (rebuilt_meaning rebuilt.old) block (length buffer.old) }
    ensures bytes { buffer.new ≡ fetch_buffer (rebuilt_meaning rebuilt.old) block buffer.old }
{
    fetch_block(rebuilt, block, buffer)
}
