// A recording of eleven blocks on three disks, and what is left of it when one disk is lost.
pub(crate) const BLOCK: usize = 512;

pub(crate) const BLOCKS: u16 = 11;

pub(crate) const DISKS: u8 = 3;
// three whole rows and one of two blocks, each with a parity block
pub(crate) const RECORDING: usize = 5632;

pub(crate) const IMAGE: usize = 7680;

pub(crate) const PLACES: [u8; 11] = [0, 1, 2, 0, 1, 2, 0, 1, 2, 0, 1];

// What stands in the image where the lost disk's blocks were.
const DAMAGED: u8 = 0xee;

// One byte of the recording; neighbours and blocks differ.
pub(crate) fn recorded_byte(block: usize, i: usize) -> u8 {
    let mixed = block.wrapping_mul(37) ^ i.wrapping_mul(11) ^ (i / 256);
    u8::try_from(mixed % 251).unwrap()
}

fn parity_byte(row: usize, i: usize) -> u8 {
    let first = row.wrapping_mul(usize::from(DISKS));
    (0..usize::from(DISKS))
        .map(|place| first.wrapping_add(place))
        .filter(|&block| block < usize::from(BLOCKS))
        .fold(0, |parity, block| parity ^ recorded_byte(block, i))
}

fn image_byte(block: usize, i: usize, lost: u8) -> u8 {
    let blocks = usize::from(BLOCKS);
    if block >= blocks {
        return parity_byte(block - blocks, i);
    }
    if block % usize::from(DISKS) == usize::from(lost) {
        return DAMAGED;
    }
    recorded_byte(block, i)
}

// The first bytes of the recording.
pub(crate) fn recorded<const N: usize>() -> [u8; N] {
    let mut bytes = [0u8; N];
    fill(&mut bytes, recorded_byte);
    bytes
}

pub(crate) fn left_of(lost: u8) -> [u8; IMAGE] {
    let mut bytes = [0u8; IMAGE];
    fill(&mut bytes, |block, i| image_byte(block, i, lost));
    bytes
}

// Each byte by its block and its place in the block.
fn fill<F: Fn(usize, usize) -> u8>(bytes: &mut [u8], byte_at: F)
    requires { F.IsAlwaysCallable byte_at }
{
    for (at, byte) in bytes.iter_mut().enumerate() {
        *byte = byte_at(at / BLOCK, at % BLOCK);
    }
}

// Whether the buffer begins with the recorded block and ends as it was filled.
pub(crate) fn holds(buffer: &[u8], block: u16, filled: u8) -> bool {
    buffer.iter().enumerate().all(|(i, &byte)| {
        byte == if i < BLOCK {
            recorded_byte(usize::from(block), i)
        } else {
            filled
        }
    })
}
