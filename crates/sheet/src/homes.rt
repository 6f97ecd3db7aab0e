ghost use Rattle.std.specs.Prelude.{◌≡◌, ◌≤◌, length};

use crate::limits::MOST_BLOCKS;

// The disk of each block, for at most 1,024 blocks.
// A count beside an array, with a list's methods: a rack is Copy, and neither a kit's vector over an array nor a list over slots is.
// No model: a Copy type must be made again from its model, and the list of homes forgets what stands past the blocks.
// Not PartialEq: what stands past the blocks would be compared too.
#[derive(Clone, Copy, Debug)]
pub(crate) struct Homes {
    pub(crate) blocks: usize,
    // the disk of block b is at b; past the blocks nothing is meant
    pub(crate) disks: [u8; MOST_BLOCKS],
    // a lemma about homes, outside any function, does not know the length from the array's type
    ghost room: { length disks ≡ 1024 },
    ghost few_blocks: { blocks ≤ 1024 },
}

impl Homes {
    ghost use Rattle.std.specs.Prelude.{◌≡◌, ◌<◌, [], ◌∷◌, ◌++◌, length};
    ghost use Rattle.std.specs.List.{slice_get};
    ghost use Rattle.sheet.specs.Racks.{homes_of};

    // No block yet.
    pub(crate) fn new() -> Homes
        ensures { homes_of result ≡ [] }
    {
        Homes {
            blocks: 0,
            disks: [0; MOST_BLOCKS],
        }
    }

    // The disks of the blocks that there are.
    fn used(&self) -> &[u8]
        ensures { result.now ≡ homes_of self.now }
    {
        &self.disks[0..self.blocks]
    }

    // How many blocks there are.
    pub(crate) fn len(&self) -> usize
        ensures blocks { result ≡ length (homes_of self.now) }
        ensures few { result ≤ 1024 }
    {
        self.used().len()
    }

    // The disk of a block, if there is such a block.
    pub(crate) fn get(&self, block: usize) -> Option<u8>
        ensures { result ≡ slice_get (homes_of self.now) block }
    {
        self.used().get(block).copied()
    }

    // One block more, on this disk.
    pub(crate) fn push(&mut self, disk: u8)
        requires { length (homes_of self.old) < 1024 }
        ensures { homes_of self.new ≡ homes_of self.old ++ disk ∷ [] }
    {
        self.disks[self.blocks] = disk;
        self.blocks += 1;
    }
}
