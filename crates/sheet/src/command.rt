ghost use Rattle.std.specs.Prelude.{◌≡◌, ◌<◌, length, IfSome};
ghost use Rattle.sheet.specs.Commands.{said, WholeName, parsed, front_by, size_by};

use crate::letter::Letter;
use commands::Reader;

// The three numbers of a `G`.
#[derive(Clone, Copy, Debug, PartialEq, Eq)]
pub struct Geometry {
    pub disks: u8,
    pub frames: u8,
    pub fetch: u8,
}

// A command as it stands in a sheet. The name is the sheet's own sixteen bytes.
#[derive(Clone, Copy, Debug, PartialEq, Eq)]
pub enum Command<'a> {
    Name(&'a [u8; 16]),
    Geometry(Geometry),
    Disk(u8),
    Request(u16),
    End,
}

impl Letter {
    // How many bytes its command has.
    fn size(self) -> usize
        ensures { result ≡ size_by self }
    {
        match self {
            Letter::Name => 17,
            Letter::Geometry => 4,
            Letter::Disk => 2,
            Letter::Request => 3,
            Letter::End => 1,
        }
    }
}

// The command with this letter at the front, and the reader past it. None where its bytes run out.
pub(crate) fn front<'a>(letter: Letter, reader: Reader<'a>) -> Option<(Command<'a>, Reader<'a>)>
    ensures command { parsed result ≡ front_by letter reader.entry.rest.now }
    ensures whole { IfSome result (λ p. WholeName (said p.0)) }
    ensures total { IfSome result (λ p. p.1.total ≡ reader.entry.total) }
    ensures shorter { IfSome result (λ p. length p.1.rest.now < length reader.entry.rest.now) }
{
    let command = match (letter, reader.rest) {
        (Letter::Name, [_, rest @ ..]) => Command::Name(rest.first_chunk()?),
        (Letter::Geometry, [_, disks, frames, fetch, ..]) => Command::Geometry(Geometry {
            disks: *disks,
            frames: *frames,
            fetch: *fetch,
        }),
        (Letter::Disk, [_, disk, ..]) => Command::Disk(*disk),
        (Letter::Request, [_, low, high, ..]) => {
            Command::Request(u16::from_le_bytes([*low, *high]))
        }
        (Letter::End, [_, ..]) => Command::End,
        _ => return None,
    };
    Some((command, reader.past(letter.size())))
}
