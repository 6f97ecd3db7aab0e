// What stands at the front of a plan's bytes.
ghost use Rattle.std.specs.Prelude.{◌≡◌, ◌+◌, ◌*◌, slice_index};
ghost use Rattle.model.specs.Verdict.{found};
ghost use Rattle.plan.specs.Fronts.{found_of};

use model::Command;

// Why no command stands there.
#[derive(Clone, Copy, Debug, PartialEq, Eq)]
pub(crate) enum NoCommand {
    // no byte is left
    Missing,
    // a letter that no command has
    Strange,
}

// A byte of a slice, 0 past its end.
pub(crate) fn byte_at(bytes: &[u8], i: usize) -> u8
    ensures { result ≡ slice_index bytes.now i }
{
    bytes.get(i).copied().unwrap_or(0)
}

// The block number at two bytes, the low one first.
fn block_at(bytes: &[u8], low: usize, high: usize) -> u16
    ensures { result ≡ slice_index bytes.now low + 256 * slice_index bytes.now high }
{
    u16::from_le_bytes([byte_at(bytes, low), byte_at(bytes, high)])
}

// The command whose letter stands there, its missing bytes read as zeros.
#[tactic(auto, unfolding(model::specs::Verdict::found))]
pub(crate) fn front(rest: &[u8]) -> Result<Command, NoCommand>
    ensures { found_of result ≡ found rest.now }
{
    let [letter, ..] = rest else {
        return Err(NoCommand::Missing);
    };
    // read as a character, because the letters are to stand in the code as characters
    match char::from(*letter) {
        'O' => Ok(Command::Opens(block_at(rest, 1, 2))),
        'X' => Ok(Command::Trades(block_at(rest, 1, 2), block_at(rest, 3, 4))),
        'S' => Ok(Command::Serves),
        'W' => Ok(Command::Waits),
        'E' => Ok(Command::Ends),
        _ => Err(NoCommand::Strange),
    }
}
