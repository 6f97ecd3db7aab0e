// The requests of a sheet, one by one.
ghost use Rattle.std.specs.Prelude.{◌≡◌, ◌<◌, length, slice_index};
ghost use Rattle.sheet.specs.Sheets.{meant};

use sheet::Sheet;

// The block at a position where one is requested.
pub(crate) fn block_at(sheet: Sheet, position: usize) -> u16
    requires within { position < length (meant sheet).requests }
    ensures is { result ≡ slice_index (meant sheet.entry).requests position }
    ensures known { result < length (meant sheet.entry).rack.homes }
    ensures few { result < 1024 }
{
    sheet.request(position).unwrap_or(0)
}
