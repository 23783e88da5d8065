// The sets of events of a file, as rows: the recorded events, the initial writes, and recorded events by a byte of their records.

ghost use Rattle.std.specs.Prelude.{◌≡◌, ◌<◌};
ghost use Rattle.relation.specs.Bits.{bit};
ghost use Rattle.layout.specs.Layout.{Sized};
ghost use Rattle.layout.specs.Decode.{is_recorded, is_initial};
ghost use Rattle.reading.specs.Sets.{AllRecorded, SortedBy};

use layout::field;
use relation::row;
use relation::row::Row;

// The recorded events.
pub fn recorded(file: &[u8]) -> Row
    requires { Sized file.now }
    ensures { bit result ≡ is_recorded file.now }
{
    row::without(row::below(field::events(file) + 1), 0)
}

// The initial writes.
pub fn initial(file: &[u8]) -> Row
    requires { Sized file.now }
    ensures { bit result ≡ is_initial file.now }
{
    row::minus(row::below(56 + field::locations(file)), row::below(56))
}

// The events of a row by byte k of their records, with a row for each value below 8.
pub fn sorted(file: &[u8], row: Row, k: usize) -> [Row; 8]
    requires { Sized file.now × (k < 8) × AllRecorded file.now (bit row) }
    ensures { SortedBy file.now (bit row) k result }
{
    let mut rows = [row::none(); 8];
    for e in row::members(row) {
        let v = field::event_byte(file, e, k);
        if v < 8 {
            let x = rows[v];
            rows[v] = row::with(x, e);
        }
    }
    rows
}
