// Numbers in decimal, as bytes in ASCII.

#![tactic(auto)]

ghost use Rattle.std.specs.Prelude.{◌≡◌, ◌≤◌};
ghost use Rattle.decimal.specs.Decimal.{aligned, column};

// The byte of n in the column of a power of ten: its digit, or a space where that would be a leading zero.
fn column(power: usize, n: usize) -> u8
    requires { 1 ≤ power }
    ensures { result ≡ column power n }
{
    if n < power {
        return b' ';
    }
    b'0' + (n / power % 10) as u8
}

// n in five columns, right-aligned: of a longer number the last five digits. Each column is made by itself, since `{:5}` writes to a
// formatter, makes a longer number wider, and has no clause that says what stands in each column.
pub fn aligned(n: usize) -> [u8; 5]
    ensures { result ≡ aligned 5 n }
{
    [
        column(10000, n),
        column(1000, n),
        column(100, n),
        column(10, n),
        b'0' + (n % 10) as u8,
    ]
}
