// Decimal numbers, right-justified in fixed columns without leading zeros.
ghost use Rattle.std.specs.Prelude.{◌≡◌, ◌+◌, ◌*◌, ◌/◌, ◌≤◌, ◌<◌, length};
ghost use Rattle.automata.specs.Symbols.{is_digit};
ghost use Rattle.automata.specs.Decimal.{with_digit, leading_column};
ghost use Rattle.automata.specs.Layout.{amount_width};
ghost use Rattle.table.specs.Region.{splice};
ghost use Rattle.text_columns.specs.Columns.{number_as, last_column, read_decimal, read_state_number, columns_value, leading_text, decimal_text, leading_byte};

use table::answer::Refusal;

// Whether a byte is one of 0 to 9.
fn is_digit(c: u8) -> bool
    ensures { result ≡ is_digit c }
{
    c.is_ascii_digit()
}

// One more digit behind a number.
fn with_digit(n: usize, c: u8) -> usize
    requires { (n < 1000000000) × (48 ≤ c) }
    ensures { result ≡ with_digit n c }
{
    n * 10 + usize::from(c - 48)
}

// One more column before the last: blanks, then digits, the first of them not 0.
fn leading_column(n: usize, c: u8) -> Result<usize, Refusal>
    requires { n < 1000000000 }
    ensures { number_as result ≡ leading_column (n, c) }
{
    if is_digit(c) {
        match with_digit(n, c) {
            0 => Err(Refusal::Form),
            m => Ok(m),
        }
    } else if c == 32 && n == 0 {
        Ok(0)
    } else {
        Err(Refusal::Form)
    }
}

// The last column: a digit.
fn last_column(n: usize, c: u8) -> Result<usize, Refusal>
    requires { n < 1000000000 }
    ensures { number_as result ≡ last_column n c }
{
    if is_digit(c) {
        Ok(with_digit(n, c))
    } else {
        Err(Refusal::Form)
    }
}

// The number in 1 to 10 columns.
pub fn read_decimal(column: &[u8]) -> Result<usize, Refusal>
    requires { (1 ≤ length column.now) × (length column.now ≤ amount_width) }
    ensures { number_as result ≡ read_decimal column.now }
{
    let last = column.len() - 1;
    let mut n = 0;
    for i in 0..last {
        n = leading_column(n, column[i])?;
    }
    last_column(n, column[last])
}

// The number of a state, of so many.
pub fn read_state_number(column: &[u8], states: usize) -> Result<usize, Refusal>
    requires { length column.now ≡ 6 }
    ensures { number_as result ≡ read_state_number states column.now }
{
    let n = read_decimal(column)?;
    if n < states {
        Ok(n)
    } else {
        Err(Refusal::State)
    }
}

// The number in columns that were judged: of each byte its last four bits, the value of a digit and 0 for a blank.
pub fn columns_value(column: &[u8]) -> usize
    requires { length column.now ≤ amount_width }
    ensures { result ≡ columns_value 0 column.now }
{
    let mut n = 0;
    for c in column {
        n = n * 10 + usize::from(*c % 16);
    }
    n
}

// The byte of the last digit, or a blank where nothing is left of a number.
fn leading_byte(n: usize) -> u8
    ensures { result ≡ leading_byte n }
{
    if n == 0 { 32 } else { 48 + (n % 10) as u8 }
}

// The columns before the last of a number, written from the right.
fn write_leading(out: &mut [u8], at: usize, width: usize, n: usize)
    requires { at + width ≤ length out.old }
    ensures { out.new ≡ splice at (leading_text width n) out.old }
{
    let mut rest = n;
    for i in (0..width).rev() {
        out[at + i] = leading_byte(rest);
        rest /= 10;
    }
}

// A number written right-justified in so many columns.
pub fn write_decimal(out: &mut [u8], at: usize, width: usize, n: usize)
    requires { (1 ≤ width) × (at + width ≤ length out.old) }
    ensures { out.new ≡ splice at (decimal_text width n) out.old }
{
    let last = width - 1;
    write_leading(out, at, last, n / 10);
    out[at + last] = 48 + (n % 10) as u8;
}
