// Symbols: the bytes A to Z and 0 to 9, numbered 0 to 35 in that order, and how they are compared.
ghost use Rattle.std.specs.Prelude.{◌≡◌};
ghost use Rattle.automata.specs.Symbols.{is_symbol, symbol_number};
ghost use Rattle.automata.specs.TapePair.{reading};
ghost use Rattle.table.specs.Records.{option_of};
ghost use Rattle.table.specs.Symbols.{symbol_entry};

// The symbol number of each byte, 255 where it is no symbol: an entry is one byte, since a literal of 256 values of
// `Option<u8>` is longer to read and to look up.
const SYMBOL_NUMBERS: [u8; 256] = [
    255, 255, 255, 255, 255, 255, 255, 255, 255, 255, 255, 255, 255, 255, 255, 255, 255, 255, 255,
    255, 255, 255, 255, 255, 255, 255, 255, 255, 255, 255, 255, 255, 255, 255, 255, 255, 255, 255,
    255, 255, 255, 255, 255, 255, 255, 255, 255, 255, 26, 27, 28, 29, 30, 31, 32, 33, 34, 35, 255,
    255, 255, 255, 255, 255, 255, 0, 1, 2, 3, 4, 5, 6, 7, 8, 9, 10, 11, 12, 13, 14, 15, 16, 17, 18,
    19, 20, 21, 22, 23, 24, 25, 255, 255, 255, 255, 255, 255, 255, 255, 255, 255, 255, 255, 255,
    255, 255, 255, 255, 255, 255, 255, 255, 255, 255, 255, 255, 255, 255, 255, 255, 255, 255, 255,
    255, 255, 255, 255, 255, 255, 255, 255, 255, 255, 255, 255, 255, 255, 255, 255, 255, 255, 255,
    255, 255, 255, 255, 255, 255, 255, 255, 255, 255, 255, 255, 255, 255, 255, 255, 255, 255, 255,
    255, 255, 255, 255, 255, 255, 255, 255, 255, 255, 255, 255, 255, 255, 255, 255, 255, 255, 255,
    255, 255, 255, 255, 255, 255, 255, 255, 255, 255, 255, 255, 255, 255, 255, 255, 255, 255, 255,
    255, 255, 255, 255, 255, 255, 255, 255, 255, 255, 255, 255, 255, 255, 255, 255, 255, 255, 255,
    255, 255, 255, 255, 255, 255, 255, 255, 255, 255, 255, 255, 255, 255, 255, 255, 255, 255, 255,
    255, 255, 255, 255, 255, 255, 255, 255, 255, 255, 255, 255, 255, 255, 255, 255, 255, 255, 255,
];

// The entry of the table for a byte.
fn entry(b: u8) -> u8
    ensures { result ≡ symbol_entry b }
{
    SYMBOL_NUMBERS[b as usize]
}

// The number of a byte's symbol, if it is one.
pub fn symbol_number(b: u8) -> Option<u8>
    ensures { option_of result ≡ symbol_number b }
{
    match entry(b) {
        255 => None,
        number => Some(number),
    }
}

// Whether a byte is a symbol, by the table.
pub fn has_number(b: u8) -> bool
    ensures { result ≡ is_symbol b }
{
    entry(b) != 255
}

// The same by ranges, without a branch, so that several bytes can be tested at once.
pub fn is_symbol(b: u8) -> bool
    ensures { result ≡ is_symbol b }
{
    ((65 <= b) & (b <= 90)) | ((48 <= b) & (b <= 57))
}

// A symbol as it is compared: I as 1, O as 0, any other as it is written.
pub fn read_symbol(b: u8) -> u8
    ensures { result ≡ reading b }
{
    match b {
        b'I' => b'1',
        b'O' => b'0',
        _ => b,
    }
}
