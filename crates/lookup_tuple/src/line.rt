// The lines of a tuple's text: where they end, how many there are, and the tests of each string.
ghost use Rattle.std.specs.Prelude.{◌≡◌, ◌≤◌, leb, length};
ghost use Rattle.automata.specs.Lists.{all};
ghost use Rattle.automata.specs.Symbols.{is_symbol};
ghost use Rattle.automata.specs.Answer.{forget, ok};
ghost use Rattle.automata.specs.Calls.Lookup.{lines};
ghost use Rattle.automata.specs.Limits.{max_string};
ghost use Rattle.lookup_tuple.specs.Lines.{LineEnd, counted, every, line_count_as};

use table::judge::all_symbols;
use table::layout::{MAX_STRING, NEWLINE};

// Where the line ends that stands at a place: at its byte 10, or where the text ends.
pub fn line_end(text: &[u8], from: usize) -> usize
    requires { from ≤ length text.now }
    ensures { LineEnd text.now from result }
{
    for i in from..text.len() {
        if text[i] == NEWLINE {
            return i;
        }
    }
    text.len()
}

// The number of lines of a text, where it ends with one.
pub fn count_lines(text: &[u8]) -> Option<usize>
    ensures { line_count_as result ≡ counted (lines text.now) 0 }
{
    let mut count = 0;
    let mut at = 0;
    while at < text.len() {
        let end = line_end(text, at);
        if end == text.len() {
            return None;
        }
        count += 1;
        at = end + 1;
    }
    Some(count)
}

// Whether every string of a text has at most 64 bytes.
pub fn sizes_fit(text: &[u8]) -> bool
    requires { forget (lines text.now) ≡ ok tt }
    ensures { ok result ≡ every (λ s. leb (length s) max_string) (lines text.now) }
{
    let mut at = 0;
    while at < text.len() {
        let end = line_end(text, at);
        if MAX_STRING < end - at {
            return false;
        }
        at = end + 1;
    }
    true
}

// Whether every byte of every string of a text is a symbol. The loop of `sizes_fit` with another test: one function for
// both would state the test by the `post` of a closure, and is no shorter than the second loop.
pub fn symbols_fit(text: &[u8]) -> bool
    requires { forget (lines text.now) ≡ ok tt }
    ensures { ok result ≡ every (λ s. all is_symbol s) (lines text.now) }
{
    let mut at = 0;
    while at < text.len() {
        let end = line_end(text, at);
        if !all_symbols(&text[at..end]) {
            return false;
        }
        at = end + 1;
    }
    true
}
