// Lists of numbers that are read and written only where they have a place. 65,535 stands for no number in them: the
// lists are arrays of two-byte numbers of fixed size (no heap), and an `Option<u16>` takes up four bytes.

// The number at place `i`, and 65,535 where there is no such place.
pub fn number_at(list: &[u16], i: usize) -> u16 {
    if i < list.len() { list[i] } else { 65535 }
}

// `v` at place `i`, if there is such a place.
pub fn note(list: &mut [u16], i: usize, v: u16) {
    if i < list.len() {
        list[i] = v;
    }
}

// The arc with number `k` at the place of its source, if there is such a place, and where the delay did not stay.
pub fn note_arc(kept: bool, list: &mut [u16], source: usize, k: usize) {
    if !kept && k < 65535 {
        note(list, source, k as u16);
    }
}
