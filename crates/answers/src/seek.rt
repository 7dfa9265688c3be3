// Lookup of every id of a file, and of that id with its last bit flipped.
use access::{id_at, lookup};
use file::File;
use order::same;
use types::file::Position;

// The first 20 bytes of an id, the last bit flipped.
fn flipped(id: &[u8]) -> [u8; 20] {
    let mut x = [0u8; 20];
    for (to, from) in x.iter_mut().zip(id) {
        *to = *from;
    }
    x[19] ^= 1;
    x
}

// The id at a position is found there.
fn found(s: &[u8], f: File, i: u32) -> bool {
    match lookup(s, f, id_at(s, f, Position(i))) {
        Ok(Some(p)) => p.0 == i,
        _ => false,
    }
}

// With its last bit flipped it is absent, or found at another position that stores that.
fn apart(s: &[u8], f: File, i: u32) -> bool {
    let x = flipped(id_at(s, f, Position(i)));
    match lookup(s, f, &x) {
        Ok(Some(p)) => p.0 != i && same(&x, id_at(s, f, p), 0),
        Ok(None) => true,
        Err(_) => false,
    }
}

// The first position whose id is not found so.
pub fn seek(s: &[u8], f: File) -> Option<u32> {
    (0..f.commits).find(|i| !found(s, f, *i) || !apart(s, f, *i))
}
