// A line for each commit of a file, and whether the counts of parents agree with the walks.
use super::walk::walk;
use commit::{commit_at, tree_at};
use file::File;
use parents::count_at;
use prints::print::{hex, number, print, refusal};
use types::file::Position;

// Prints the line of a commit. Says whether the walk met as many parents as the count says.
fn line(s: &[u8], f: File, pos: Position) -> bool {
    hex(access::id_at(s, f, pos));
    print(b" ");
    hex(tree_at(s, f, pos));
    match commit_at(s, f, pos) {
        Ok(c) => {
            number(c.time);
            number(u64::from(c.generation));
        }
        Err(r) => {
            print(b" ");
            refusal(r);
        }
    }
    let met = walk(s, f, pos);
    print(b"\n");
    met == count_at(s, f, pos)
}

// Prints the lines of all commits. Hands back the first whose count does not agree.
pub fn lines(s: &[u8], f: File) -> Option<u32> {
    let mut bad = None;
    for i in 0..f.commits {
        if !line(s, f, Position(i)) && bad.is_none() {
            bad = Some(i);
        }
    }
    bad
}
