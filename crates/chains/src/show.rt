// Words of where a position stands, of the answers by position, and of lookup.
use ask::lookup::find;
use ask::positions::{commit_at, id_at, tree_at, which};
use commit::{Commit, ParentEdge};
use graph::locate::{Spot, locate};
use prints::print::{hex, number, print, refusal};
use types::graph::Position;
use types::refusal::Refusal;
use words::big::be32;

// Prints the file of a position: its index, where it starts, its size, the position there and the file's commits.
fn spot(s: Spot) {
    print(b" file");
    number(u64::from(s.file));
    number(s.start as u64);
    number(s.size as u64);
    number(u64::from(s.pos.0));
    number(u64::from(s.inner.commits));
}

fn located(a: Result<Spot, Refusal>) {
    match a {
        Ok(s) => spot(s),
        Err(r) => {
            print(b" ");
            refusal(r);
        }
    }
}

fn asking(a: Result<(), Refusal>) {
    match a {
        Ok(()) => print(b" fine"),
        Err(r) => {
            print(b" ");
            refusal(r);
        }
    }
}

// Prints a part in digits, or that it is empty.
fn bytes(s: &[u8]) {
    if s.is_empty() {
        print(b" empty");
    } else {
        print(b" ");
        hex(s);
    }
}

fn edge(e: ParentEdge) {
    match e {
        ParentEdge::None => print(b" none"),
        ParentEdge::GraphPosition(p) => {
            print(b" position");
            number(u64::from(p.0));
        }
        ParentEdge::ExtraEdgeIndex(k) => {
            print(b" edge");
            number(u64::from(k));
        }
    }
}

fn fields(c: Commit) {
    number(u64::from(c.generation));
    number(c.time);
    edge(c.first);
    edge(c.second);
}

fn asked(a: Result<Commit, Refusal>) {
    match a {
        Ok(c) => fields(c),
        Err(r) => {
            print(b" ");
            refusal(r);
        }
    }
}

// Prints the line of a lookup.
pub fn found(chain: &[u8], list: &[u8], id: &[u8]) {
    match find(chain, list, id) {
        Ok(Some(p)) => {
            print(b"at");
            number(u64::from(p.0));
        }
        Ok(None) => print(b"absent"),
        Err(r) => refusal(r),
    }
    print(b"\n");
}

// Prints what the questions by position answer: where it stands, which refusal, the id, the tree, the commit.
pub fn position(chain: &[u8], list: &[u8], pos: Position) {
    print(b"position");
    number(u64::from(pos.0));
    located(locate(chain, list, pos));
    asking(which(chain, list, pos));
    bytes(id_at(chain, list, pos));
    bytes(tree_at(chain, list, pos));
    asked(commit_at(chain, list, pos));
}

// Prints a line for each position that is asked, 4 bytes each.
pub fn positions(chain: &[u8], list: &[u8], asked: &[u8]) {
    for question in asked.chunks_exact(4) {
        position(chain, list, Position(be32(question, 0)));
        print(b"\n");
    }
}
