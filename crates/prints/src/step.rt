// Words of a parent step: what it answers, and the phase of a walk.
use super::print::{number, print, refusal};
use steps::{Parent, Phase};
use types::refusal::Refusal;

pub fn phase(p: Phase) {
    match p {
        Phase::First => print(b" first"),
        Phase::Second => print(b" second"),
        Phase::Edge(k) => {
            print(b" edge");
            number(k as u64);
        }
        Phase::Exhausted => print(b" exhausted"),
    }
}

pub fn answer(a: Result<Option<Parent>, Refusal>) {
    match a {
        Ok(Some(p)) => {
            print(b"parent");
            number(u64::from(p.position.0));
        }
        Ok(None) => print(b"end"),
        Err(r) => refusal(r),
    }
}
