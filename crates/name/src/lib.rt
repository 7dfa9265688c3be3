// What a file's name says. A name `graph-HASH.graph` claims that the file's hash is HASH.
#![tactic(auto)]

ghost use Rattle.std.specs.Prelude.{◌≡◌, ◌<◌, length, IfSome};
ghost use Rattle.name.specs.Names.{digit_of, claim_of, name_of};
ghost use Rattle.name.specs.Said.{name_said};
ghost use Rattle.types.specs.Said.{Answers};

#[derive(Clone, Copy)]
pub enum Name {
    // Not of that shape.
    Other,
    Claims([u8; 20]),
    // Of that shape, but with no hash in the middle.
    Hashless,
}

// The value of a hex digit of either case.
fn digit(b: u8) -> Option<u8>
    ensures value { result ≡ digit_of b }
    ensures small { IfSome result (λ d. d < 16) }
{
    match b {
        b'0'..=b'9' => Some(b - b'0'),
        b'A'..=b'F' => Some(b - b'A' + 10),
        b'a'..=b'f' => Some(b - b'a' + 10),
        _ => None,
    }
}

// The bytes that 40 hex digits make, if all of them are digits.
fn hash(digits: &[u8]) -> Option<[u8; 20]>
    requires { length digits.now ≡ 40 }
    ensures { result ≡ claim_of digits.now }
{
    let mut hash = [0; 20];
    for i in 0..20 {
        let high = digit(digits[2 * i])?;
        let low = digit(digits[2 * i + 1])?;
        hash[i] = 16 * high + low;
    }
    Some(hash)
}

// What a file's name says.
pub fn read(s: &[u8]) -> Name
    ensures { Answers name_said result (name_of s.now) }
{
    if !s.starts_with(b"graph-") || !s.ends_with(b".graph") {
        return Name::Other;
    }
    if s.len() != 52 {
        return Name::Hashless;
    }
    match hash(&s[6..46]) {
        Some(hash) => Name::Claims(hash),
        None => Name::Hashless,
    }
}
