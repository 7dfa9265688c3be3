// Words of a line: bytes as they are, numbers, bytes in digits, refusals.
use types::refusal::Refusal;

// The descriptor of standard output.
const STDOUT: i32 = 1;

pub fn print(s: &[u8]) {
    io::write_all(STDOUT, s);
}

pub fn number(n: u64) {
    print(b" ");
    io::print_decimal(STDOUT, n);
}

// Prints bytes as two digits each.
pub fn hex(s: &[u8]) {
    for byte in s {
        io::print_hex(STDOUT, u64::from(*byte), 2);
    }
}

pub fn refusal(r: Refusal) {
    print(b"refused");
    number(u64::from(r.reason.number()));
    number(u64::from(r.file));
    number(r.place);
}
