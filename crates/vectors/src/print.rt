// Printing to standard output.

pub fn text(s: &[u8]) {
    io::write_all(1, s);
}

// Names for the texts that lines are made of.
pub fn space() {
    text(b" ");
}

pub fn indent() {
    text(b"  ");
}

pub fn line_end() {
    text(b"\n");
}

pub fn number(n: u64) {
    io::print_decimal(1, n);
}

pub fn bit(b: bool) {
    number(u64::from(b));
}

// Octets in hexadecimal, '-' for none.
pub fn octets(s: &[u8]) {
    if s.is_empty() {
        text(b"-");
    }
    for x in s {
        io::print_hex(1, *x as u64, 2);
    }
}

fn hex4(n: u32) {
    io::print_hex(1, n as u64, 4);
}

// The sum and its complement, the checksum.
pub fn sum_line(sum: u32) {
    text(b"sum ");
    hex4(sum);
    text(b" checksum ");
    hex4(sum ^ 65535);
    line_end();
}

// The checksum field, and whether it is good.
pub fn field_line(field: u16, good: bool) {
    text(b"field ");
    hex4(field as u32);
    text(b" good ");
    bit(good);
    line_end();
}
