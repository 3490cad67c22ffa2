// A line as text.
ghost use Rattle.std.specs.Prelude.{◌≡◌, ◌+◌, ◌<◌, ◌≤◌, [], ◌∷◌, length};
ghost use Rattle.lines.specs.Text.{PutsNumber, PutsNumbers};

// A number in decimal, and an octet behind it: any number.
fn put_long(text: &mut [u8], at: usize, n: u64, behind: u8) -> usize
    requires { at + 21 ≤ length text.old }
    ensures puts_number { PutsNumber n behind at text.old text.new result }
    ensures most { result ≤ at + 21 }
{
    let mut digits = [0u8; 20];
    let k = io::decimal(n, &mut digits);
    let end = octets::put(text, at, &digits[..k]);
    text[end] = behind;
    end + 1
}

fn digit(d: u64) -> u8
    requires { d < 10 }
    ensures { result ≡ 48 + d }
{
    48 + d as u8
}

// The same: nearly every number of a line is short, and `put_long` alone is slower.
pub fn put_number(text: &mut [u8], at: usize, n: u64, behind: u8) -> usize
    requires { at + 21 ≤ length text.old }
    ensures puts_number { PutsNumber n behind at text.old text.new result }
    ensures most { result ≤ at + 21 }
{
    if n < 10 {
        let t = [digit(n), behind];
        return octets::put(text, at, &t);
    }
    if n < 100 {
        let t = [digit(n / 10), digit(n % 10), behind];
        return octets::put(text, at, &t);
    }
    if n < 1000 {
        let t = [digit(n / 100), digit(n / 10 % 10), digit(n % 10), behind];
        return octets::put(text, at, &t);
    }
    if n < 10000 {
        let t = [
            digit(n / 1000),
            digit(n / 100 % 10),
            digit(n / 10 % 10),
            digit(n % 10),
            behind,
        ];
        return octets::put(text, at, &t);
    }
    if n < 100000 {
        let t = [
            digit(n / 10000),
            digit(n / 1000 % 10),
            digit(n / 100 % 10),
            digit(n / 10 % 10),
            digit(n % 10),
            behind,
        ];
        return octets::put(text, at, &t);
    }
    put_long(text, at, n, behind)
}

// The numbers of a line: the place behind it.
pub fn put_line(
    text: &mut [u8],
    at: usize,
    number: u64,
    code: u8,
    written: usize,
    used: usize,
) -> usize
    requires { at + 84 ≤ length text.old }
    ensures puts_numbers { PutsNumbers (number ∷ code ∷ written ∷ used ∷ []) at text.old text.new result }
    ensures most { result ≤ at + 84 }
{
    let second = put_number(text, at, number, 32);
    let third = put_number(text, second, code as u64, 32);
    let fourth = put_number(text, third, written as u64, 32);
    put_number(text, fourth, used as u64, 10)
}
