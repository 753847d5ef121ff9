// Numbers as decimal text.
ghost use Rattle.std.specs.Prelude.{◌≡◌, [], ◌∷◌, ◌++◌, ◌+◌, ◌≤◌, length};
ghost use Rattle.rings_lines.specs.Put.{Put};
ghost use Rattle.rings_lines.specs.Text.{digits, decimal};

fn digit(x: u32) -> u8
    requires { x ≤ 9 }
    ensures { result ≡ 48 + x }
{
    b'0' + x as u8
}

// So many digits at most, from a place on. Answers the place behind them. A loop would be no plainer: it had to count the digits first.
fn put_digits(out: &mut [u8], at: usize, most: usize, x: u32) -> usize
    requires { at + most ≤ length out.old }
    ensures { Put out.old at (digits most x) out.new result }
{
    if most == 0 {
        return at;
    }
    if x < 10 {
        out[at] = digit(x);
        return at + 1;
    }
    let next = put_digits(out, at, most - 1, x / 10);
    out[next] = digit(x % 10);
    next + 1
}

// A number with a byte behind it.
pub fn put_number(out: &mut [u8], at: usize, x: u32, last: u8) -> usize
    requires { at + 11 ≤ length out.old }
    ensures put { Put out.old at (decimal x ++ (last ∷ [])) out.new result }
    ensures most { result ≤ at + 11 }
{
    let next = put_digits(out, at, 10, x);
    out[next] = last;
    next + 1
}
