//! Doubles by their IEEE 754 binary64 patterns.
ghost use Rattle.std.specs.Prelude.{◌≡◌, ◌*◌, ◌^◌, ◌<◌, from_bits, to_bits};
ghost use Rattle.std.specs.Float.Ieee.{of_int};
ghost use Rattle.std.specs.Float.{binary64};
ghost use Rattle.values.specs.Doubles.{whole_of, divided, small, signed_of, significand, WholeExactly};

/// q * 2^e, up to 2^63.
fn scaled_up(q: u64, e: u64) -> Option<u64>
    ensures { result ≡ small (q * 2 ^ e) }
{
    if q == 0 {
        return Some(0);
    }
    if e > 63 {
        return None;
    }
    let n = (q as u128) << e;
    if n <= 0x8000_0000_0000_0000 {
        Some(n as u64)
    } else {
        None
    }
}

/// q / 2^e, where it is whole, up to 2^63.
fn scaled_down(q: u64, e: u64) -> Option<u64>
    ensures { result ≡ divided small q (2 ^ e) }
{
    if q == 0 {
        return Some(0);
    }
    if e > 63 {
        return None;
    }
    let u = 1u64 << e;
    if q % u != 0 {
        return None;
    }
    let n = q / u;
    if n <= 0x8000_0000_0000_0000 {
        Some(n)
    } else {
        None
    }
}

/// The whole number q * 2^k / 2^1074, where it is one and at most 2^63: a double's digits count
/// units of 2^-1074.
fn in_units(q: u64, k: u64) -> Option<u64>
    ensures { result ≡ divided small (q * 2 ^ k) (2 ^ 1074) }
{
    if k >= 1074 {
        scaled_up(q, k - 1074)
    } else {
        scaled_down(q, 1074 - k)
    }
}

fn with_sign(negative: bool, magnitude: Option<u64>) -> Option<i64>
    ensures { result ≡ signed_of negative magnitude }
{
    let n = magnitude?;
    if n < 0x8000_0000_0000_0000 {
        if negative {
            Some(0 - n as i64)
        } else {
            Some(n as i64)
        }
    } else if n == 0x8000_0000_0000_0000 && negative {
        Some(i64::MIN)
    } else {
        None
    }
}

/// The digits of a double with the exponent field x and the fraction field t: the leading 1 is
/// stored nowhere, and subnormals lack it.
fn digits(x: u64, t: u64) -> u64
    requires { t < 2 ^ 52 }
    ensures { result ≡ significand x t }
{
    if x == 0 { t } else { 0x10_0000_0000_0000 + t }
}

/// The whole number that the double with the pattern `p` is, where it is one from -2^63 to below
/// 2^63; none for a fraction, a NaN or an infinity.
pub fn whole_number(p: u64) -> Option<i64>
    ensures { result ≡ whole_of (from_bits binary64 p) }
{
    let x = p % 0x8000_0000_0000_0000 / 0x10_0000_0000_0000;
    if x == 2047 {
        return None;
    }
    let q = digits(x, p % 0x10_0000_0000_0000);
    with_sign(p >= 0x8000_0000_0000_0000, in_units(q, x.saturating_sub(1)))
}

/// The pattern of the double that is nearest to `i`, ties to even.
pub fn nearest_pattern(i: i64) -> u64
    ensures { result ≡ to_bits binary64 (of_int binary64 i) }
{
    std::num::nearest_i64_to_f64(i).to_bits()
}

/// The law of `whole_number`'s definition: it is z exactly where the double's value is z and z lies
/// in range.
pub fn whole_exactly()
    ensures { WholeExactly }
{}
