// Powers of two.
ghost use Rattle.std.specs.Prelude.{◌≡◌, ◌<◌, ◌^◌};

// A power of two.
pub(crate) fn power(k: u32) -> u32
    requires { k < 7 }
    ensures value { result ≡ 2 ^ k }
    ensures few { result < 65 }
{
    match k {
        0 => 1,
        1 => 2,
        2 => 4,
        3 => 8,
        4 => 16,
        5 => 32,
        _ => 64,
    }
}
