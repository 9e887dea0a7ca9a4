// Durations: signed numbers of ticks, and the 32 bits that stand for them. Each function is one call of std, under its name in Linked of `statements`.
ghost use Rattle.std.specs.Prelude.{◌≡◌};
ghost use Rattle.calls.specs.Duration as D;

// The ticks that a duration asks to wait: zero and below mean the same.
pub fn ticks(d: i32) -> u32
    ensures { result ≡ D.ticks d }
{
    u32::try_from(d).unwrap_or(0)
}

// Four bytes as a number, high byte first.
pub fn word(a: u8, b: u8, c: u8, d: u8) -> u32
    ensures { result ≡ D.four a b c d }
{
    u32::from_be_bytes([a, b, c, d])
}

// The four bytes of a number, high byte first.
pub fn bytes_of(n: u32) -> [u8; 4]
    ensures { result ≡ D.bytes_of n }
{
    n.to_be_bytes()
}
