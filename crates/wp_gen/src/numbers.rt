//! The sequence of numbers of which the draws are made.
ghost use Rattle.std.specs.Prelude.{◌≡◌, ◌<◌};
ghost use Rattle.wp_gen.specs.Numbers.{drawn_below, next_of};

/// The number after another.
pub fn next_of(term: u64) -> u64
    ensures { result ≡ next_of term }
{
    term.wrapping_mul(6_364_136_223_846_793_005)
        .wrapping_add(1_442_695_040_888_963_407)
}

/// What a number draws below a bound: of its high bits, since the low ones come round soon.
pub fn drawn_below(bound: u32, term: u64) -> u32
    requires { 0 < bound }
    ensures value { result ≡ drawn_below bound term }
    ensures below { result < bound }
{
    (term / 8_589_934_592 % u64::from(bound)) as u32
}
