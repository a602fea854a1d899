// A leg packed into one number.
#![tactic(auto)]

ghost use Rattle.std.specs.Prelude.{◌≡◌};
ghost use Rattle.packed.specs.Packed.{leg_in, Small};

use article::pair::Leg;

// A leg as one number, from which it is read back.
#[tactic(auto, using(crate::proofs::Back::back))]
pub fn code_of(leg: Leg) -> u64
    requires { Small leg }
    ensures { leg_in result ≡ leg }
{
    leg.rate
        + 65536 * leg.period
        + 16777216 * leg.side
        + 268435456 * leg.kind
        + 4294967296 * leg.issuer
        + 281474976710656 * leg.currency
        + 4503599627370496 * leg.rating
        + 72057594037927936 * leg.letter
}

// The leg of a number.
#[tactic(auto, unfolding(crate::specs::Packed::leg_in))]
pub fn leg_in(code: u64) -> Leg
    ensures { result ≡ leg_in code }
{
    Leg {
        letter: code / 72057594037927936 % 16,
        side: code / 16777216 % 16,
        kind: code / 268435456 % 16,
        issuer: code / 4294967296 % 65536,
        currency: code / 281474976710656 % 16,
        rating: code / 4503599627370496 % 16,
        period: code / 65536 % 256,
        rate: code % 65536,
    }
}
