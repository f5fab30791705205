ghost use Rattle.std.specs.Prelude.{◌≡◌, ◌≢◌, ℕ, ◌%◌, ◌^◌, ◌≤◌, Some, IfSome};
ghost use Rattle.clock_fraction.specs.declared.fraction.Fraction.{Fraction};
ghost use Rattle.clock_fraction.specs.Decimal.{IsShortest};

use crate::Fraction;

/// The greatest counter of a decimal.
const MOST_COUNTER: u128 = 1_000_000_000_000_000_000;

/// The most digits after the point of a decimal.
const MOST_PLACES: u128 = 18;

/// The fraction `number * 10 ^ up / 10 ^ down` over the least power of ten, where it is within the limits.
pub(crate) fn shortest_fraction(number: u128, up: u128, down: u128) -> Option<Fraction>
    requires { number ≢ 0 → number % 10 ≢ 0 }
    ensures value { IfSome result (λ fraction. (k : ℕ) × IsShortest number up down k fraction) }
    ensures exact { (k : ℕ) (fraction : Fraction) → IsShortest number up down k fraction →
        result ≡ Some fraction }
{
    if number == 0 {
        return Some(Fraction {
            counter: 0,
            resolution: 1,
        });
    }
    let raise = up.saturating_sub(down);
    let places = down.saturating_sub(up);
    if number > MOST_COUNTER || raise > MOST_PLACES || places > MOST_PLACES {
        return None;
    }
    let counter = number * power_of_ten(raise);
    if counter > MOST_COUNTER {
        return None;
    }
    Some(Fraction {
        counter: counter as u64,
        resolution: power_of_ten(places) as u64,
    })
}

fn power_of_ten(exponent: u128) -> u128
    requires { exponent ≤ 18 }
    ensures power { result ≡ 10 ^ exponent }
    ensures small { result ≤ 10 ^ 18 }
{
    10u128.pow(exponent as u32)
}
