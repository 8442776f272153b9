// Numbers in decimal digits.
#![tactic(auto)]

ghost use Rattle.std.specs.Prelude.{◌≡◌, ℕ, ◌+◌, ◌-◌, ◌^◌, ◌≤◌};
ghost use Rattle.std.proofs.Common.{rules};
ghost use Rattle.read_numbers.specs.Number.{foreign, number, single, first};
ghost use Rattle.read_numbers.specs.Width.{number_in, first_in};
ghost use Rattle.codes.specs.Refusals.{number_of, read_of};

use codes::refusal::Refusal;
use read_lines::Words;

// What digits are in their line: a number by itself, an entry of a list, or what may stand after a minus in an entry.
#[derive(Clone, Copy)]
pub enum Role {
    Single,
    Entry,
    Magnitude,
}

// The refusal of a byte that is no digit.
fn foreign(role: Role, x: u8) -> Refusal
    ensures { number_of result ≡ foreign role x }
{
    match role {
        Role::Single => Refusal::NotANumber,
        Role::Entry => Refusal::Foreign,
        Role::Magnitude => {
            if x == b'-' {
                Refusal::MisplacedMinus
            } else {
                Refusal::Foreign
            }
        }
    }
}

// The value of digits, at most `max`: the loop that every width shares.
pub fn parse_digits(input: &[u8], max: u64, role: Role) -> Result<u64, Refusal>
    requires { 9 ≤ max }
    ensures { read_of result ≡ number role (max + 1) input.now }
{
    let mut value: u64 = 0;
    for x in input {
        if !codes::is_digit(*x) {
            return Err(foreign(role, *x));
        }
        let d = (*x - b'0') as u64;
        // Tested before the sum is made, so that nothing is lost.
        if (max - d) / 10 < value {
            return Err(Refusal::TooLarge);
        }
        value = value * 10 + d;
    }
    Ok(value)
}

// The types that a number is read into: their largest value, and the value that a number of the type stands for.
pub trait Width: Copy {
    ghost MAX: { ℕ };

    ghost value: { Self → ℕ };

    const MAX: u64;

    // The number of this value.
    fn narrowed(wide: u64) -> Self
        requires { wide ≤ MAX }
        ensures { value result ≡ wide };

    ghost digit_fits: { 9 ≤ MAX };
}

impl Width for u64 {
    ghost MAX = { 2 ^ 64 - 1 };

    ghost value = { λ v. v };

    const MAX: u64 = u64::MAX;

    fn narrowed(wide: u64) -> u64 {
        wide
    }

    ghost digit_fits = { Prim.search rules };
}

impl Width for u32 {
    ghost MAX = { 2 ^ 32 - 1 };

    ghost value = { λ v. v };

    const MAX: u64 = u32::MAX as u64;

    fn narrowed(wide: u64) -> u32 {
        wide as u32
    }

    ghost digit_fits = { Prim.search rules };
}

// A number by itself.
pub fn parse_single<N: Width>(input: &[u8]) -> Result<N, Refusal>
    ensures { number_in N.value result ≡ single (N.MAX + 1) input.now }
{
    if input.len() == 0 {
        return Err(Refusal::NotANumber);
    }
    let value = parse_digits(input, N::MAX, Role::Single)?;
    Ok(N::narrowed(value))
}

// The first number of a line, with the position of what is left after it.
pub fn parse_first<N: Width>(input: &[u8]) -> Result<(N, usize), Refusal>
    ensures { first_in N.value result ≡ first (N.MAX + 1) input.now }
{
    let (at, word) = Words::of(input, 0).next().ok_or(Refusal::NotANumber)?;
    let value = parse_single::<N>(word)?;
    Ok((value, at + word.len()))
}
