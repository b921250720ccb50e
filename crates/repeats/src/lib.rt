// Whether a number stands twice in a list of numbers of a sheet: 17, parameter twice.
#![tactic(auto)]

ghost use Rattle.std.specs.Prelude.{◌≡◌, map};
ghost use Rattle.bitset.specs.Below.{AllBelow};
ghost use Rattle.operands.specs.Bytes.{number_in};
ghost use Rattle.repeats.specs.Repeats.{any_twice};

use operands::bytes;

// Up to so many numbers, each is compared with those behind it, which costs less than a map.
const FEW: usize = 24;

// A map has a bit for each number below this.
const MAPPED: usize = 65536;

// Whether one of the numbers, which are below a bound, stands there twice. Above 65,536 no function has slots, so only then, which no caller asks for,
// many numbers are compared one by one.
pub fn any_twice(numbers: &[[u8; 4]], bound: usize) -> bool
    requires { AllBelow bound (map number_in numbers.now) }
    ensures { result ≡ any_twice (map number_in numbers.now) }
{
    if numbers.len() <= FEW || MAPPED < bound {
        return by_pairs(numbers);
    }
    by_map(numbers)
}

// Each number compared with those behind it.
fn by_pairs(numbers: &[[u8; 4]]) -> bool
    ensures { result ≡ any_twice (map number_in numbers.now) }
{
    for (i, number) in numbers.iter().enumerate() {
        let x = bytes::number(*number);
        let behind = &numbers[i + 1..];
        if behind.iter().any(|other| x == bytes::number(*other)) {
            return true;
        }
    }
    false
}

// Each number looked up in a map of those before it: in linear time, whatever the numbers are.
fn by_map(numbers: &[[u8; 4]]) -> bool
    requires { AllBelow 65536 (map number_in numbers.now) }
    ensures { result ≡ any_twice (map number_in numbers.now) }
{
    let mut seen = [0u64; 1024];
    for number in numbers {
        let x = bytes::number(*number) as usize;
        if bitset::contains(&seen, x) {
            return true;
        }
        bitset::insert(&mut seen, x);
    }
    false
}
