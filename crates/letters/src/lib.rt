// The class of a byte, one for each of the 256 values, the tests that ask for it, and lower case.
#![tactic(auto)]

ghost use Rattle.std.specs.Prelude.{◌≡◌};
ghost use Rattle.letters.specs.Class.{within, class_of, is_digit, is_gap, is_end, name_byte};
ghost use Rattle.letters.specs.Case.{lower};

// 1 letter, 2 digit, 3 underscore, 4 minus, 5 point, 6 blank, 7 LF, 8 CR, 0 refused.
const CLASSES: [u8; 256] = [
    // 0 to 31: tab, LF and CR
    0, 0, 0, 0, 0, 0, 0, 0, 0, 6, 7, 0, 0, 8, 0, 0, 0, 0, 0, 0, 0, 0, 0, 0, 0, 0, 0, 0, 0, 0, 0, 0,
    // 32 to 63: space, minus, point and the digits
    6, 0, 0, 0, 0, 0, 0, 0, 0, 0, 0, 0, 0, 4, 5, 0, 2, 2, 2, 2, 2, 2, 2, 2, 2, 2, 0, 0, 0, 0, 0, 0,
    // 64 to 95: the capital letters and the underscore
    0, 1, 1, 1, 1, 1, 1, 1, 1, 1, 1, 1, 1, 1, 1, 1, 1, 1, 1, 1, 1, 1, 1, 1, 1, 1, 1, 0, 0, 0, 0, 3,
    // 96 to 127: the small letters
    0, 1, 1, 1, 1, 1, 1, 1, 1, 1, 1, 1, 1, 1, 1, 1, 1, 1, 1, 1, 1, 1, 1, 1, 1, 1, 1, 0, 0, 0, 0, 0,
    // 128 to 255: none
    0, 0, 0, 0, 0, 0, 0, 0, 0, 0, 0, 0, 0, 0, 0, 0, 0, 0, 0, 0, 0, 0, 0, 0, 0, 0, 0, 0, 0, 0, 0, 0,
    0, 0, 0, 0, 0, 0, 0, 0, 0, 0, 0, 0, 0, 0, 0, 0, 0, 0, 0, 0, 0, 0, 0, 0, 0, 0, 0, 0, 0, 0, 0, 0,
    0, 0, 0, 0, 0, 0, 0, 0, 0, 0, 0, 0, 0, 0, 0, 0, 0, 0, 0, 0, 0, 0, 0, 0, 0, 0, 0, 0, 0, 0, 0, 0,
    0, 0, 0, 0, 0, 0, 0, 0, 0, 0, 0, 0, 0, 0, 0, 0, 0, 0, 0, 0, 0, 0, 0, 0, 0, 0, 0, 0, 0, 0, 0, 0,
];

// The class of a byte.
pub fn class_of(b: u8) -> u8
    ensures { result ≡ class_of b }
{
    CLASSES[b as usize]
}

// k is from `low` to `high`, ends included.
pub fn is_within(low: usize, high: usize, k: usize) -> bool
    ensures { result ≡ within low high k }
{
    low <= k && k <= high
}

#[tactic(auto, unfolding(crate::specs::Class::is_digit))]
pub fn is_digit(b: u8) -> bool
    ensures { result ≡ is_digit b }
{
    class_of(b) == 2
}

#[tactic(auto, unfolding(crate::specs::Class::is_gap))]
pub fn is_gap(b: u8) -> bool
    ensures { result ≡ is_gap b }
{
    let k = class_of(b);
    k == 6 || k == 8
}

#[tactic(auto, unfolding(crate::specs::Class::is_end))]
pub fn is_end(b: u8) -> bool
    ensures { result ≡ is_end b }
{
    class_of(b) == 7
}

#[tactic(auto, unfolding(crate::specs::Class::name_byte))]
pub fn is_name_byte(b: u8) -> bool
    ensures { result ≡ name_byte b }
{
    let k = class_of(b);
    1 <= k && k <= 3
}

// A byte in lower case.
#[tactic(auto, unfolding(crate::specs::Case::lower))]
pub fn low(b: u8) -> u8
    ensures { result ≡ lower b }
{
    if 65 <= b && b <= 90 { b + 32 } else { b }
}
