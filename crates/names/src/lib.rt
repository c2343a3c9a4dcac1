// Names (34): what is one, and when two are the same; and whether two words are.
#![tactic(auto)]

ghost use Rattle.std.specs.Prelude.{◌≡◌, true};
ghost use Rattle.names.specs.Name.{same, is_name, same_name};

use letters::{is_name_byte, is_within, low};

// 34: 1 to 16 letters, digits, underscores.
pub fn is_name(w: &[u8]) -> bool
    ensures { result ≡ is_name w.now }
{
    is_within(1, 16, w.len()) && w.iter().all(|b| is_name_byte(*b))
}

// The same bytes, as a keyword is compared.
#[tactic(auto, using(crate::proofs::NameLaws::same_is_eq))]
pub fn same_word(a: &[u8], b: &[u8]) -> bool
    ensures { result ≡ same a.now b.now }
{
    a == b
}

// Two names are the same, letter case ignored: their lengths are compared before any byte, and the first difference ends it.
pub fn same_name(a: &[u8], b: &[u8]) -> bool
    requires { (is_name a.now ≡ true) × (is_name b.now ≡ true) }
    ensures { result ≡ same_name a.now b.now }
{
    a.len() == b.len() && a.iter().zip(b).all(|(x, y)| low(*x) == low(*y))
}
