// The letters 0 and 1 of a reach.
ghost use Rattle.std.specs.Prelude.{◌≡◌, ◌-◌, ◌≤◌, get_or};
ghost use Rattle.laws.specs.Test.{within};
ghost use Rattle.laws.specs.Below.{count};
ghost use Rattle.sets.specs.Largest.{largest};
ghost use Rattle.sets.specs.Sets.{set_of};
ghost use Rattle.fields.specs.Decimal.{letter};

use sets::Set;

// How many of the first n bytes are a letter 0 or 1.
pub fn letter_count(text: &[u8], n: usize) -> usize
    ensures counted { result ≡ count n (λ j. within (letter 0) (get_or text.now j 0) (letter 1)) }
{
    text.iter()
        .take(n)
        .filter(|&b| matches!(b, b'0'..=b'1'))
        .count()
}

// The set that n letters 0 or 1 stand for: the letter at place j is bit j.
pub fn reach_value(text: &[u8], n: usize) -> Set
    requires width { n ≤ largest }
    requires letters { count n (λ j. within (letter 0) (get_or text.now j 0) (letter 1)) ≡ n }
    ensures summed { result ≡ set_of n (λ j. get_or text.now j 0 - letter 0) }
{
    let mut reach: Set = 0;
    for (j, &letter) in text[..n].iter().enumerate() {
        let digit = letter - b'0';
        reach += (digit as Set) << (j as Set);
    }
    reach
}
