ghost use Rattle.std.specs.Prelude.{◌≡◌};
ghost use Rattle.std.specs.Char.{is_ascii_digit};
ghost use Rattle.std.specs.List.{list_all};
ghost use Rattle.run_words.specs.Numerals.{is_numeral};

use clap::ArgMatches;

/// The numbers that an option takes, from the least to the greatest.
#[derive(Clone, Copy, Debug, PartialEq, Eq)]
pub struct Bounds {
    pub least: u64,
    pub most: u64,
}

/// Whether the bytes are decimal digits.
fn are_digits(bytes: &[u8]) -> bool
    ensures { result ≡ list_all is_ascii_digit bytes.now }
{
    bytes.iter().all(|byte| byte.is_ascii_digit())
}

/// Whether a text is 1 to 20 decimal digits.
fn is_numeral(text: &str) -> bool
    ensures { result ≡ is_numeral text.now }
{
    1 <= text.len() && text.len() <= 20 && are_digits(text.as_bytes())
}

impl Bounds {
    ghost use Rattle.std.specs.Prelude.{◌≡◌, ◌<◌, ◌≤◌, ◌^◌, IfSome};
    ghost use Rattle.clap.specs.Matches.{first_value, found_of};
    ghost use Rattle.run_words.specs.Numbers.{number_in, number_or, number_if_given};

    /// The numbers from the one to the other.
    pub fn new(least: u64, most: u64) -> Bounds
        ensures { result ≡ record { least = least; most = most } }
    {
        Bounds { least, most }
    }

    /// The number that a text writes, where it is 1 to 20 decimal digits of one of these numbers.
    pub fn number_in(self, text: &str) -> Option<u64>
        ensures value { result ≡ number_in self text.now }
        ensures within { IfSome result (λ n. (self.least ≤ n) × (n ≤ self.most)) }
    {
        if !is_numeral(text) {
            return None;
        }
        match text.parse::<u64>() {
            Ok(number) if self.least <= number && number <= self.most => Some(number),
            _ => None,
        }
    }

    /// The number of an option, where it is given.
    pub fn number_if_given(self, matches: &ArgMatches, name: &str) -> Option<Option<u64>>
        ensures { result ≡ number_if_given self (first_value (found_of matches.now) name.now) }
    {
        match matches.get_str(name) {
            None => Some(None),
            Some(text) => Some(Some(self.number_in(text)?)),
        }
    }

    /// The same for numbers of 32 bits.
    pub fn small_if_given(self, matches: &ArgMatches, name: &str) -> Option<Option<u32>>
        requires { self.most < 2 ^ 32 }
        ensures value { result ≡ number_if_given self (first_value (found_of matches.now) name.now) }
        ensures within { IfSome result (λ o. IfSome o (λ n. (self.least ≤ n) × (n ≤ self.most))) }
    {
        match matches.get_str(name) {
            None => Some(None),
            Some(text) => Some(Some(self.number_in(text)? as u32)),
        }
    }

    /// The number of an option, or this one where it isn't given.
    pub fn small_or(self, matches: &ArgMatches, name: &str, without: u32) -> Option<u32>
        requires small { self.most < 2 ^ 32 }
        requires fits { (self.least ≤ without) × (without ≤ self.most) }
        ensures value { result ≡ number_or without self (first_value (found_of matches.now) name.now) }
        ensures within { IfSome result (λ n. (self.least ≤ n) × (n ≤ self.most)) }
    {
        match matches.get_str(name) {
            None => Some(without),
            Some(text) => Some(self.number_in(text)? as u32),
        }
    }
}
