// The octets that a text spells in hexadecimal.
ghost use Rattle.std.specs.Prelude.{◌≡◌, [], IfOk, None};
ghost use Rattle.spelling.specs.Octets.{digit_of, taken, ended, octets_in, spelled, octets_or_none};
ghost use Rattle.spelling.specs.Failed.{UnlessShort};
ghost use Rattle.spelling.specs.declared.failed.Failed.TheVariants.{Bad};

use crate::digit::{Digit, digit_of};
use crate::failed::Failed;
use std::alloc::{AllocError, Global};

// Why a text spells no octets.
#[derive(Clone, Copy, PartialEq, Eq, Debug)]
pub enum Misspelled {
    // A digit that stands alone: an octet has two.
    OddDigits,
    // A character that is no hexadecimal digit.
    NotHexadecimal,
}

impl From<Misspelled> for Failed<Misspelled> {
    ghost from_gives = { λ reason failed. failed ≡ Bad reason };

    fn from(reason: Misspelled) -> Failed<Misspelled> {
        Failed::Bad(reason)
    }
}

// What a character adds to the octets so far: an enum, since the definition of what is spelled goes by the same cases.
#[derive(Clone, Copy)]
pub(crate) enum Step {
    Space,
    High(Digit),
    Octet(u8),
    Comment,
    Bad(Misspelled),
}

// The next character, after the high digit of an octet or between octets.
fn taken(high: &Option<Digit>, character: u8) -> Step
    ensures value { result ≡ taken high.now character }
{
    match (high, digit_of(character), character) {
        (Some(high), Some(low), _) => Step::Octet(high.octet(low)),
        (None, Some(digit), _) => Step::High(digit),
        (None, None, b' ' | b'\t' | b'\r') => Step::Space,
        (None, None, b'#') => Step::Comment,
        (Some(_), None, b' ' | b'\t' | b'\r' | b'#') => Step::Bad(Misspelled::OddDigits),
        (_, None, _) => Step::Bad(Misspelled::NotHexadecimal),
    }
}

fn ended(octets: Vec<u8>, high: Option<Digit>) -> Result<Vec<u8>, Misspelled>
    ensures value { octets_in result ≡ ended octets.items high }
{
    match high {
        None => Ok(octets),
        Some(_) => Err(Misspelled::OddDigits),
    }
}

// The octets of a text, or why it spells none.
#[tactic(auto, using(crate::proofs::Spells::spelling_steps))]
pub fn spelled(heap: Global, text: &[u8]) -> Result<Vec<u8>, Failed<Misspelled>>
    ensures value { UnlessShort result (λ x. octets_in x ≡ spelled [] None text.now) }
{
    let mut octets = Vec::new(heap);
    let mut high = None;
    for character in text {
        high = match taken(&high, *character) {
            Step::Space => high,
            Step::High(digit) => Some(digit),
            Step::Octet(octet) => {
                octets.push(octet)?;
                None
            }
            Step::Comment => return Ok(octets),
            Step::Bad(reason) => return Err(Failed::Bad(reason)),
        }
    }
    Ok(ended(octets, high)?)
}

// The octets that a text spells, or no octets.
pub fn octets_or_none(heap: Global, text: &[u8]) -> Result<Vec<u8>, AllocError>
    ensures value { IfOk result (λ v. v.items ≡ octets_or_none text.now) }
{
    match spelled(heap, text) {
        Ok(octets) => Ok(octets),
        Err(failed) => {
            failed.reason()?;
            Ok(Vec::new(heap))
        }
    }
}
