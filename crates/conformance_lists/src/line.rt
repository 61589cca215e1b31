// The words of a line. One blank stands between two.
ghost use Rattle.std.specs.Prelude.{◌≡◌, ◌≤◌, ◌<◌, IfErr, IfOk, length};
ghost use Rattle.conformance_lists.specs.Numbers.{number_of};
ghost use Rattle.conformance_lists.specs.declared.no_outcome.NoOutcome.TheVariants.{NoCase};

use crate::no_outcome::NoOutcome;

// The number that a word is: decimal digits alone, and below 2^32.
fn number(word: &str) -> Option<u32>
    ensures { result ≡ number_of word.now }
{
    // `parse` takes a sign, too.
    if word.starts_with('+') {
        return None;
    }
    word.parse().ok()
}

/// The words of a line that are not yet read.
#[derive(Clone, Copy)]
pub struct Line<'a> {
    words: Option<&'a str>,
}

impl<'a> Line<'a> {
    pub fn of(text: &'a str) -> Line<'a> {
        Line { words: Some(text) }
    }

    /// All of them.
    pub fn words(&self) -> Result<&'a str, NoOutcome>
        ensures { IfErr result (λ why. why ≡ NoCase) }
    {
        self.words.ok_or(NoOutcome::NoCase)
    }

    pub fn word(&mut self) -> Result<&'a str, NoOutcome>
        ensures { IfErr result (λ why. why ≡ NoCase) }
    {
        let words = self.words()?;
        match words.split_once(' ') {
            None => {
                self.words = None;
                Ok(words)
            }
            Some((word, others)) => {
                self.words = Some(others);
                Ok(word)
            }
        }
    }

    pub fn number(&mut self) -> Result<u32, NoOutcome>
        ensures { IfErr result (λ why. why ≡ NoCase) }
    {
        number(self.word()?).ok_or(NoOutcome::NoCase)
    }

    pub fn numbers<const N: usize>(&mut self) -> Result<[u32; N], NoOutcome>
        ensures { IfErr result (λ why. why ≡ NoCase) }
    {
        let mut numbers = [0; N];
        for number in &mut numbers {
            *number = self.number()?;
        }
        Ok(numbers)
    }

    /// A list, in the first words of a room: its length, the word that fills it, how many pairs follow, and the pairs, each
    /// an index and the word there. One of more than `most` words, or more than there is room for, is no list.
    pub fn list<'r>(&mut self, most: usize, room: &'r mut [u32]) -> Result<&'r mut [u32], NoOutcome>
        ensures ok { IfOk result (λ words. length words.now ≤ most) }
        ensures fits { IfOk result (λ words. length words.now < 4294967296) }
        ensures err { IfErr result (λ why. why ≡ NoCase) }
    {
        let [length, word, pairs] = self.numbers::<3>()?;
        if most < length as usize || length < pairs {
            return Err(NoOutcome::NoCase);
        }
        let words = room.get_mut(..length as usize).ok_or(NoOutcome::NoCase)?;
        words.fill(word);
        for _ in 0..pairs {
            let [index, word] = self.numbers::<2>()?;
            *words.get_mut(index as usize).ok_or(NoOutcome::NoCase)? = word;
        }
        Ok(words)
    }

    /// The end of the line: every word is read.
    pub fn end(&self) -> Result<(), NoOutcome>
        ensures { IfErr result (λ why. why ≡ NoCase) }
    {
        match self.words {
            None => Ok(()),
            Some(_) => Err(NoOutcome::NoCase),
        }
    }
}
