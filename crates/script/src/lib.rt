//! The lines of a script: one call of a challenger each, read from text.
#![tactic(auto)]

ghost use Rattle.std.specs.Prelude.{◌≡◌, Some, vec_items, codes, ◌↔◌, IsTrue};
ghost use Rattle.std.specs.Option.{option_map};
ghost use Rattle.std.specs.Result.{result_ok};
ghost use Rattle.std.specs.Iterator.{YieldsFirstRef, item_count};
ghost use Rattle.script.specs.declared.Fault.TheVariants.{Memory};
ghost use Rattle.script.specs.Words.{first_word, after_word, words_of, number_of, one_of, two_of};
ghost use Rattle.script.specs.Words.{optional_of, numbers_of, bytes_of, entry};
ghost use Rattle.script.specs.Grammar.{domain_of, permutation_of, hasher_of, domain_first};
ghost use Rattle.script.specs.Grammar.{domains_first, sponge_of, hashed_of, duplex_of, multi_of};
ghost use Rattle.script.specs.Grammar.{below, serial_of, make_of, helpers_of, hash_of, nothing_of};
ghost use Rattle.script.specs.Grammar.{pairs, calls, line_of, said_by};
ghost use Rattle.script.specs.Meaning.{meaning, hash_parameters, left, Gives};
ghost use Rattle.script.specs.Spoken.{fault_words};

use hex::FromHexError;
use std::alloc::{AllocFailed, Global};
use std::{error, fmt};

/// The domain that a challenger works over.
#[derive(Clone, Copy, PartialEq, Eq, Debug)]
pub enum DomainName {
    Bytes,
    BabyBear,
    KoalaBear,
    Goldilocks,
}

/// The permutation of a sponge; a ladder has a number of rounds.
#[derive(Clone, Copy, PartialEq, Eq, Debug)]
pub enum PermutationName {
    Mirror,
    Ladder(u64),
}

/// A hash function.
#[derive(Clone, Copy, PartialEq, Eq, Debug)]
pub enum HasherName {
    Sha256,
    Sha3_256,
}

/// What a sponge is made of.
#[derive(Clone, Copy, PartialEq, Eq, Debug)]
pub struct SpongeParameters {
    pub permutation: PermutationName,
    pub width: u64,
    pub rate: u64,
}

/// A hash function, and bytes for it: those that a hash challenger begins with, or those whose digest is asked for.
#[derive(PartialEq, Eq, Debug, Drop)]
pub struct HashParameters {
    pub hasher: HasherName,
    pub bytes: Vec<u8>,
}

/// What one line asks for.
#[derive(PartialEq, Eq, Debug, Drop)]
pub enum Line {
    /// An empty line, or one that starts with `#`.
    Blank,
    MakeDuplex(DomainName, SpongeParameters),
    /// The sampled domain, and the sponge's.
    MakeMulti(DomainName, DomainName, SpongeParameters),
    MakeHash(HashParameters),
    /// The sampled domain, and the duplex challenger over bytes below.
    MakeSerialDuplex(DomainName, SpongeParameters),
    /// The sampled domain, and the hash challenger below.
    MakeSerialHash(DomainName, HashParameters),
    Observe(Vec<u64>),
    Digest(Vec<u64>),
    Digest64(Vec<u64>),
    /// With the draw limit, if the line gives one.
    Sample(Option<u64>),
    Bits(u64),
    /// The bits and the draw limit.
    Uniform(u64, u64),
    /// The bits and the witness.
    Check(u64, u64),
    /// The bits and the budget.
    Grind(u64, u64),
    /// The count and the mask.
    Find(u64, u64),
    Held,
    Finalize,
    HashOf(HashParameters),
    /// The sampled domain, and the sponge's.
    Helpers(DomainName, DomainName),
}

/// Why a line cannot be read, with the word that was not understood.
#[derive(Clone, Copy, PartialEq, Eq, Debug)]
pub enum Fault<'a> {
    Spacing,
    UnknownCall(&'a str),
    UnknownChallenger(&'a str),
    UnknownTranscript(&'a str),
    UnknownDomain(&'a str),
    UnknownPermutation(&'a str),
    UnknownHasher(&'a str),
    NotNumber(&'a str),
    NotHex(&'a str),
    TooFew,
    TooMany,
    Memory,
}

impl<T: Drop> From<AllocFailed<T>> for Fault<'_> {
    ghost from_gives = { λ _ r. r ≡ Memory };

    fn from(_e: AllocFailed<T>) -> Self {
        Fault::Memory
    }
}

impl fmt::Display for Fault<'_> {
    ghost output = { fault_words };

    fn fmt<W: fmt::Write>(&self, f: &mut fmt::Formatter<W>) -> fmt::Result {
        match self {
            Fault::Spacing => write!(f, "words are separated by one space"),
            Fault::UnknownCall(word) => write!(f, "there is no call {word:?}"),
            Fault::UnknownChallenger(word) => write!(f, "there is no challenger {word:?}"),
            Fault::UnknownTranscript(word) => write!(f, "there is no byte transcript {word:?}"),
            Fault::UnknownDomain(word) => write!(f, "there is no domain {word:?}"),
            Fault::UnknownPermutation(word) => write!(f, "there is no permutation {word:?}"),
            Fault::UnknownHasher(word) => write!(f, "there is no hash function {word:?}"),
            Fault::NotNumber(word) => write!(f, "this is no decimal number below 2^64: {word:?}"),
            Fault::NotHex(word) => write!(f, "these are no pairs of hex digits: {word:?}"),
            Fault::TooFew => write!(f, "a word is missing"),
            Fault::TooMany => write!(f, "there are more words than the call takes"),
            Fault::Memory => write!(f, "there is not enough memory"),
        }
    }
}

impl error::Error for Fault<'_> {}

/// What follows a word, if something does.
#[derive(Clone, Copy)]
struct Rest<'a> {
    text: Option<&'a str>,
}

/// The first word, and what follows the space behind it.
fn cut(text: &str) -> (&str, Rest<'_>)
    ensures word { result.0.now ≡ first_word text.now }
    ensures rest { left result.1 ≡ after_word text.now }
{
    match text.split_once(' ') {
        Some((word, rest)) => (word, Rest { text: Some(rest) }),
        None => (text, Rest { text: None }),
    }
}

impl<'a> Iterator for Rest<'a> {
    type Item = &'a str;

    ghost next_gives = { YieldsFirstRef (λ r. words_of (left r)) };

    ghost remaining = { item_count (λ r. words_of (left r)) };

    fn next(&mut self) -> Option<&'a str> {
        let (word, rest) = cut(self.text?);
        *self = rest;
        Some(word)
    }
}

/// Why a text is not one number.
fn not_number(text: &str) -> Fault<'_> {
    if text.contains(' ') {
        Fault::TooMany
    } else {
        Fault::NotNumber(text)
    }
}

/// A decimal number below 2^64.
fn number(word: &str) -> Result<u64, Fault<'_>>
    ensures { result_ok result ≡ number_of word.now }
{
    if word.starts_with('+') {
        return Err(not_number(word));
    }
    word.parse::<u64>().map_err(|_| not_number(word))
}

impl<'a> TryFrom<&'a str> for DomainName {
    type Error = Fault<'a>;

    ghost try_from_gives = { λ word r. result_ok r ≡ domain_of word.now };

    fn try_from(word: &'a str) -> Result<Self, Fault<'a>> {
        match word {
            "bytes" => Ok(DomainName::Bytes),
            "babybear" => Ok(DomainName::BabyBear),
            "koalabear" => Ok(DomainName::KoalaBear),
            "goldilocks" => Ok(DomainName::Goldilocks),
            _ => Err(Fault::UnknownDomain(word)),
        }
    }
}

impl<'a> TryFrom<&'a str> for PermutationName {
    type Error = Fault<'a>;

    ghost try_from_gives = { λ word r. result_ok r ≡ permutation_of word.now };

    fn try_from(word: &'a str) -> Result<Self, Fault<'a>> {
        if word == "mirror" {
            return Ok(PermutationName::Mirror);
        }
        let rounds = word
            .strip_prefix("ladder:")
            .ok_or(Fault::UnknownPermutation(word))?;
        Ok(PermutationName::Ladder(number(rounds)?))
    }
}

impl<'a> TryFrom<&'a str> for HasherName {
    type Error = Fault<'a>;

    ghost try_from_gives = { λ word r. result_ok r ≡ hasher_of word.now };

    fn try_from(word: &'a str) -> Result<Self, Fault<'a>> {
        match word {
            "sha256" => Ok(HasherName::Sha256),
            "sha3-256" => Ok(HasherName::Sha3_256),
            _ => Err(Fault::UnknownHasher(word)),
        }
    }
}

/// The bytes that a word writes, each as two hex digits; `-` writes none.
fn bytes(heap: Global, word: &str) -> Result<Vec<u8>, Fault<'_>>
    ensures { Gives vec_items (bytes_of word.now) result }
{
    if word.is_empty() {
        return Err(Fault::NotHex(word));
    }
    if word == "-" {
        return Ok(Vec::new(heap));
    }
    match hex::decode(heap, word) {
        Ok(bytes) => Ok(bytes),
        Err(FromHexError::OutOfMemory) => Err(Fault::Memory),
        Err(_) if word.contains(' ') => Err(Fault::TooMany),
        Err(_) => Err(Fault::NotHex(word)),
    }
}

impl<'a> Rest<'a> {
    /// One number.
    fn one(self) -> Result<u64, Fault<'a>>
        ensures { result_ok result ≡ one_of (left self.entry) }
    {
        number(self.text.ok_or(Fault::TooFew)?)
    }

    /// Two numbers.
    fn two(self) -> Result<(u64, u64), Fault<'a>>
        ensures { result_ok result ≡ two_of (left self.entry) }
    {
        let (first, second) = cut(self.text.ok_or(Fault::TooFew)?);
        let a = number(first)?;
        let b = second.one()?;
        Ok((a, b))
    }

    /// Any number of numbers.
    fn numbers(self, heap: Global) -> Result<Vec<u64>, Fault<'a>>
        ensures { Gives vec_items (numbers_of (left self.entry)) result }
    {
        let mut all = Vec::new(heap);
        for word in self {
            all.push(number(word)?)?;
        }
        Ok(all)
    }

    /// No number, or one.
    fn at_most_one(self) -> Result<Option<u64>, Fault<'a>>
        ensures { result_ok result ≡ optional_of (left self.entry) }
    {
        self.text.map(number).transpose()
    }

    /// The line itself, if nothing follows.
    fn nothing(self, line: Line) -> Result<Line, Fault<'a>>
        ensures { option_map meaning (result_ok result)
            ≡ nothing_of (left self.entry) (meaning line) }
    {
        match self.text {
            Some(_) => Err(Fault::TooMany),
            None => Ok(line),
        }
    }

    /// A domain, and what follows it.
    fn domain(self) -> Result<(DomainName, Rest<'a>), Fault<'a>>
        ensures { option_map (λ (p : DomainName × Rest). (p.0, left p.1)) (result_ok result)
            ≡ domain_first (left self.entry) }
    {
        let (word, rest) = cut(self.text.ok_or(Fault::TooFew)?);
        Ok((DomainName::try_from(word)?, rest))
    }

    /// Two domains, and what follows them.
    fn domains(self) -> Result<(DomainName, DomainName, Rest<'a>), Fault<'a>>
        ensures { option_map (λ (p : DomainName × DomainName × Rest). (p.0, p.1, left p.2))
            (result_ok result) ≡ domains_first (left self.entry) }
    {
        let (sampled, rest) = self.domain()?;
        let (domain, rest) = rest.domain()?;
        Ok((sampled, domain, rest))
    }

    /// PERM WIDTH RATE.
    fn sponge(self) -> Result<SpongeParameters, Fault<'a>>
        ensures { result_ok result ≡ sponge_of (left self.entry) }
    {
        let (word, rest) = cut(self.text.ok_or(Fault::TooFew)?);
        let permutation = PermutationName::try_from(word)?;
        let (width, rate) = rest.two()?;
        Ok(SpongeParameters {
            permutation,
            width,
            rate,
        })
    }

    /// HASHER HEX.
    fn hash(self, heap: Global) -> Result<HashParameters, Fault<'a>>
        ensures { Gives hash_parameters (hashed_of (left self.entry)) result }
    {
        let (word, rest) = cut(self.text.ok_or(Fault::TooFew)?);
        let hasher = HasherName::try_from(word)?;
        let bytes = bytes(heap, rest.text.ok_or(Fault::TooFew)?)?;
        Ok(HashParameters { hasher, bytes })
    }

    /// DOMAIN PERM WIDTH RATE.
    fn duplex(self) -> Result<Line, Fault<'a>>
        ensures { option_map meaning (result_ok result) ≡ duplex_of (left self.entry) }
    {
        let (domain, rest) = self.domain()?;
        Ok(Line::MakeDuplex(domain, rest.sponge()?))
    }

    /// SAMPLED SPONGE PERM WIDTH RATE.
    fn multi(self) -> Result<Line, Fault<'a>>
        ensures { option_map meaning (result_ok result) ≡ multi_of (left self.entry) }
    {
        let (sampled, domain, rest) = self.domains()?;
        Ok(Line::MakeMulti(sampled, domain, rest.sponge()?))
    }

    /// What a serializing challenger over a sampled domain stands on.
    fn transcript(self, heap: Global, sampled: DomainName) -> Result<Line, Fault<'a>>
        ensures { Gives meaning (below sampled (left self.entry)) result }
    {
        let (kind, rest) = cut(self.text.ok_or(Fault::TooFew)?);
        match kind {
            "duplex" => Ok(Line::MakeSerialDuplex(sampled, rest.sponge()?)),
            "hash" => Ok(Line::MakeSerialHash(sampled, rest.hash(heap)?)),
            _ => Err(Fault::UnknownTranscript(kind)),
        }
    }

    /// SAMPLED, and a byte transcript.
    fn serial(self, heap: Global) -> Result<Line, Fault<'a>>
        ensures { Gives meaning (serial_of (left self.entry)) result }
    {
        let (sampled, rest) = self.domain()?;
        rest.transcript(heap, sampled)
    }

    /// What a challenger is made of.
    fn make(self, heap: Global) -> Result<Line, Fault<'a>>
        ensures { Gives meaning (make_of (left self.entry)) result }
    {
        let (kind, rest) = cut(self.text.ok_or(Fault::TooFew)?);
        match kind {
            "duplex" => rest.duplex(),
            "multi" => rest.multi(),
            "hash" => Ok(Line::MakeHash(rest.hash(heap)?)),
            "serial" => rest.serial(heap),
            _ => Err(Fault::UnknownChallenger(kind)),
        }
    }

    /// Two domains.
    fn helpers(self) -> Result<Line, Fault<'a>>
        ensures { option_map meaning (result_ok result) ≡ helpers_of (left self.entry) }
    {
        let (sampled, domain, rest) = self.domains()?;
        rest.nothing(Line::Helpers(sampled, domain))
    }

    /// A call with two numbers.
    fn pair(self, name: &'a str) -> Result<Line, Fault<'a>>
        ensures { option_map meaning (result_ok result) ≡ entry name.now (pairs (left self.entry)) }
    {
        match name {
            "uniform" => {
                let (bits, limit) = self.two()?;
                Ok(Line::Uniform(bits, limit))
            }
            "check" => {
                let (bits, witness) = self.two()?;
                Ok(Line::Check(bits, witness))
            }
            "grind" => {
                let (bits, budget) = self.two()?;
                Ok(Line::Grind(bits, budget))
            }
            "find" => {
                let (count, mask) = self.two()?;
                Ok(Line::Find(count, mask))
            }
            _ => Err(Fault::UnknownCall(name)),
        }
    }

    /// A call of a challenger.
    fn call(self, heap: Global, name: &'a str) -> Result<Line, Fault<'a>>
        ensures { Gives meaning (entry name.now (calls (left self.entry))) result }
    {
        match name {
            "observe" => Ok(Line::Observe(self.numbers(heap)?)),
            "digest" => Ok(Line::Digest(self.numbers(heap)?)),
            "digest64" => Ok(Line::Digest64(self.numbers(heap)?)),
            "sample" => Ok(Line::Sample(self.at_most_one()?)),
            "bits" => Ok(Line::Bits(self.one()?)),
            "held" => self.nothing(Line::Held),
            "finalize" => self.nothing(Line::Finalize),
            _ => self.pair(name),
        }
    }
}

/// What a line says, by its first word.
fn read_words(heap: Global, text: &str) -> Result<Line, Fault<'_>>
    ensures { Gives meaning (entry (first_word text.now) (line_of text.now)) result }
{
    let (name, rest) = cut(text);
    match name {
        "make" => rest.make(heap),
        "hashof" => Ok(Line::HashOf(rest.hash(heap)?)),
        "helpers" => rest.helpers(),
        _ => rest.call(heap, name),
    }
}

/// The fault, or `Spacing` where the words do not stand apart by one space.
fn respaced<'a>(text: &'a str, fault: Fault<'a>) -> Fault<'a>
    ensures { fault.entry ≡ Memory → result ≡ Memory }
{
    match fault {
        Fault::Memory => fault,
        _ if text.starts_with(' ') || text.ends_with(' ') || text.contains("  ") => Fault::Spacing,
        _ => fault,
    }
}

/// Reads one line, given without its line end. An `Ok` is what the line says; an `Err` comes only
/// where it says nothing, or memory is short.
pub fn read_line(heap: Global, text: &str) -> Result<Line, Fault<'_>>
    ensures { Gives meaning (said_by text.now) result }
{
    if text.is_empty() || text.starts_with('#') {
        return Ok(Line::Blank);
    }
    match read_words(heap, text) {
        Ok(line) => Ok(line),
        Err(fault) => Err(respaced(text, fault)),
    }
}

/// Whether a line, readable or not, begins with the word `make`: it ends the challenger before it.
pub fn begins_make(text: &str) -> bool
    ensures { IsTrue result ↔ (first_word text.now ≡ codes "make") }
{
    cut(text).0 == "make"
}

#[cfg(test)]
mod tests {
    use super::*;
    use std::alloc::AllocError;
    use std::test::Fail;

    // `ok`, or why the line cannot be read.
    fn told(heap: Global, text: &str) -> Result<String, AllocError> {
        match read_line(heap, text) {
            Ok(line) => {
                drop(line);
                String::from_str(heap, "ok")
            }
            Err(fault) => format!(in heap; "{fault}"),
        }
    }

    #[test]
    fn lines_are_read_or_faulted(rt: HostRuntime) -> Result<(), Fail> {
        let table = [
            ("", "ok"),
            ("# make", "ok"),
            ("make duplex koalabear ladder:3 16 8", "ok"),
            ("observe", "ok"),
            ("digest 0 18446744073709551615", "ok"),
            (
                "observe 18446744073709551616",
                "this is no decimal number below 2^64: \"18446744073709551616\"",
            ),
            ("bits +1", "this is no decimal number below 2^64: \"+1\""),
            ("bits  1", "words are separated by one space"),
            ("held ", "words are separated by one space"),
            ("grind 3", "a word is missing"),
            ("check 1 2 3", "there are more words than the call takes"),
            ("toss", "there is no call \"toss\""),
            ("make duplex bits mirror 3 2", "there is no domain \"bits\""),
            (
                "make duplex bytes ladder 3 2",
                "there is no permutation \"ladder\"",
            ),
            ("make multi bytes goldilocks mirror 3 2", "ok"),
            (
                "make multi bytes mirror 3 2",
                "there is no domain \"mirror\"",
            ),
            ("make hash sha256 -", "ok"),
            ("make hash sha256", "a word is missing"),
            ("make serial babybear duplex mirror 3 2", "ok"),
            ("make serial babybear hash sha3-256 00ff", "ok"),
            (
                "make serial babybear multi",
                "there is no byte transcript \"multi\"",
            ),
            ("make serial babybear", "a word is missing"),
            ("make tape", "there is no challenger \"tape\""),
            ("helpers bytes goldilocks", "ok"),
            (
                "helpers bytes goldilocks 3",
                "there are more words than the call takes",
            ),
            ("hashof sha256 -", "ok"),
            ("hashof sha3-256 616263", "ok"),
            ("hashof sha3-256 aF", "ok"),
            ("hashof sha512 -", "there is no hash function \"sha512\""),
            ("hashof sha256", "a word is missing"),
            ("hashof sha256 ", "words are separated by one space"),
            (
                "hashof sha256 616",
                "these are no pairs of hex digits: \"616\"",
            ),
            (
                "hashof sha256 6g",
                "these are no pairs of hex digits: \"6g\"",
            ),
            (
                "hashof sha256 61 62",
                "there are more words than the call takes",
            ),
        ];
        for (text, want) in table {
            let got = told(rt.alloc(), text)?;
            assert_eq!(rt; got.as_str(), want);
        }
        Ok(())
    }
}
