// A stream: 8-byte words come in, high byte first, and lines of words go out, one space between two.
ghost use Rattle.std.specs.Prelude.{◌≡◌, ℕ, pos, ◌≤◌, ◌<◌, IfOk, OnOk, IfSome, [], ◌∷◌, ◌++◌, length, codes, decimal, vec_len, map, from_bits, to_bits};
ghost use Rattle.std.specs.Io.KnownBytes.{Appends};
ghost use lib.Ieee.{binary64};
ghost use Rattle.std.specs.List.{zip};
ghost use Rattle.plan.specs.Structs.{answer_of};
ghost use Rattle.calls_stream.specs.Checksum.{checksum_of};
ghost use Rattle.calls_stream.specs.Doubles.{bits_of};
ghost use Rattle.calls_stream.specs.Ends.{EndsWell};
ghost use Rattle.calls_stream.specs.Words.{Takes, TakesAll, Reads, plan_words, raster_words};

use crate::inner::checksum::checksum;
use crate::inner::element::Element;
use plan::{Plan, Raster, Refusal};
use std::alloc::{AllocError, AllocFailed, Global};
use std::io;
use std::io::{ErrorKind, Read, Write};
use std::num::{f64_from_bits_with_nan, f64_to_bits_with_nan};

// A longer slice ends the stream.
const MOST_ELEMENTS: u64 = 131072;

// Of a longer slice a checksum is printed.
const MOST_PRINTED: usize = 64;

// Why there is no next line.
#[derive(Drop)]
pub enum Ended {
    // No words are left, or they name no call.
    Closed,
    TooLong,
    OutOfMemory,
    Unwritten(io::Error),
}

impl From<AllocError> for Ended {
    fn from(_e: AllocError) -> Ended {
        Ended::OutOfMemory
    }
}

impl<T: Drop> From<AllocFailed<T>> for Ended {
    fn from(_e: AllocFailed<T>) -> Ended {
        Ended::OutOfMemory
    }
}

impl From<io::Error> for Ended {
    fn from(e: io::Error) -> Ended {
        Ended::Unwritten(e)
    }
}

// Doubles, and the words that they were read from: a NaN's own bits cannot be read from it. Two vectors, since the calls take a slice of doubles.
#[derive(Drop)]
pub struct Doubles {
    pub values: Vec<f64>,
    words: Vec<u64>,
    ghost paired: { vec_len values ≡ vec_len words },
}

impl Doubles {
    // Of a NaN, the word that it was read from.
    fn bits(&self, alloc: Global) -> Result<Vec<u64>, AllocError>
        ensures length { IfOk result (λ v. vec_len v ≡ vec_len self.now.values) }
        ensures value { IfOk result (λ v. v.items ≡ map bits_of (zip self.now.values.items self.now.words.items)) }
    {
        self.values
            .iter()
            .zip(self.words.iter())
            .map(|(x, word)| if x.is_nan() { *word } else { x.to_bits() })
            .collect(alloc)
    }
}

#[derive(Drop)]
pub struct Stream<R, W> {
    pub alloc: Global,
    from: R,
    to: W,
}

impl<R: Read, W: Write> Stream<R, W> {
    pub fn new(alloc: Global, from: R, to: W) -> Stream<R, W>
        ensures from { result.from ≡ from }
        ensures to { result.to ≡ to }
    {
        Stream { alloc, from, to }
    }

    // The next word, where one is left. An `Option`, which a register holds: what is read of a long slice goes through here.
    fn next(&mut self) -> Option<u64>
        ensures { IfSome result (λ n. Takes (R.remaining self.old.from) (R.remaining self.new.from) n) }
    {
        let mut bytes = [0u8; 8];
        if self.from.read_exact(&mut bytes).is_err() {
            return None;
        }
        Some(u64::from_be_bytes(bytes))
    }

    pub fn word(&mut self) -> Result<u64, Ended>
        ensures { IfOk result (λ n. Takes (R.remaining self.old.from) (R.remaining self.new.from) n) }
    {
        self.next().ok_or(Ended::Closed)
    }

    pub fn element<T: Element>(&mut self) -> Result<T, Ended>
        ensures { IfOk result (λ x. (n : ℕ) × Takes (R.remaining self.old.from) (R.remaining self.new.from) n × (x ≡ T.read n)) }
    {
        Ok(T::from_word(self.word()?))
    }

    pub fn plan(&mut self) -> Result<Plan, Ended>
        ensures { IfOk result (λ p. TakesAll (R.remaining self.old.from) (R.remaining self.new.from) (plan_words p)) }
    {
        let radius = self.word()?;
        let inner = self.word()?;
        let edge = self.word()?;
        let passes = self.word()?;
        Ok(Plan::new(radius, inner, edge, passes))
    }

    pub fn raster(&mut self) -> Result<Raster, Ended>
        ensures { IfOk result (λ r. TakesAll (R.remaining self.old.from) (R.remaining self.new.from) (raster_words r)) }
    {
        let across = self.plan()?;
        let down = self.plan()?;
        let bound = self.word()?;
        let width = self.word()?;
        let height = self.word()?;
        Ok(Raster {
            across,
            down,
            bound,
            width,
            height,
        })
    }

    // A slice: how many elements it has, and each of them.
    pub fn slice<T: Element>(&mut self) -> Result<Vec<T>, Ended>
        ensures most { IfOk result (λ v. vec_len v ≤ MOST_ELEMENTS) }
        ensures read { IfOk result (λ v. Reads T.read (R.remaining self.old.from) (R.remaining self.new.from) v.items) }
    {
        let count = self.count()?;
        let mut values = Vec::with_capacity(self.alloc, count)?;
        for _ in 0..count {
            let Some(word) = self.next() else {
                return Err(Ended::Closed);
            };
            values.push(T::from_word(word))?;
        }
        Ok(values)
    }

    fn count(&mut self) -> Result<usize, Ended>
        ensures most { IfOk result (λ n. n ≤ MOST_ELEMENTS) }
        ensures read { IfOk result (λ n. Takes (R.remaining self.old.from) (R.remaining self.new.from) n) }
    {
        let count = self.word()?;
        if count > MOST_ELEMENTS {
            return Err(Ended::TooLong);
        }
        Ok(count as usize)
    }

    // A slice of doubles, each given as its bits.
    pub fn doubles(&mut self) -> Result<Doubles, Ended>
        ensures { IfOk result (λ d. d.values.items ≡ map (from_bits binary64) d.words.items) }
    {
        let words = self.slice::<u64>()?;
        let values = words
            .iter()
            .map(|word| f64_from_bits_with_nan(*word))
            .collect(self.alloc)?;
        Ok(Doubles { values, words })
    }

    // The first word of a line has no space before it.
    pub fn first(&mut self, n: u64) -> Result<(), Ended>
        ensures { OnOk result (Appends (W.contents self.old.to) (W.contents self.new.to) (decimal n)) }
    {
        Ok(write!(self.to, "{n}")?)
    }

    pub fn number<T: Element>(&mut self, n: T) -> Result<(), Ended>
        ensures { OnOk result (IfSome (T.Display.output n) (λ text. Appends (W.contents self.old.to) (W.contents self.new.to) (32 ∷ text))) }
    {
        Ok(write!(self.to, " {n}")?)
    }

    // The first two words of a line: what refuses the call, and where. Both are 0 of a call that is done.
    pub fn answer<T>(&mut self, answer: &Result<T, Refusal>) -> Result<(), Ended>
        ensures { OnOk result (Appends (W.contents self.old.to) (W.contents self.new.to)
            (decimal (answer_of answer.now).number ++ 32 ∷ decimal (answer_of answer.now).position)) }
    {
        let (number, position) = match answer {
            Ok(_) => (0, 0),
            Err(refusal) => (refusal.number(), refusal.position()),
        };
        self.first(number)?;
        self.number(position as u64)
    }

    // How many samples are bad.
    pub fn bad<T>(&mut self, answer: &Result<T, Refusal>) -> Result<(), Ended>
        ensures { OnOk result (Appends (W.contents self.old.to) (W.contents self.new.to) (32 ∷ decimal (answer_of answer.now).bad)) }
    {
        let bad = match answer {
            Ok(_) => 0,
            Err(refusal) => refusal.bad(),
        };
        self.number(bad as u64)
    }

    // A double is printed as its bits.
    pub fn double(&mut self, x: f64) -> Result<(), Ended>
        ensures { OnOk result (Appends (W.contents self.old.to) (W.contents self.new.to) (32 ∷ decimal (to_bits binary64 x))) }
    {
        self.number(f64_to_bits_with_nan(x))
    }

    pub fn print<T: Element>(&mut self, values: &[T]) -> Result<(), Ended>
        ensures { OnOk result (MOST_PRINTED < length values.now → Appends (W.contents self.old.to) (W.contents self.new.to)
            (codes " # " ++ decimal (length values.now) ++ 32 ∷ decimal (checksum_of (map T.value values.now)))) }
    {
        if values.len() > MOST_PRINTED {
            return Ok(write!(self.to, " # {} {}", values.len(), checksum(values))?);
        }
        for x in values {
            self.number(*x)?;
        }
        Ok(())
    }

    pub fn print_doubles(&mut self, doubles: &Doubles) -> Result<(), Ended>
        ensures { OnOk result (MOST_PRINTED < vec_len doubles.now.values → Appends (W.contents self.old.to) (W.contents self.new.to)
            (codes " # " ++ decimal (vec_len doubles.now.values) ++ 32 ∷ decimal (checksum_of (map pos (map bits_of (zip doubles.now.values.items doubles.now.words.items)))))) }
    {
        self.print(&doubles.bits(self.alloc)?)
    }

    pub fn end_line(&mut self) -> Result<(), Ended>
        ensures { OnOk result (Appends (W.contents self.old.to) (W.contents self.new.to) (10 ∷ [])) }
    {
        Ok(writeln!(self.to)?)
    }

    // What the writer holds back is written too, unless a write failed.
    pub fn end(mut self, ran: Result<(), Ended>) -> io::Result<()>
    where
        R: Drop,
        W: Drop,
        ensures { OnOk result (EndsWell ran) }
    {
        match ran {
            Ok(()) | Err(Ended::Closed) => self.to.flush(),
            Err(Ended::TooLong) => {
                writeln!(self.to, "stop")?;
                self.to.flush()
            }
            Err(Ended::OutOfMemory) => {
                self.to.flush()?;
                Err(io::Error::from(ErrorKind::OutOfMemory))
            }
            Err(Ended::Unwritten(e)) => Err(e),
        }
    }
}

#[cfg(test)]
mod tests {
    use super::*;
    use std::test::Fail;

    // A slice of two: 7, and a NaN that is not the usual one.
    const TWO: [u8; 24] = [
        0, 0, 0, 0, 0, 0, 0, 2, 0, 0, 0, 0, 0, 0, 0, 7, 255, 248, 0, 0, 0, 0, 0, 1,
    ];

    const NAN: u64 = 18444492273895866369;

    #[test]
    fn a_slice_is_read(rt: HostRuntime) -> Result<(), Fail> {
        let alloc = rt.alloc();
        let mut stream = Stream::new(alloc, TWO.as_slice(), Vec::new(alloc));
        match stream.slice::<u64>() {
            Ok(values) => assert_eq!(rt; values.as_slice(), [7, NAN].as_slice()),
            Err(_) => assert!(rt; false),
        }
        Ok(())
    }

    #[test]
    fn doubles_are_printed_as_they_were_read(rt: HostRuntime) -> Result<(), Fail> {
        let alloc = rt.alloc();
        let mut stream = Stream::new(alloc, TWO.as_slice(), Vec::new(alloc));
        match stream.doubles() {
            Ok(doubles) => assert!(rt; stream.print_doubles(&doubles).is_ok()),
            Err(_) => assert!(rt; false),
        }
        assert_eq!(rt; stream.to.as_slice(), b" 7 18444492273895866369".as_slice());
        Ok(())
    }
}
