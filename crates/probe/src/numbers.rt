// The numbers of an answer, put into eight lent words: 0 and the answer's in order, or the refusal's number; and zeros. Each answer
// writes its own: words handed back by value would be gathered in registers before it is known which they are.
ghost use Rattle.std.specs.Prelude.{◌≡◌, List, [], ◌∷◌, ℤ, pos};
ghost use Rattle.refusals.specs.Refusals.{number};
ghost use Rattle.probe.specs.Probed.{padded};
ghost use Rattle.probe.specs.Answers.{Fits, answered, version_numbers, slot_numbers, row_numbers, sums_numbers, header_numbers, no_numbers, Always, IsSlot};

use reader::{Header, Refusal, Row, Sums};

// The mark of a row.
const ROW: i64 = 1;

// What a call answers where nothing refuses it, as numbers.
pub trait Numbers {
    ghost numbers: { Self → List ℤ };

    // What it has to be for its numbers to be words.
    ghost fits: { Self → Type 0 };

    fn put(self, out: &mut [i64; 8])
        requires { fits self }
        ensures { out.new ≡ padded (pos 0 ∷ numbers self) };
}

// An answer, or the refusal's number and zeros.
pub fn put_answer<A: Numbers>(out: &mut [i64; 8], answer: Result<A, Refusal>)
    requires { Fits A.fits answer }
    ensures { out.new ≡ padded (answered A.numbers answer) }
{
    match answer {
        Ok(x) => x.put(out),
        Err(refusal) => {
            *out = [refusal.number() as i64, 0, 0, 0, 0, 0, 0, 0];
        }
    }
}

// The number of a version.
impl Numbers for i64 {
    ghost numbers = { version_numbers };

    ghost fits = { Always };

    fn put(self, out: &mut [i64; 8]) {
        *out = [0, self, 0, 0, 0, 0, 0, 0];
    }
}

// The number of a slot.
impl Numbers for usize {
    ghost numbers = { slot_numbers };

    ghost fits = { IsSlot };

    fn put(self, out: &mut [i64; 8]) {
        *out = [0, self as i64, 0, 0, 0, 0, 0, 0];
    }
}

// A row under its mark, or zeros.
impl Numbers for Option<Row> {
    ghost numbers = { row_numbers };

    ghost fits = { Always };

    fn put(self, out: &mut [i64; 8]) {
        match self {
            Some(row) => {
                *out = [0, ROW, row.key1, row.key2, row.total1, row.total2, 0, 0];
            }
            None => {
                *out = [0; 8];
            }
        }
    }
}

impl Numbers for Sums {
    ghost numbers = { sums_numbers };

    ghost fits = { Always };

    fn put(self, out: &mut [i64; 8]) {
        *out = [
            0,
            self.rows as i64,
            self.reported1 as i64,
            self.reported2 as i64,
            self.sum1,
            self.sum2,
            0,
            0,
        ];
    }
}

impl Numbers for Header {
    ghost numbers = { header_numbers };

    ghost fits = { Always };

    fn put(self, out: &mut [i64; 8]) {
        *out = [0, self.slots as i64, self.current, self.oldest, 0, 0, 0, 0];
    }
}

// A save, or a load of a block: nothing more.
impl Numbers for () {
    ghost numbers = { no_numbers };

    ghost fits = { Always };

    fn put(self, out: &mut [i64; 8]) {
        *out = [0; 8];
    }
}
