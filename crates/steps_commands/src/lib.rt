// What a line of the program `steps` asks: its letter, and its numbers. A field is a part of the line, lent; nothing is copied.
// All here are leaves for our other crates.
#![tactic(auto)]

ghost use Rattle.std.specs.Prelude.{◌≡◌, length, option_map};
ghost use Rattle.steps_commands.specs.Numerals.{digits_of, number_of};
ghost use Rattle.steps_commands.specs.Commands.{fields, numbers_of, asked};

// The longest line that asks anything: a letter, and four numbers of 20 bytes with a space before each.
pub const LONGEST_COMMAND: usize = 85;

const SPACE: u8 = b' ';

const MINUS: u8 = b'-';

const MOST_DIGITS: usize = 19;

// What a line asks.
#[derive(Clone, Copy)]
pub enum Command {
    Begin,
    Commit,
    Put {
        key1: i64,
        key2: i64,
        total1: i64,
        total2: i64,
    },
    Delete {
        key1: i64,
        key2: i64,
    },
    Read {
        session: i64,
        key1: i64,
        key2: i64,
    },
}

// What 1 to 19 digits make, which is below 10^19 and so below 2^64.
#[tactic(auto, unfolding(crate::specs::Numerals::digits_of))]
fn read_digits(field: &[u8]) -> Option<u64>
    ensures { result ≡ digits_of field.now }
{
    if field.is_empty() || field.len() > MOST_DIGITS {
        return None;
    }
    let mut number = 0;
    for byte in field {
        if !byte.is_ascii_digit() {
            return None;
        }
        number = number * 10 + u64::from(byte - b'0');
    }
    Some(number)
}

// A number within 64 bits: an optional minus, and digits.
#[tactic(auto, using(std::proofs::lemmas::Grind::common_steps, crate::specs::NumeralLaws::read_by))]
fn read_number(field: &[u8]) -> Option<i64>
    ensures { result ≡ number_of field.now }
{
    match field {
        [MINUS, digits @ ..] => 0i64.checked_sub_unsigned(read_digits(digits)?),
        _ => i64::try_from(read_digits(field)?).ok(),
    }
}

// As many numbers as there is room for and no more, a space between each two.
fn fill_numbers(numbers: &mut [i64], line: &[u8]) -> Option<()>
    ensures { option_map (λ _. numbers.new) result ≡ numbers_of (length numbers.old) (fields line.now) }
{
    let mut fields = line.split(|byte| *byte == SPACE);
    for number in numbers.iter_mut() {
        *number = read_number(fields.next()?)?;
    }
    match fields.next() {
        Some(_) => None,
        None => Some(()),
    }
}

fn read_numbers<const N: usize>(line: &[u8]) -> Option<[i64; N]>
    ensures { result ≡ numbers_of N (fields line.now) }
{
    let mut numbers = [0; N];
    fill_numbers(&mut numbers, line)?;
    Some(numbers)
}

// What a line asks, or nothing. A line past the longest command is not looked at.
#[tactic(auto, using(std::proofs::lemmas::Grind::common_steps, crate::specs::LongLineLaws::told_by))]
pub fn read_command(line: &[u8]) -> Option<Command>
    ensures { result ≡ asked line.now }
{
    if line.len() > LONGEST_COMMAND {
        return None;
    }
    match line {
        b"B" => Some(Command::Begin),
        b"C" => Some(Command::Commit),
        [b'P', SPACE, numbers @ ..] => {
            let [key1, key2, total1, total2] = read_numbers::<4>(numbers)?;
            Some(Command::Put {
                key1,
                key2,
                total1,
                total2,
            })
        }
        [b'D', SPACE, numbers @ ..] => {
            let [key1, key2] = read_numbers::<2>(numbers)?;
            Some(Command::Delete { key1, key2 })
        }
        [b'R', SPACE, numbers @ ..] => {
            let [session, key1, key2] = read_numbers::<3>(numbers)?;
            Some(Command::Read {
                session,
                key1,
                key2,
            })
        }
        _ => None,
    }
}
