// Which line is which command.
ghost use Rattle.commands.specs.Lines.{check_typed, comment, line_of, observation_of, place, place_of, role, signal_typed, typed};
ghost use Rattle.commands.specs.declared.verb.Verb.TheVariants as verb;
ghost use Rattle.console.specs.Grammar.{alone, takes};
ghost use Rattle.console.specs.Numbers.{numeral};
ghost use Rattle.console.specs.Words.{blank, left, words_by};
ghost use Rattle.std.specs.Prelude.{◌≡◌};

use crate::command::{Command, Role};
use crate::line::Line;
use crate::verb::{Verb, name_verb};
use console::{Words, next_number};
use journal::Signal;
use runs::Call;
use verification::Check;

// A place below 0 fits no buffer, as one past every buffer's end.
fn as_place(number: i32) -> usize
    ensures { result ≡ place_of number }
{
    usize::try_from(number).unwrap_or(usize::MAX)
}

// An observation number below 0 is outside 1 to the cut, as 0 is.
fn as_observation(number: i32) -> u32
    ensures { result ≡ observation_of number }
{
    u32::try_from(number).unwrap_or(0)
}

// What differs from name to name, here and below, is the table of its words.
fn name_role(word: &[u8]) -> Option<Role>
    ensures { result ≡ role word.now }
{
    match word {
        b"main" => Some(Role::Main),
        b"short" => Some(Role::Short),
        _ => None,
    }
}

fn name_signal(word: &[u8]) -> Option<Signal>
    ensures { result ≡ signal_typed word.now }
{
    match word {
        b"inspection" => Some(Signal::Inspection),
        b"trial" => Some(Signal::Trial),
        b"insulation" => Some(Signal::Insulation),
        _ => None,
    }
}

fn name_check(word: &[u8]) -> Option<Check>
    ensures { result ≡ check_typed word.now }
{
    match word {
        b"pass" => Some(Check::Passed),
        b"fail" => Some(Check::Failed),
        _ => None,
    }
}

fn is_comment(word: &[u8]) -> bool
    ensures { result ≡ comment word.now }
{
    matches!(word, [b'#', ..])
}

// The value, where no word follows it.
fn finish<T: Drop>(words: &mut Words, value: T) -> Option<T>
    ensures { result ≡ alone value (left words.old) }
{
    words.is_empty().then_some(value)
}

// The number that the last word writes.
fn last_number(words: &mut Words) -> Option<i32>
    ensures { result ≡ takes numeral alone (left words.old) }
{
    let number = next_number(words)?;
    finish(words, number)
}

// The place that the last word names.
fn last_place(words: &mut Words) -> Option<usize>
    ensures { result ≡ takes place alone (left words.old) }
{
    last_number(words).map(as_place)
}

fn parse_open(words: &mut Words) -> Option<Command>
    ensures { result ≡ typed verb.Open (left words.old) }
{
    let call = Call::Open {
        signal: next_number(words)?,
        meter: next_number(words)?,
        reference: next_number(words)?,
        agreement: next_number(words)?,
    };
    finish(words, Command::Call(call))
}

fn parse_orders(words: &mut Words) -> Option<Command>
    ensures { result ≡ typed verb.Orders (left words.old) }
{
    let points = next_number(words)?;
    let kind = next_number(words)?;
    let rule = next_number(words)?;
    finish(words, Command::Orders(points, kind, rule))
}

fn parse_manual(words: &mut Words) -> Option<Command>
    ensures { result ≡ typed verb.Manual (left words.old) }
{
    let signal = words.next().and_then(name_signal)?;
    let check = words.next().and_then(name_check)?;
    finish(words, Command::Manual(signal, check))
}

fn parse_ask(words: &mut Words) -> Option<Command>
    ensures { result ≡ typed verb.Ask (left words.old) }
{
    let role = words.next().and_then(name_role)?;
    if words.is_empty() {
        return Some(Command::AskNumbers(role));
    }
    let number = next_number(words)?;
    finish(words, Command::AskNorms(role, as_observation(number)))
}

fn parse_read(words: &mut Words) -> Option<Command>
    ensures { result ≡ typed verb.Read (left words.old) }
{
    let place = next_number(words).map(as_place)?;
    if words.is_empty() {
        return Some(Command::Read(place, None));
    }
    let end = next_number(words).map(as_place)?;
    finish(words, Command::Read(place, Some(end)))
}

// The words of the record's fields follow.
fn parse_write(words: &mut Words) -> Option<Command>
    ensures { result ≡ typed verb.Write (left words.old) }
{
    let place = next_number(words).map(as_place)?;
    let kind = next_number(words)?;
    Some(Command::Write(place, kind))
}

// The words behind the one that begins a command. Those of a plan, of bytes and of a record's fields may follow.
fn parse_arguments(verb: Verb, words: &mut Words) -> Option<Command>
    ensures { result ≡ typed verb (left words.old) }
{
    match verb {
        Verb::Code => last_number(words).map(Call::Code).map(Command::Call),
        Verb::Level => finish(words, Command::Call(Call::Level)),
        Verb::Open => parse_open(words),
        Verb::Close => last_place(words).map(Call::Close).map(Command::Call),
        Verb::Late => finish(words, Command::Call(Call::Late)),
        Verb::New => finish(words, Command::New),
        Verb::Manual => parse_manual(words),
        Verb::Notice => last_place(words).map(Command::Notice),
        Verb::Plan => words.next().and_then(name_role).map(Command::Plan),
        Verb::Ask => parse_ask(words),
        Verb::Orders => parse_orders(words),
        Verb::Journal => last_number(words).map(Command::Journal),
        Verb::Certificate => last_place(words).map(Command::Certificate),
        Verb::Audit => finish(words, Command::Audit),
        Verb::Dump => finish(words, Command::Dump),
        Verb::Read => parse_read(words),
        Verb::Bytes => next_number(words).map(as_place).map(Command::Bytes),
        Verb::Write => parse_write(words),
    }
}

// What a line says. The words of a plan, of bytes and of a record's fields are for those who read them.
pub fn parse_line(line: &[u8]) -> Line
    ensures { result ≡ line_of (words_by blank line.now) }
{
    let mut words = Words::new(line);
    let Some(word) = words.next() else {
        return Line::Silent;
    };
    if is_comment(word) {
        return Line::Silent;
    }
    name_verb(word)
        .and_then(|verb| parse_arguments(verb, &mut words))
        .map_or(Line::Syntax, Line::Command)
}
