// The lines that the judge prints, as bytes, each made in a text.

#![tactic(auto)]

ghost use Rattle.std.specs.Prelude.{◌≡◌, ◌∷◌, ◌++◌, map, ◌+◌, ◌*◌, ◌≤◌, length};
ghost use Rattle.decimal.specs.Decimal.{decimal};
ghost use Rattle.lines.specs.Lines.{model_word, spaced, line_by, refusal_line};

use sequence::Sequence;

// The model that a line is of: IMM or x86-TSO on a source recording, ARMv8 on a chip recording.
#[derive(Clone, Copy, Debug, PartialEq, Eq, Hash)]
pub enum Model {
    Source,
    Chip,
    Tso,
}

// A line, of at most 320 bytes.
pub type Text = Sequence<u8, 320>;

// Adds the bytes of a word.
pub fn put_word(text: &mut Text, word: &[u8])
    requires { length text.old.items + length word.now ≤ 320 }
    ensures { text.new.items ≡ text.old.items ++ word.now }
{
    text.extend_from_slice(word);
}

// Adds n in decimal. Its tests have names, by which the goals are named.
fn put_decimal(text: &mut Text, n: u8)
    requires { length text.old.items + 3 ≤ 320 }
    ensures { text.new.items ≡ text.old.items ++ decimal n }
{
    let below_10 = n < 10;
    let below_100 = n < 100;
    if below_10 {
        put_word(text, &[b'0' + n]);
        return;
    }
    if below_100 {
        put_word(text, &[b'0' + n / 10, b'0' + n % 10]);
        return;
    }
    put_word(text, &[b'0' + n / 100, b'0' + n / 10 % 10, b'0' + n % 10]);
}

// Adds a space and n in decimal, at most four bytes.
pub fn put_number(text: &mut Text, n: u8)
    requires { length text.old.items + 4 ≤ 320 }
    ensures put { text.new.items ≡ text.old.items ++ 32 ∷ decimal n }
    ensures short { length text.new.items ≤ length text.old.items + 4 }
{
    text.push(b' ');
    put_decimal(text, n);
}

// Adds numbers in decimal, each with a space before it.
fn put_numbers(text: &mut Text, numbers: &[u8])
    requires { length text.old.items + 4 * length numbers.now ≤ 320 }
    ensures put { text.new.items ≡ text.old.items ++ spaced (map decimal numbers.now) }
    ensures short { length text.new.items ≤ length text.old.items + 4 * length numbers.now }
{
    for n in numbers {
        put_number(text, *n);
    }
}

// The model's word.
pub fn word(model: Model) -> &'static [u8]
    ensures { result.now ≡ model_word model }
{
    match model {
        Model::Source => b"source",
        Model::Chip => b"chip",
        Model::Tso => b"tso",
    }
}

// The line of a model's verdict, by the number of the broken rule, which may be any, where one is, and the events that are shown.
pub fn line(model: Model, broken: Option<u8>, events: &[u8]) -> Text
    requires { length events.now ≤ 64 }
    ensures line { result.items ≡ line_by (model_word model) broken events.now }
    ensures bounded { length result.items ≤ 320 }
{
    let mut text = Text::new();
    put_word(&mut text, word(model));
    if let Some(rule) = broken {
        put_word(&mut text, b" broken");
        put_number(&mut text, rule);
    } else {
        put_word(&mut text, b" allowed");
    }
    put_numbers(&mut text, events);
    text.push(b'\n');
    text
}

// The line of a refusal by its number.
pub fn refused(number: u8) -> Text
    ensures { result.items ≡ refusal_line number }
{
    let mut line = Text::new();
    put_word(&mut line, b"refused");
    put_number(&mut line, number);
    line.push(b'\n');
    line
}

// Adds a line to lines.
pub fn add<const N: usize>(lines: &mut Sequence<u8, N>, line: &Text)
    requires { length lines.old.items + 320 ≤ N }
    ensures added { lines.new.items ≡ lines.old.items ++ line.now.items }
    ensures short { length lines.new.items ≤ length lines.old.items + 320 }
{
    let n = lines.len();
    lines.put(n, line.as_slice(), n + line.len());
}
