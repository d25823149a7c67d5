// The lines that are printed, and those that are told on standard error.
use comparison::compare::{Finding, Summary};
use console::streams::Console;
use segment::refusal::Refusal;
use text::part::first;
use text::put::Text;

// The longest line has two numbers of 20 digits.
pub(crate) const LONGEST_ENTRY: usize = 42;

// Room for what is told of a line: a file's name, a line of a script, and some words.
const TOLD: usize = 16384;

// Tells a name and what is wrong with it.
pub(crate) fn tell_of(streams: &mut Console, name: &[u8], what: &[u8]) {
    let mut told = [0u8; TOLD];
    let mut text = Text {
        out: &mut told,
        at: 0,
    };
    text.put(name);
    text.put(what);
    let n = text.at;
    streams.tell(first(&told, n));
}

// Tells which line of a file cannot be used, and why.
pub(crate) fn tell_line(streams: &mut Console, name: &[u8], place: u64, line: &[u8], why: &[u8]) {
    let mut told = [0u8; TOLD];
    let mut text = Text {
        out: &mut told,
        at: 0,
    };
    text.put(name);
    text.put(b": line ");
    text.put_number(place);
    text.put(b": ");
    text.put(line);
    text.put(why);
    let n = text.at;
    streams.tell(first(&told, n));
}

// Puts `K PLACE` of the entries from one on, up to another.
fn put_entries(text: &mut Text<'_>, list: &[u64], from: usize, to: usize) {
    for &[pair, place] in list.as_chunks::<2>().0.iter().take(to).skip(from) {
        text.put_number_field(pair);
        text.put_last_number(place);
    }
}

// Prints the entries that were listed since the last time; `lines` has room for all that may be.
pub(crate) fn print_entries(
    streams: &mut Console,
    lines: &mut [u8],
    list: &[u64],
    from: usize,
    to: usize,
) -> bool {
    let mut text = Text { out: lines, at: 0 };
    put_entries(&mut text, list, from, to);
    let n = text.at;
    streams.print(first(lines, n))
}

fn number_of(check: Result<(), Refusal>) -> u8 {
    check.err().map_or(0, u8::from)
}

// Prints the number of the set-up: of its refusal, or 0.
pub(crate) fn print_check(streams: &mut Console, check: Result<(), Refusal>) -> bool {
    let mut line = [0u8; 24];
    let mut text = Text {
        out: &mut line,
        at: 0,
    };
    text.put_last_number(number_of(check) as u64);
    let n = text.at;
    streams.print(first(&line, n))
}

// Puts FED END of a capture, behind a word for it.
fn put_summary(text: &mut Text<'_>, word: &[u8], s: Summary) {
    text.put_field(word);
    text.put_number_field(s.fed);
    text.put_last_number(number_of(s.end) as u64);
}

// Prints the last three lines.
pub(crate) fn print_finding(streams: &mut Console, f: Finding) -> bool {
    let mut lines = [0u8; 128];
    let mut text = Text {
        out: &mut lines,
        at: 0,
    };
    text.put_field(b"rest");
    text.put_last_number(f.remaining);
    put_summary(&mut text, b"first", f.first);
    put_summary(&mut text, b"second", f.second);
    let n = text.at;
    streams.print(first(&lines, n))
}
