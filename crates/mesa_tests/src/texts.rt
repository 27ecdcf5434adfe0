// Long scripts and long texts, by templates.
use std::alloc::Global;
use std::process::Abort;

/// A part of a long text.
pub enum Part {
    /// As it is spelled.
    Spelled(&'static str),
    /// So many times as it is spelled.
    Times(u32, &'static str),
    /// A template for each number from the first one up to the second. Its `{0}`, `{1}` and `{2}` are the number,
    /// so many times and with so much more as these say.
    Lines(u32, u32, &'static str, [(u32, u32); 3]),
}

// Adds the number that a template names.
fn push_number(rt: &impl Abort, text: &mut String, name: &str, numbers: &[u32]) {
    let place = name.parse::<usize>().expect(rt, "a place");
    let number = numbers.get(place).expect(rt, "a number");
    write!(text, "{number}").expect(rt, "memory");
}

/// Adds a template, in place of whose `{0}`, `{1}`, .. these numbers stand.
pub fn push_filled(rt: &impl Abort, text: &mut String, template: &str, numbers: &[u32]) {
    let mut is_name = false;
    for piece in template.split(['{', '}']) {
        if is_name {
            push_number(rt, text, piece, numbers);
        } else {
            text.push_str(piece).expect(rt, "memory");
        }
        is_name = !is_name;
    }
}

// A number so many times, and so much more.
fn scaled(number: u32, (times, more): (u32, u32)) -> u32 {
    number.wrapping_mul(times).wrapping_add(more)
}

fn push_lines(
    rt: &impl Abort,
    text: &mut String,
    from: u32,
    to: u32,
    line: &str,
    places: &[(u32, u32); 3],
) {
    for number in from..to {
        let numbers = [
            scaled(number, places[0]),
            scaled(number, places[1]),
            scaled(number, places[2]),
        ];
        push_filled(rt, text, line, &numbers);
    }
}

// Adds some words so many times.
fn push_times(rt: &impl Abort, text: &mut String, count: u32, words: &str) {
    for _time in 0..count {
        text.push_str(words).expect(rt, "memory");
    }
}

fn push_part(rt: &impl Abort, text: &mut String, part: &Part) {
    match part {
        Part::Spelled(words) => push_times(rt, text, 1, words),
        Part::Times(count, words) => push_times(rt, text, *count, words),
        Part::Lines(from, to, line, places) => push_lines(rt, text, *from, *to, line, places),
    }
}

/// The text of some parts.
pub fn whole(rt: &impl Abort, alloc: Global, parts: &[Part]) -> String {
    let mut text = String::new(alloc);
    for part in parts {
        push_part(rt, &mut text, part);
    }
    text
}
