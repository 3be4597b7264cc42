// Words and numbers of a line of text. One space parts two words.
ghost use Rattle.std.specs.Prelude.{◌≤◌, ◌<◌, length};

use crate::scan::find;

// Returns where word k starts, counted from 0; the line's length past the last word.
fn word_start(line: &[u8], k: usize) -> usize
    ensures { result ≤ length line.now }
{
    let mut left = k;
    for (at, letter) in line.iter().enumerate() {
        if left == 0 {
            return at;
        }
        if *letter == b' ' {
            left = left - 1;
        }
    }
    line.len()
}

// Returns word k, counted from 0; empty past the last.
pub fn word(line: &[u8], k: usize) -> &[u8] {
    let start = word_start(line, k);
    let end = find(line, start, line.len(), b' ');
    &line[start..end]
}

// Returns the line from word k on.
pub fn words_from(line: &[u8], k: usize) -> &[u8] {
    let start = word_start(line, k);
    &line[start..]
}

// Returns the first byte of a word, 0 where it is empty.
pub fn first(word: &[u8]) -> u8 {
    if word.len() == 0 {
        return 0;
    }
    word[0]
}

// Returns the value of a digit, 0 to 9 or a to f.
pub fn digit(letter: u8) -> u8 {
    if letter < b'a' {
        letter % 16
    } else {
        letter % 16 + 9
    }
}

// Returns the number with one more digit at its end.
fn with_digit(value: u16, letter: u8) -> u16
    requires { value < 6000 }
{
    10 * value + digit(letter) as u16
}

// Returns the number that a word spells in base ten, up to the digit that makes it 6,000 or more.
pub fn number(word: &[u8]) -> u16 {
    let mut value: u16 = 0;
    for letter in word {
        if 6000 <= value {
            return value;
        }
        value = with_digit(value, *letter);
    }
    value
}

// Returns the number that a word spells, with a minus sign or without.
pub fn signed(word: &[u8]) -> i32 {
    if word.len() > 0 {
        if word[0] == b'-' {
            return 0 - number(&word[1..]) as i32;
        }
    }
    number(word) as i32
}
