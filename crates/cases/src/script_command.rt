// The commands of the script.
use arrayvec::ArrayVec;

// The most numbers of a command, beside those of its list, and the most of a list: sixteen pairs.
const NUMBERS: usize = 8;

const LIST: usize = 32;

#[derive(Clone, Copy)]
pub enum Word {
    Comment,
    // rounding and charts
    Again,
    Edition,
    Near,
    Unsigned,
    Unstarted,
    Reset,
    Stop,
    Series,
    More,
    Chart,
    Fill,
    Sound,
    // calibration
    Standard,
    Value,
    Conditions,
    Pairs,
    Pair,
    Fit,
    Lent,
    Annual,
    // records
    Case,
    Try,
    New,
    Record,
    Byte,
    Apply,
    Keep,
    Back,
    Expect,
    Open,
    Show,
    Charts,
    Report,
    End,
    // blocks
    Check,
    List,
    Clear,
    Form,
    Make,
    Take,
    Poke,
    Seal,
    Bytes,
}

// Each word, with what it takes behind it, and how many numbers it has at least. A t is the rest of the line as it is, a w a
// name, which stands first. Else a letter is the kind of a number: the bytes of an unsigned one, or i for one of 32 bits, n for
// one that is not below 0, l for any, and d for one of up to fifteen digits, which may be wider than what it is taken for. I and
// D, which stand last, are a list of any number of i and d.
static WORDS: [(&str, &str, usize, Word); 44] = [
    ("#", "t", 0, Word::Comment),
    ("again", "1", 1, Word::Again),
    ("edition", "1", 1, Word::Edition),
    ("near", "ll", 2, Word::Near),
    ("unsigned", "nn", 2, Word::Unsigned),
    ("unstarted", "", 0, Word::Unstarted),
    ("reset", "", 0, Word::Reset),
    ("stop", "", 0, Word::Stop),
    ("series", "w2I", 1, Word::Series),
    ("more", "w2I", 1, Word::More),
    ("chart", "w2", 1, Word::Chart),
    ("fill", "42I", 2, Word::Fill),
    ("sound", "w4il4", 4, Word::Sound),
    ("standard", "iiiiii", 6, Word::Standard),
    ("value", "iiliiiii", 8, Word::Value),
    ("conditions", "iiiiiiii", 8, Word::Conditions),
    ("pairs", "I", 0, Word::Pairs),
    ("pair", "nii", 3, Word::Pair),
    ("fit", "wniiii", 5, Word::Fit),
    ("lent", "wniiii", 5, Word::Lent),
    ("annual", "winiiil", 6, Word::Annual),
    ("case", "t", 0, Word::Case),
    ("try", "t", 0, Word::Try),
    ("new", "4", 1, Word::New),
    ("record", "dddD", 3, Word::Record),
    ("byte", "n1", 2, Word::Byte),
    ("apply", "dd", 0, Word::Apply),
    ("keep", "", 0, Word::Keep),
    ("back", "", 0, Word::Back),
    ("expect", "4", 1, Word::Expect),
    ("open", "1", 1, Word::Open),
    ("show", "", 0, Word::Show),
    ("charts", "", 0, Word::Charts),
    ("report", "", 0, Word::Report),
    ("end", "", 0, Word::End),
    ("check", "t", 0, Word::Check),
    ("list", "", 0, Word::List),
    ("clear", "", 0, Word::Clear),
    ("form", "dd", 1, Word::Form),
    ("make", "14ddd", 4, Word::Make),
    ("take", "d", 1, Word::Take),
    ("poke", "dd", 2, Word::Poke),
    ("seal", "d", 1, Word::Seal),
    ("bytes", "dd", 2, Word::Bytes),
];

// A number in the types that it may be wanted in: its lowest bytes, which are all of a number that fits.
#[derive(Clone, Copy)]
pub struct Number {
    pub long: i64,
    pub small: i32,
    pub unsigned: u32,
    pub short: u16,
    pub byte: u8,
    pub size: usize,
}

fn number_of(n: i128) -> Number {
    let [a, b, c, d, e, f, g, h, ..] = n.to_le_bytes();
    Number {
        long: i64::from_le_bytes([a, b, c, d, e, f, g, h]),
        small: i32::from_le_bytes([a, b, c, d]),
        unsigned: u32::from_le_bytes([a, b, c, d]),
        short: u16::from_le_bytes([a, b]),
        byte: a,
        size: usize::from_le_bytes([a, b, c, d, e, f, g, h]),
    }
}

// Whether a number is of its kind.
fn fits(kind: u8, n: i128) -> bool {
    let (least, most) = match kind {
        b'1' => (0, 0xff),
        b'2' => (0, 0xffff),
        b'4' => (0, 0xffffffff),
        b'i' | b'I' => (-0x80000000, 0x7fffffff),
        b'n' => (0, 0xffffffffffffffff),
        b'd' | b'D' => (-999999999999999, 999999999999999),
        _ => (-0x8000000000000000, 0x7fffffffffffffff),
    };
    least <= n && n <= most
}

// A command, with its name or its text, its list, and its other numbers: how many, as they are written, and each by itself in
// other types, a the first. They are 0 where there is none.
#[derive(Drop)]
pub struct Command<'a> {
    pub word: Word,
    pub text: &'a [u8],
    pub count: usize,
    pub written: [i128; NUMBERS],
    pub a: Number,
    pub b: Number,
    pub c: Number,
    pub d: Number,
    pub e: Number,
    pub f: Number,
    pub g: Number,
    pub h: Number,
    pub list: ArrayVec<i64, LIST>,
}

impl<'a> Command<'a> {
    // Takes a number of a kind. Whether it is one, and there is room.
    fn take(&mut self, kind: u8, word: &str) -> bool {
        let Ok(n) = word.parse::<i128>() else {
            return false;
        };
        if !fits(kind, n) {
            return false;
        }
        let number = number_of(n);
        if kind == b'I' || kind == b'D' {
            return self.list.try_push(number.long).is_ok();
        }
        let at = self.count;
        if NUMBERS <= at {
            return false;
        }
        self.count = at + 1;
        self.written[at] = n;
        match at {
            0 => self.a = number,
            1 => self.b = number,
            2 => self.c = number,
            3 => self.d = number,
            4 => self.e = number,
            5 => self.f = number,
            6 => self.g = number,
            _ => self.h = number,
        }
        true
    }

    // Takes the rest of a line by the kinds of what it has. Whether that is so.
    fn take_all(&mut self, kinds: &str, rest: &'a [u8]) -> bool {
        if kinds == "t" {
            self.text = rest;
            return true;
        }
        // Only a name may have other characters.
        if !kinds.starts_with('w') && !has_numbers_alone(rest) {
            return false;
        }
        let Ok(rest) = str::from_utf8(rest) else {
            return false;
        };
        let mut kinds = kinds.as_bytes().iter();
        let mut kind = b' ';
        for word in rest.split_whitespace() {
            if kind != b'I' && kind != b'D' {
                let Some(next) = kinds.next() else {
                    return false;
                };
                kind = *next;
            }
            if kind == b'w' {
                self.text = word.as_bytes();
            } else if !self.take(kind, word) {
                return false;
            }
        }
        true
    }
}

// Whether nothing stands in the rest of a line but numbers, with spaces between them.
fn has_numbers_alone(rest: &[u8]) -> bool {
    rest.iter().all(|b| matches!(*b, b' ' | b'-' | b'0'..=b'9'))
}

// The first word of a line, and what follows the space behind it.
fn first_word(line: &[u8]) -> (&[u8], &[u8]) {
    match line.iter().position(|b| *b == b' ') {
        Some(at) => (&line[..at], &line[at + 1..]),
        None => (line, &[]),
    }
}

// The row of a word: what it takes, how many numbers at least, and the word. None, and any that begins with #, are a comment's.
fn row_of(text: &[u8]) -> Option<(&'static str, usize, Word)> {
    let text = match text {
        [] | [b'#', ..] => b"#".as_slice(),
        _ => text,
    };
    for (name, kinds, least, word) in &WORDS {
        if name.as_bytes() == text {
            return Some((*kinds, *least, *word));
        }
    }
    None
}

// The command of a line. None where it is none, or has other numbers than its command takes.
pub fn command_of(line: &[u8]) -> Option<Command<'_>> {
    let (name, rest) = first_word(line);
    let Some((kinds, least, word)) = row_of(name) else {
        return None;
    };
    let none = number_of(0);
    let mut command = Command {
        word,
        text: b"",
        count: 0,
        written: [0; NUMBERS],
        a: none,
        b: none,
        c: none,
        d: none,
        e: none,
        f: none,
        g: none,
        h: none,
        list: ArrayVec::new(),
    };
    if !command.take_all(kinds, rest) || command.count < least {
        return None;
    }
    Some(command)
}
