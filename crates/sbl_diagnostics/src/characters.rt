//! Characters at a terminal: which it obeys, how wide they are, and texts without those that it obeys.

use std::alloc::{AllocError, Global};

/// Characters that a terminal obeys, from the first to the last: control characters but the tab and the line feed, and marks that
/// turn the direction of writing or have no width.
const HIDDEN: [(char, char); 10] = [
    ('\0', '\x08'),
    ('\x0B', '\x1F'),
    ('\x7F', '\u{9F}'),
    ('\u{61C}', '\u{61C}'),
    ('\u{200B}', '\u{200B}'),
    ('\u{200E}', '\u{200F}'),
    ('\u{2028}', '\u{202E}'),
    ('\u{2060}', '\u{2060}'),
    ('\u{2066}', '\u{2069}'),
    ('\u{FEFF}', '\u{FEFF}'),
];

/// Marks that take no column of a terminal: the general categories Mn and Me of Unicode, below U+10000.
const COMBINING: [(char, char); 195] = [
    ('\u{300}', '\u{36F}'),
    ('\u{483}', '\u{489}'),
    ('\u{591}', '\u{5BD}'),
    ('\u{5BF}', '\u{5BF}'),
    ('\u{5C1}', '\u{5C2}'),
    ('\u{5C4}', '\u{5C5}'),
    ('\u{5C7}', '\u{5C7}'),
    ('\u{610}', '\u{61A}'),
    ('\u{64B}', '\u{65F}'),
    ('\u{670}', '\u{670}'),
    ('\u{6D6}', '\u{6DC}'),
    ('\u{6DF}', '\u{6E4}'),
    ('\u{6E7}', '\u{6E8}'),
    ('\u{6EA}', '\u{6ED}'),
    ('\u{711}', '\u{711}'),
    ('\u{730}', '\u{74A}'),
    ('\u{7A6}', '\u{7B0}'),
    ('\u{7EB}', '\u{7F3}'),
    ('\u{7FD}', '\u{7FD}'),
    ('\u{816}', '\u{819}'),
    ('\u{81B}', '\u{823}'),
    ('\u{825}', '\u{827}'),
    ('\u{829}', '\u{82D}'),
    ('\u{859}', '\u{85B}'),
    ('\u{898}', '\u{89F}'),
    ('\u{8CA}', '\u{8E1}'),
    ('\u{8E3}', '\u{902}'),
    ('\u{93A}', '\u{93A}'),
    ('\u{93C}', '\u{93C}'),
    ('\u{941}', '\u{948}'),
    ('\u{94D}', '\u{94D}'),
    ('\u{951}', '\u{957}'),
    ('\u{962}', '\u{963}'),
    ('\u{981}', '\u{981}'),
    ('\u{9BC}', '\u{9BC}'),
    ('\u{9C1}', '\u{9C4}'),
    ('\u{9CD}', '\u{9CD}'),
    ('\u{9E2}', '\u{9E3}'),
    ('\u{9FE}', '\u{A02}'),
    ('\u{A3C}', '\u{A3C}'),
    ('\u{A41}', '\u{A51}'),
    ('\u{A70}', '\u{A71}'),
    ('\u{A75}', '\u{A75}'),
    ('\u{A81}', '\u{A82}'),
    ('\u{ABC}', '\u{ABC}'),
    ('\u{AC1}', '\u{AC8}'),
    ('\u{ACD}', '\u{ACD}'),
    ('\u{AE2}', '\u{AE3}'),
    ('\u{AFA}', '\u{B01}'),
    ('\u{B3C}', '\u{B3C}'),
    ('\u{B3F}', '\u{B3F}'),
    ('\u{B41}', '\u{B44}'),
    ('\u{B4D}', '\u{B56}'),
    ('\u{B62}', '\u{B63}'),
    ('\u{B82}', '\u{B82}'),
    ('\u{BC0}', '\u{BC0}'),
    ('\u{BCD}', '\u{BCD}'),
    ('\u{C00}', '\u{C00}'),
    ('\u{C04}', '\u{C04}'),
    ('\u{C3C}', '\u{C3C}'),
    ('\u{C3E}', '\u{C40}'),
    ('\u{C46}', '\u{C56}'),
    ('\u{C62}', '\u{C63}'),
    ('\u{C81}', '\u{C81}'),
    ('\u{CBC}', '\u{CBC}'),
    ('\u{CBF}', '\u{CBF}'),
    ('\u{CC6}', '\u{CC6}'),
    ('\u{CCC}', '\u{CCD}'),
    ('\u{CE2}', '\u{CE3}'),
    ('\u{D00}', '\u{D01}'),
    ('\u{D3B}', '\u{D3C}'),
    ('\u{D41}', '\u{D44}'),
    ('\u{D4D}', '\u{D4D}'),
    ('\u{D62}', '\u{D63}'),
    ('\u{D81}', '\u{D81}'),
    ('\u{DCA}', '\u{DCA}'),
    ('\u{DD2}', '\u{DD6}'),
    ('\u{E31}', '\u{E31}'),
    ('\u{E34}', '\u{E3A}'),
    ('\u{E47}', '\u{E4E}'),
    ('\u{EB1}', '\u{EB1}'),
    ('\u{EB4}', '\u{EBC}'),
    ('\u{EC8}', '\u{ECD}'),
    ('\u{F18}', '\u{F19}'),
    ('\u{F35}', '\u{F35}'),
    ('\u{F37}', '\u{F37}'),
    ('\u{F39}', '\u{F39}'),
    ('\u{F71}', '\u{F7E}'),
    ('\u{F80}', '\u{F84}'),
    ('\u{F86}', '\u{F87}'),
    ('\u{F8D}', '\u{FBC}'),
    ('\u{FC6}', '\u{FC6}'),
    ('\u{102D}', '\u{1030}'),
    ('\u{1032}', '\u{1037}'),
    ('\u{1039}', '\u{103A}'),
    ('\u{103D}', '\u{103E}'),
    ('\u{1058}', '\u{1059}'),
    ('\u{105E}', '\u{1060}'),
    ('\u{1071}', '\u{1074}'),
    ('\u{1082}', '\u{1082}'),
    ('\u{1085}', '\u{1086}'),
    ('\u{108D}', '\u{108D}'),
    ('\u{109D}', '\u{109D}'),
    ('\u{135D}', '\u{135F}'),
    ('\u{1712}', '\u{1714}'),
    ('\u{1732}', '\u{1733}'),
    ('\u{1752}', '\u{1753}'),
    ('\u{1772}', '\u{1773}'),
    ('\u{17B4}', '\u{17B5}'),
    ('\u{17B7}', '\u{17BD}'),
    ('\u{17C6}', '\u{17C6}'),
    ('\u{17C9}', '\u{17D3}'),
    ('\u{17DD}', '\u{17DD}'),
    ('\u{180B}', '\u{180D}'),
    ('\u{180F}', '\u{180F}'),
    ('\u{1885}', '\u{1886}'),
    ('\u{18A9}', '\u{18A9}'),
    ('\u{1920}', '\u{1922}'),
    ('\u{1927}', '\u{1928}'),
    ('\u{1932}', '\u{1932}'),
    ('\u{1939}', '\u{193B}'),
    ('\u{1A17}', '\u{1A18}'),
    ('\u{1A1B}', '\u{1A1B}'),
    ('\u{1A56}', '\u{1A56}'),
    ('\u{1A58}', '\u{1A60}'),
    ('\u{1A62}', '\u{1A62}'),
    ('\u{1A65}', '\u{1A6C}'),
    ('\u{1A73}', '\u{1A7F}'),
    ('\u{1AB0}', '\u{1B03}'),
    ('\u{1B34}', '\u{1B34}'),
    ('\u{1B36}', '\u{1B3A}'),
    ('\u{1B3C}', '\u{1B3C}'),
    ('\u{1B42}', '\u{1B42}'),
    ('\u{1B6B}', '\u{1B73}'),
    ('\u{1B80}', '\u{1B81}'),
    ('\u{1BA2}', '\u{1BA5}'),
    ('\u{1BA8}', '\u{1BA9}'),
    ('\u{1BAB}', '\u{1BAD}'),
    ('\u{1BE6}', '\u{1BE6}'),
    ('\u{1BE8}', '\u{1BE9}'),
    ('\u{1BED}', '\u{1BED}'),
    ('\u{1BEF}', '\u{1BF1}'),
    ('\u{1C2C}', '\u{1C33}'),
    ('\u{1C36}', '\u{1C37}'),
    ('\u{1CD0}', '\u{1CD2}'),
    ('\u{1CD4}', '\u{1CE0}'),
    ('\u{1CE2}', '\u{1CE8}'),
    ('\u{1CED}', '\u{1CED}'),
    ('\u{1CF4}', '\u{1CF4}'),
    ('\u{1CF8}', '\u{1CF9}'),
    ('\u{1DC0}', '\u{1DFF}'),
    ('\u{20D0}', '\u{20F0}'),
    ('\u{2CEF}', '\u{2CF1}'),
    ('\u{2D7F}', '\u{2D7F}'),
    ('\u{2DE0}', '\u{2DFF}'),
    ('\u{302A}', '\u{302D}'),
    ('\u{3099}', '\u{309A}'),
    ('\u{A66F}', '\u{A672}'),
    ('\u{A674}', '\u{A67D}'),
    ('\u{A69E}', '\u{A69F}'),
    ('\u{A6F0}', '\u{A6F1}'),
    ('\u{A802}', '\u{A802}'),
    ('\u{A806}', '\u{A806}'),
    ('\u{A80B}', '\u{A80B}'),
    ('\u{A825}', '\u{A826}'),
    ('\u{A82C}', '\u{A82C}'),
    ('\u{A8C4}', '\u{A8C5}'),
    ('\u{A8E0}', '\u{A8F1}'),
    ('\u{A8FF}', '\u{A8FF}'),
    ('\u{A926}', '\u{A92D}'),
    ('\u{A947}', '\u{A951}'),
    ('\u{A980}', '\u{A982}'),
    ('\u{A9B3}', '\u{A9B3}'),
    ('\u{A9B6}', '\u{A9B9}'),
    ('\u{A9BC}', '\u{A9BD}'),
    ('\u{A9E5}', '\u{A9E5}'),
    ('\u{AA29}', '\u{AA2E}'),
    ('\u{AA31}', '\u{AA32}'),
    ('\u{AA35}', '\u{AA36}'),
    ('\u{AA43}', '\u{AA43}'),
    ('\u{AA4C}', '\u{AA4C}'),
    ('\u{AA7C}', '\u{AA7C}'),
    ('\u{AAB0}', '\u{AAB0}'),
    ('\u{AAB2}', '\u{AAB4}'),
    ('\u{AAB7}', '\u{AAB8}'),
    ('\u{AABE}', '\u{AABF}'),
    ('\u{AAC1}', '\u{AAC1}'),
    ('\u{AAEC}', '\u{AAED}'),
    ('\u{AAF6}', '\u{AAF6}'),
    ('\u{ABE5}', '\u{ABE5}'),
    ('\u{ABE8}', '\u{ABE8}'),
    ('\u{ABED}', '\u{ABED}'),
    ('\u{FB1E}', '\u{FB1E}'),
    ('\u{FE00}', '\u{FE0F}'),
    ('\u{FE20}', '\u{FE2F}'),
];

/// Wide characters, which take two columns of a terminal.
const WIDE: [(char, char); 11] = [
    ('\u{1100}', '\u{115F}'),
    ('\u{2E80}', '\u{303E}'),
    ('\u{3041}', '\u{A4CF}'),
    ('\u{AC00}', '\u{D7A3}'),
    ('\u{F900}', '\u{FAFF}'),
    ('\u{FE30}', '\u{FE6F}'),
    ('\u{FF00}', '\u{FF60}'),
    ('\u{FFE0}', '\u{FFE6}'),
    ('\u{1F300}', '\u{1F64F}'),
    ('\u{1F900}', '\u{1F9FF}'),
    ('\u{20000}', '\u{3FFFD}'),
];

/// Returns whether the character is in one of these ranges.
fn is_in(ranges: &[(char, char)], character: char) -> bool {
    for (first, last) in ranges {
        if *first <= character && character <= *last {
            return true;
        }
    }
    false
}

/// Returns the character, or `?` if a terminal obeys it.
pub(crate) fn plain(character: char) -> char {
    if is_in(&HIDDEN, character) {
        '?'
    } else {
        character
    }
}

/// Returns how many columns of a terminal a character takes.
pub(crate) fn width(character: char) -> usize {
    if is_in(&COMBINING, character) {
        0
    } else if is_in(&WIDE, character) {
        2
    } else {
        1
    }
}

/// The powers of 16 below 2 ^ 32.
const POWERS: [u32; 8] = [
    268_435_456,
    16_777_216,
    1_048_576,
    65_536,
    4_096,
    256,
    16,
    1,
];

/// Appends a number with hexadecimal digits. Zeros before it are written from the digit of the power `first` on.
pub(crate) fn push_hexadecimal(
    shown: &mut String,
    number: u32,
    first: u32,
) -> Result<(), AllocError> {
    let mut has_begun = false;
    for power in POWERS {
        let digit = number.checked_div(power).unwrap_or(0) % 16;
        has_begun = has_begun || digit > 0 || power <= first;
        if has_begun {
            shown.push(
                char::from_digit(digit, 16)
                    .unwrap_or('?')
                    .to_ascii_uppercase(),
            )?;
        }
    }
    Ok(())
}

/// Appends a text; for each character that a terminal obeys it has the number: `<U+202E>`. Returns `AllocError` if an allocation
/// fails.
pub fn push_named(shown: &mut String, text: &str) -> Result<(), AllocError> {
    for character in text.chars() {
        push_named_character(shown, character)?;
    }
    Ok(())
}

/// How many characters of a name or a literal are in a sentence (our own choice), and how many of them begin and end a longer one.
const LONGEST: usize = 60;

const KEPT: usize = 29;

/// Appends a name or a literal as `push_named` does; of a long one `..` stands for the middle.
pub(crate) fn push_cut(shown: &mut String, name: &str) -> Result<(), AllocError> {
    let count = name.chars().count();
    let mut before: usize = 0;
    for character in name.chars() {
        if count <= LONGEST || before < KEPT || before.saturating_add(KEPT) >= count {
            push_named_character(shown, character)?;
        } else if before == KEPT {
            shown.push_str("..")?;
        }
        before = before.saturating_add(1);
    }
    Ok(())
}

/// Returns what `push_cut` appends.
pub(crate) fn cut(alloc: Global, name: &str) -> Result<String, AllocError> {
    let mut shown = String::new(alloc);
    push_cut(&mut shown, name)?;
    Ok(shown)
}

/// Appends a character, or its number if a terminal obeys it.
pub(crate) fn push_named_character(shown: &mut String, character: char) -> Result<(), AllocError> {
    if !is_in(&HIDDEN, character) {
        return shown.push(character);
    }
    push_code(shown, character)
}

/// Appends the number of a character.
fn push_code(shown: &mut String, character: char) -> Result<(), AllocError> {
    shown.push_str("<U+")?;
    push_hexadecimal(shown, u32::from(character), 4_096)?;
    shown.push('>')
}

/// Appends a character that begins no token; if it is a joiner, which nobody sees, its number.
pub(crate) fn push_alone(shown: &mut String, character: char) -> Result<(), AllocError> {
    match character {
        '\u{200C}' | '\u{200D}' => push_code(shown, character),
        _ => push_named_character(shown, character),
    }
}

/// Returns the text with `?` for each character that a terminal obeys. Returns `AllocError` if an allocation fails.
pub fn plain_text(alloc: Global, text: &str) -> Result<String, AllocError> {
    let mut shown = String::new(alloc);
    for character in text.chars() {
        shown.push(plain(character))?;
    }
    Ok(shown)
}
