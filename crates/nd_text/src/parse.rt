//! The groups of an address read from text (RFC 4291, section 2.2).

ghost use Rattle.std.specs.Prelude.{◌≡◌, ◌+◌, ◌-◌, ◌++◌, ◌≤◌, ℕ, length, replicate, Some, None, List, MatchOption, IfSome, take};
ghost use Rattle.nd_text.specs.Parsing.{word_of, behind_of, group_of, groups_within, some_groups, all_eight, around_gap, gap_at, address_groups};
ghost use Rattle.nd_text.specs.Spelling.{SpellsAddress};

/// Returns the first word of a text, and what follows its colon.
fn split_word(text: &[u8]) -> (&[u8], Option<&[u8]>)
    ensures word { result.0.now ≡ word_of text.now }
    ensures behind { MatchOption result.1 (behind_of text.now ≡ None) (λ rest. behind_of text.now ≡ Some rest.now) }
{
    for (i, byte) in text.iter().enumerate() {
        if *byte == b':' {
            return (&text[..i], Some(&text[i + 1..]));
        }
    }
    (text, None)
}

/// Returns the value of a word of one to four hexadecimal digits.
fn read_group(word: &[u8]) -> Option<u16>
    ensures { result ≡ group_of word.now }
{
    if word.is_empty() || word.len() > 4 {
        return None;
    }
    let mut value: u16 = 0;
    let mut rest = word;
    while let [byte, after @ ..] = rest {
        let digit = char::from(*byte).to_digit(16)?;
        value = value * 16 + digit as u16;
        rest = after;
    }
    Some(value)
}

/// Some groups of an address, none to eight.
#[derive(Clone, Copy)]
struct Groups {
    groups: [u16; 8],
    count: usize,
}

/// Returns the groups that a text spells, separated by colons, if there are eight at most.
fn read_groups(text: &[u8]) -> Option<Groups>
    ensures groups { MatchOption result (groups_within 8 text.now ≡ None) (λ g. groups_within 8 text.now ≡ Some (take g.count g.groups)) }
    ensures few { IfSome result (λ g. g.count ≤ 8) }
{
    let mut groups = [0; 8];
    let mut rest = text;
    for count in 0..8usize {
        let (word, behind) = split_word(rest);
        groups[count] = read_group(word)?;
        match behind {
            Some(after) => rest = after,
            None => {
                let count = count + 1;
                return Some(Groups { groups, count });
            }
        }
    }
    None
}

/// Returns the place of the first two colons.
fn find_gap(text: &[u8]) -> Option<usize>
    ensures place { result ≡ gap_at text.now }
    ensures within { IfSome result (λ at. at + 2 ≤ length text.now) }
{
    for i in 1..text.len() {
        if text[i - 1] == b':' && text[i] == b':' {
            return Some(i - 1);
        }
    }
    None
}

/// Returns the groups that a text spells, which may be none.
fn read_some(text: &[u8]) -> Option<Groups>
    ensures groups { MatchOption result (some_groups text.now ≡ None) (λ g. some_groups text.now ≡ Some (take g.count g.groups)) }
    ensures few { IfSome result (λ g. g.count ≤ 8) }
{
    if text.is_empty() {
        return Some(Groups {
            groups: [0; 8],
            count: 0,
        });
    }
    read_groups(text)
}

/// Returns the eight groups that a text without two colons spells.
fn read_whole(text: &[u8]) -> Option<[u16; 8]>
    ensures { result ≡ all_eight (groups_within 8 text.now) }
{
    let all = read_groups(text)?;
    (all.count == 8).then_some(all.groups)
}

/// Returns eight groups with some at the beginning, some at the end, and zeros between them.
fn with_zeros_between(before: &[u16], after: &[u16]) -> [u16; 8]
    requires { length before.now + length after.now ≤ 8 }
    ensures { result ≡ before.now ++ replicate (8 - (length before.now + length after.now)) 0 ++ after.now }
{
    let mut groups = [0; 8];
    let (front, behind) = groups.split_at_mut(before.len());
    front.copy_from_slice(before);
    let zeros = behind.len() - after.len();
    let (_, end) = behind.split_at_mut(zeros);
    end.copy_from_slice(after);
    groups
}

/// Returns the eight groups of which some are before two colons and some after them.
fn read_shortened(front: &[u8], behind: &[u8]) -> Option<[u16; 8]>
    ensures { result ≡ around_gap (some_groups front.now) (some_groups behind.now) }
{
    let before = read_some(front)?;
    let after = read_some(behind)?;
    if before.count + after.count > 7 {
        return None;
    }
    Some(with_zeros_between(&before.groups[..before.count], &after.groups[..after.count]))
}

/// Returns the eight groups of the address that a text spells.
fn read_address(text: &[u8]) -> Option<[u16; 8]>
    ensures { result ≡ address_groups text.now }
{
    match find_gap(text) {
        None => read_whole(text),
        Some(at) => read_shortened(&text[..at], &text[at + 2..]),
    }
}

/// Returns the eight groups of the address that a text spells: eight groups of one to four hexadecimal digits in either case, separated by colons,
/// or fewer with one `::` for at least one group of zero (RFC 4291, section 2.2). No other text spells any.
pub fn parse_groups(text: &[u8]) -> Option<[u16; 8]>
    ensures found { IfSome result (λ groups. SpellsAddress text.now groups) }
    ensures only { (groups : List ℕ) → SpellsAddress text.now groups → result ≡ Some groups }
{
    read_address(text)
}
