// Which command a line is: a name and then decimals, each after a single space, and nothing else. A meter has commands of its
// own, which are no commands where there is none.
#![tactic(auto)]

ghost use Rattle.std.specs.Prelude.{true, ◌≡◌, ◌≤◌, length};
ghost use Rattle.ground.specs.Rows.{at, every};
ghost use Rattle.lines.specs.Commands.{command_of};
ghost use Rattle.lines.specs.Following.{TellsOf, either_of, chosen, meter_chosen, others_chosen};
ghost use Rattle.lines.specs.Words.{word_end, is_digit, is_decimal, value_of};

// The most digits of a decimal, and the most decimals of a command.
const DIGITS: usize = 9;

const ARGUMENTS: usize = 4;

#[derive(Clone, Copy)]
pub enum Command {
    Units(u32),
    Up(u32, u32, u32, u32),
    Cost(u32, u32, u32),
    Down(u32, u32),
    Deliver(u32, u32),
    Show,
    Enter(u32, u32, u32),
    Move(u32, u32),
    Drop(u32),
    Page,
    // Any other line: it is answered too, by a line that says so.
    Bad,
}

// The decimals that follow a word: how many they are, and their numbers.
#[derive(Clone, Copy)]
struct Found {
    count: usize,
    list: [u32; ARGUMENTS],
}

// Where the first word of a line ends: at a space, or with the line.
fn word_end(line: &[u8]) -> usize
    ensures end { result ≡ word_end line.now }
    ensures inside { result ≤ length line.now }
{
    line.iter()
        .position(|byte| *byte == b' ')
        .unwrap_or(line.len())
}

// Whether a word is of digits only.
fn are_digits(word: &[u8]) -> bool
    ensures { result ≡ every (length word.now) (λ i. is_digit (at word.now i)) }
{
    word.iter().all(|byte| byte.is_ascii_digit())
}

// Whether a word is a decimal of at most DIGITS digits without leading zeros.
fn is_decimal(word: &[u8]) -> bool
    ensures { result ≡ is_decimal word.now }
{
    if word.len() < 1 {
        return false;
    }
    if DIGITS < word.len() {
        return false;
    }
    if word.len() != 1 {
        if word[0] == b'0' {
            return false;
        }
    }
    are_digits(word)
}

// The number that a decimal is.
fn value(word: &[u8]) -> u32
    requires { is_decimal word.now ≡ true }
    ensures { result ≡ value_of word.now }
{
    let mut number: u32 = 0;
    for &byte in word {
        number = number * 10 + (byte - b'0') as u32;
    }
    number
}

// The decimals that follow a word, each after a space, if nothing else does and no command has fewer. What follows a word begins
// with a space.
fn arguments(rest: &[u8]) -> Option<Found>
    ensures { TellsOf rest.now result }
{
    let mut list = [0u32; ARGUMENTS];
    let mut count = 0;
    let mut used = 0;
    // Each turn takes a space and a word, so the place moves on by the word's length.
    while used < rest.len() {
        if count == ARGUMENTS {
            return None;
        }
        let more = &rest[used + 1..];
        let end = word_end(more);
        let word = &more[..end];
        if !is_decimal(word) {
            return None;
        }
        let number = value(word);
        list[count] = number;
        count += 1;
        used += 1 + end;
    }
    Some(Found { count, list })
}

// The first command, where the word is its name and as many decimals follow as it has, and otherwise the second.
fn either(
    word: &[u8],
    count: usize,
    name: &[u8],
    k: usize,
    first: Command,
    second: Command,
) -> Command
    ensures { result ≡ either_of word.now count name.now k first second }
{
    if word == name && count == k {
        return first;
    }
    second
}

// The command of a meter that a name and the decimals that follow it are. The names are tried from the last to the first.
fn choose_meter(word: &[u8], count: usize, a: u32, b: u32, c: u32) -> Command
    ensures { result ≡ meter_chosen word.now count a b c }
{
    let command = either(word, count, b"page", 0, Command::Page, Command::Bad);
    let command = either(word, count, b"drop", 1, Command::Drop(a), command);
    let command = either(word, count, b"move", 2, Command::Move(a, b), command);
    either(word, count, b"enter", 3, Command::Enter(a, b, c), command)
}

// The same where there is a meter; where there is none, no command.
fn others(word: &[u8], count: usize, a: u32, b: u32, c: u32, metered: bool) -> Command
    ensures { result ≡ others_chosen word.now count a b c metered }
{
    if metered {
        return choose_meter(word, count, a, b, c);
    }
    Command::Bad
}

// The command of a name and the decimals that follow it, `other` where it is none of those that every script has. The names are
// tried from the last to the first.
fn choose(word: &[u8], count: usize, a: u32, b: u32, c: u32, d: u32, other: Command) -> Command
    ensures { result ≡ chosen word.now count a b c d other }
{
    let command = either(word, count, b"show", 0, Command::Show, other);
    let command = either(word, count, b"deliver", 2, Command::Deliver(a, b), command);
    let command = either(word, count, b"down", 2, Command::Down(a, b), command);
    let command = either(word, count, b"cost", 3, Command::Cost(a, b, c), command);
    let command = either(word, count, b"up", 4, Command::Up(a, b, c, d), command);
    either(word, count, b"units", 1, Command::Units(a), command)
}

// The command that a line is, with a meter or without.
pub fn parse(line: &[u8], metered: bool) -> Command
    ensures { result ≡ command_of metered line.now }
{
    let end = word_end(line);
    let Some(found) = arguments(&line[end..]) else {
        return Command::Bad;
    };
    let list = found.list;
    let word = &line[..end];
    let other = others(word, found.count, list[0], list[1], list[2], metered);
    choose(word, found.count, list[0], list[1], list[2], list[3], other)
}
