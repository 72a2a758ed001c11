// The words of a text, one after the other: runs of bytes other than space, tab, line end and `#`, which begins a comment to its
// line's end.
#![tactic(auto)]

ghost use Rattle.std.specs.Prelude.{◌≡◌, false, ◌≤◌, ◌<◌, length, drop};
ghost use Rattle.text_words.specs.Words.{newline, newlines, ends_word, begins, comment_after, with_digit};
ghost use Rattle.text_words.specs.Words.{start_of, word_of, numeral_of, next_of, CursorWithin, capped};

// A place in the text, and its line, from 1.
#[derive(Clone, Copy)]
pub struct Cursor {
    pub at: usize,
    pub line: usize,
}

// What stands next.
#[derive(Clone, Copy)]
pub enum Word {
    // The number and the place after it.
    Number(u32, Cursor),
    // The text's end, and its line.
    End(usize),
}

// Why a word is no number.
#[derive(Clone, Copy)]
pub enum NumeralError {
    // Not digits alone.
    NotANumber,
    // Above 4,294,967,295.
    TooLarge,
}

// A word that is no number, and its line.
#[derive(Clone, Copy)]
pub struct WordError {
    pub line: usize,
    pub why: NumeralError,
}

// A number too large for 32 bits stays at this one while more digits come.
const TOO_LARGE: u64 = 4294967296;

// 1 for a byte that ends a line.
fn newline(b: u8) -> usize
    ensures { result ≡ newline b }
{
    usize::from(b == b'\n')
}

// How many lines of the text are whole.
pub fn whole_lines(text: &[u8]) -> usize
    ensures { result ≡ newlines text.now }
{
    text.iter().filter(|b| **b == b'\n').count()
}

// A byte that ends a word.
#[tactic(auto, unfolding(crate::specs::Words::ends_word))]
fn ends_word(b: u8) -> bool
    ensures { result ≡ ends_word b }
{
    matches!(b, b' ' | b'\t' | b'\n' | b'\r' | b'#')
}

// Whether a word begins with this byte.
#[tactic(auto, unfolding(crate::specs::Words::begins))]
fn begins(comment: bool, b: u8) -> bool
    ensures { result ≡ begins comment b }
{
    !comment && !ends_word(b)
}

// Whether the place after this byte is in a comment.
#[tactic(auto, unfolding(crate::specs::Words::comment_after))]
fn comment_after(comment: bool, b: u8) -> bool
    ensures { result ≡ comment_after comment b }
{
    b != b'\n' && (comment || b == b'#')
}

// Where the next word begins, or the text ends.
fn skip(text: &[u8], from: Cursor) -> Cursor
    requires { CursorWithin text.now from }
    ensures start { result ≡ start_of false from (drop from.at text.now) }
    ensures inside { result.at ≤ length text.now }
{
    let mut line = from.line;
    let mut comment = false;
    for at in from.at..text.len() {
        let b = text[at];
        if begins(comment, b) {
            return Cursor { at, line };
        }
        comment = comment_after(comment, b);
        line += newline(b);
    }
    Cursor {
        at: text.len(),
        line,
    }
}

// The bytes up to the end of the word that the text begins with.
fn word_of(text: &[u8]) -> &[u8]
    ensures word { result.now ≡ word_of text.now }
    ensures inside { length result.now ≤ length text.now }
{
    let end = text
        .iter()
        .position(|b| ends_word(*b))
        .unwrap_or(text.len());
    &text[..end]
}

// One more digit; what is too large stays at 4,294,967,296.
fn with_digit(value: u64, b: u8) -> u64
    requires { (value ≤ 4294967296) × (48 ≤ b) × (b < 256) }
    ensures { result ≡ capped (with_digit value b) }
{
    let next = value * 10 + u64::from(b - b'0');
    next.min(TOO_LARGE)
}

// What a word says.
fn numeral_of(word: &[u8]) -> Result<u32, NumeralError>
    ensures { result ≡ numeral_of word.now }
{
    let mut value: u64 = 0;
    for b in word {
        if !b.is_ascii_digit() {
            return Err(NumeralError::NotANumber);
        }
        value = with_digit(value, *b);
    }
    if value < TOO_LARGE {
        return Ok(value as u32);
    }
    Err(NumeralError::TooLarge)
}

// The next word.
pub fn next(text: &[u8], from: Cursor) -> Result<Word, WordError>
    requires { CursorWithin text.now from }
    ensures { result ≡ next_of text.now from }
{
    let start = skip(text, from);
    let line = start.line;
    let word = word_of(&text[start.at..]);
    if word.is_empty() {
        return Ok(Word::End(line));
    }
    let at = start.at + word.len();
    match numeral_of(word) {
        Ok(x) => Ok(Word::Number(x, Cursor { at, line })),
        Err(why) => Err(WordError { line, why }),
    }
}
